//! The plant of a rig: which driven lines can change which read lines, as a configuration declares it.
//!
//! ```text
//! [[plant]]
//! from = [3]
//! to = [0, 1]
//! ```
//!
//! What is driven on line 3 can change what is read on lines 0 and 1. The host ignores these tables, as all fields that it doesn't know.
//! [`read_plant`] reads them from the text of a configuration, or returns the first fault in them.
//!
//! `specs/Reading.antt` says what a text declares, and `specs/Couplings.antt` which lines and tenants are coupled.
//! `proofs/PlantExamples.antt` has examples of texts.
#![tactic(auto)]

pub mod couplings;
pub mod faults;
mod reading;

pub use reading::read_plant;
