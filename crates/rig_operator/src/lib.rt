//! The operator of a rig that is served: the lines of a reader, each answered before the next one is read.
//!
//! ```text
//! let ending = operate(&rt, alloc, &mut rig, &mut lines, &mut reader, &mut writer)?;
//! ```
//!
//! The operator gives the instants, reads the lines of the rig, and halts. The crate `rig_model` has the forms of a line, [`rigs`] the
//! questions to a rig, and [`operating::operate`] answers the lines. `specs/Asked.antt` defines the questions with their answers, and
//! `specs/Operation.antt` what is asked and written for each line.
#![tactic(auto)]

pub mod faults;
pub mod operating;
mod replies;
pub mod rigs;
