//! When a Giotto program is well-formed, and what its ports and costs are.
//!
//! [`first_broken`] returns the first of the eleven rules that a program breaks:
//!
//! ```text
//! match first_broken(alloc, &program)? {
//!     None => {}
//!     Some(rule) => println!(rt; "the program breaks rule {rule}")?,
//! }
//! ```
//!
//! The rules are in `specs/Rules.antt`, over what a program declares (`specs/Declarations.antt`). The code that tests
//! them is in `src/rules.rt`, and `proofs/RuleExamples.antt` computes them on examples. [`laws`] says what follows from
//! the rules. `specs/Ports.antt` has the ports of a program in their order, and `specs/Costs.antt` the greatest cost of
//! its bodies and drivers; the crate `giotto_check` computes both.
#![tactic(auto)]

pub mod declarations;
mod indexed;
pub mod laws;
mod lookups;
mod names;
mod reads;
mod rules;
mod scopes;

pub use giotto_text as text;
pub use rules::first_broken;
