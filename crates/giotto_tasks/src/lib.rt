//! Task bodies: the functions that the tasks of a Giotto program compute.
//!
//! A body is a block of assignments, branches and counted repetitions over numbers of 64 bits that
//! saturate at the ends of their range. [`bodies::Body`] is its tree. [`evaluation::eval`] runs it:
//! it is proved to compute the body's meaning, in no more steps than the body's [`cost`]. If `body`
//! is `o := i + 1;`, with the input i and the output o:
//!
//! ```text
//! let mut inputs = Values::new();
//! inputs.push(5);
//! let (outputs, states) = eval(&body, &inputs, &Values::new(), &mut steps);
//! // outputs is 6, and there are no states
//! ```
//!
//! `specs/Meaning.antt` defines what a body means, over the trees of `specs/Syntax.antt` and the
//! arithmetic of `specs/Arithmetic.antt`. `specs/Cost.antt` defines its cost and how many steps it
//! takes, and `specs/Sound.antt` which names it may use. `proofs/Examples.antt` has examples of
//! each.
#![tactic(auto)]

pub mod bodies;
pub mod code;
mod costs;
pub mod evaluation;
pub mod faults;
pub mod index;
pub mod lists;
pub mod names;
pub mod operators;
mod places;
pub mod same;
pub mod steps;
pub mod values;

pub use costs::{cost, driver_cost};
