//! Questions about a program that don't depend on its run: whether it may be loaded, and what it shows.
//!
//! [`admission::read_program`] returns the well-formed program that a text spells, or says why there is none, and
//! [`budgets::broken_budget`] names the first budget that a program is over:
//!
//! ```text
//! let checked = read_program(alloc, text)?;
//! if let Some(budget) = broken_budget(budgets, text.len(), &checked) {
//!     return Err(Refusal::OverBudget(budget));
//! }
//! ```
//!
//! [`prepared::prepare`] reads the text of a command before the command is carried out.
//!
//! [`shown::port_values`] lists the ports of a program with their values, by their names in replies. The crate doesn't know which tenant has
//! the program, or what that tenant is doing. `Admission.antt` of the crate `rig_model` defines which programs may be loaded, and its
//! `Commands.antt` defines the values of ports.
#![tactic(auto)]

pub mod admission;
pub mod budgets;
pub mod prepared;
pub mod shown;
