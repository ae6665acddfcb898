//! Which rule a program in Giotto breaks, and each place that breaks it, with the names concerned.
//!
//! [`broken_rule`] returns the first rule that a program breaks, as `giotto_rules` does, and a finding for each place in its
//! text:
//!
//! ```text
//! controller.giotto:11:19: error: `T` is invoked twice in mode `m`
//!    |
//! 11 |     taskfreq 2 do T(1);
//!    |                   ^
//!    = rule 5: no task is invoked twice in one mode
//! ```
//!
//! A program doesn't record where its parts are in its text. `outlines` finds where its names and numbers are in the tokens of
//! the text. `finders` has a file for each group of rules, and works on that outline. It is only tested, not proved, that each
//! place is found and no others. If no place is found, the rule is reported without one.
#![tactic(auto)]

mod broken;
mod finders;
mod hints;
mod outlines;
pub mod rule_breaks;
pub mod words;

pub use broken::{BrokenRule, broken_rule};
