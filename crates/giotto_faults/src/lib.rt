//! Reports why a text is not a program in Giotto, and where.
//!
//! [`read_or_tell`](faults::read_or_tell) reads a text as `giotto_read` does. If `giotto_read` refuses the text, it returns a
//! [`ProgramFault`](faults::ProgramFault): the same reason at the same offset, with each kind of token that could come there. A
//! fault is reported as a [`Finding`](findings::Finding), which is shown in the form of a compiler's messages:
//!
//! ```text
//! controller.giotto:12:14: error: expected an operator or `;`, found `b`
//!    |
//! 12 |     o := a b;
//!    |            ^
//! ```
//!
//! The definitions are in `specs/`:
//!
//! - `Places`: the line and the column of an offset.
//! - `Expected`: which tokens could follow a text.
//! - `Nesting`: where parentheses and braces nest too deep.
//! - `Faults`: what a fault says.
//! - `Findings`: where a finding is shown, and the first line of its text.
//!
//! [`laws`] says that the expected kinds of tokens are exactly those with which the text begins some program. Nothing is promised
//! about the words of the messages and the hints, in `messages` and `hints`.
#![tactic(auto)]

pub mod expected;
pub mod faults;
pub mod findings;
mod found;
mod hints;
pub mod kinds;
pub mod laws;
mod messages;
mod nesting;
pub mod places;
pub mod ports;

pub use giotto_read as reading;
