//! Reads programs in Giotto from their texts, and prints them.
//!
//! [`read`] returns the [`Program`] that a text spells, or a [`ReadFault`] that says why it spells none. [`print`]
//! returns the canonical text of a program, which reads as that program again:
//!
//! ```text
//! let program = read(alloc, "mode m period 02 { } start m;")?;
//! let text = print(alloc, &program)?;
//! assert_eq!(rt; text.as_str(), "mode m period 2 { } start m ;");
//! ```
//!
//! The definitions are in the crate `giotto_text`. The private module `reader` has one function for each line of the
//! grammar, each proved against its line of `giotto_text/specs/Parsing.antt`. The private module `printing` has one for
//! each part of `giotto_text/specs/Canonical.antt`.
#![tactic(auto)]

mod printing;
mod reader;
mod reading;

pub use giotto_text as text;
pub use giotto_text::faults::ReadFault;
pub use giotto_text::programs::Program;
pub use printing::print;
pub use reading::read;
