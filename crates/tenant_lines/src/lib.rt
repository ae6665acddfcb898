//! Reads commands from a tenant's lines, and prints replies as lines.
//!
//! ```text
//! let command = command_of(alloc, "show port a")?;
//! let text = print_reply(alloc, &reply)?;
//! ```
//!
//! - [`words`] cuts a line at its blanks, and [`command_lines`] returns the command that it spells.
//! - [`commands`] and [`replies`] have the commands and their replies, each with its text.
//! - [`ports`] has the ports in both.
//! - [`grant_lines`] has the commands about grants and their lines.
//!
//! `specs/Words.antt`, `CommandLine.antt`, `GrantLines.antt` and `Replies.antt` define them.
#![tactic(auto)]

pub mod command_lines;
pub mod commands;
pub mod grant_lines;
pub mod ports;
pub mod replies;
mod same;
pub mod shared_texts;
pub mod texts;
pub mod words;

pub use tenant_grants as grants;
pub use tenant_grants::config;
pub use tenant_trace as trace;
