//! The history of a host as text: the entries of its log, and the audit of such a text.
//!
//! [`commands`] writes a command as its line, and [`entries`] an entry of a log. [`audits`] plays such a text on a new host, and finds how
//! far it is a history. [`pieces`] writes it to a file, entry by entry. `specs/Commands.antt`, `Entries.antt` and `Audits.antt` define them.
#![tactic(auto)]

mod asked;
pub mod audits;
pub mod commands;
pub mod entries;
mod given;
pub mod laws;
pub mod pieces;
#[cfg(test)]
mod tests;
