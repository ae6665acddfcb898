//! A client of a server: one session, line by line, for a person who types the lines or a program that writes them.
//!
//! [`sessions`] connects to a server, and greets it as a tenant. [`conversing`] sends the lines of a user, each after the answer to the one
//! before, and prints the answers. Both run over any readers and writers: they open no socket and no file.
//!
//! [`user_lines`] says which lines the client answers itself, and which it makes of a file. [`programs`] says how a file is sent. [`answers`] is
//! one request with its answer, [`remarks`] is what the client writes below an answer, [`outcomes`] says how a session goes on and ends. [`keys`]
//! says what a key is, and [`help`] is the table of all commands.
#![tactic(auto)]

pub mod answers;
pub mod conversing;
pub mod faults;
pub mod help;
pub mod keys;
pub mod outcomes;
pub mod programs;
pub mod remarks;
pub mod sessions;
pub mod user_lines;
pub mod users;
