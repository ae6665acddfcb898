//! What subcommands need from the machine.

use std::rt::Files;

/// Files, standard input, standard output and standard error, and the global allocator.
pub trait System: Files + Input + Print + Eprint + AllocGlobal {}

impl<R: Files + Input + Print + Eprint + AllocGlobal> System for R {}
