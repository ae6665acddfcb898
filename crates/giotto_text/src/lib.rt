//! Program texts in Giotto: their tokens, the grammar, and what a text reads as.
//!
//! Giotto is the time-triggered language of Henzinger, Horowitz and Kirsch (Proc. IEEE 91(1), 2003). A program declares
//! sensors, actuators, outputs, tasks with their bodies, and modes. A mode invokes tasks and updates actuators at fixed
//! fractions of its period. This is a program:
//!
//! ```text
//! sensor s := 0 line 0; actuator a := 0; output o := 0;
//! task T(i) output o { o := i + 1; }
//! mode m period 2 { actfreq 1 do a := o; taskfreq 1 do T(s); }
//! start m;
//! ```
//!
//! This crate has the definitions and what the parser builds on: [`lexer::tokens`] cuts a text into [`tokens`], and
//! [`programs`] has the types of a program's parts. The crate `giotto_read` reads and prints programs.
//!
//! The definitions are in `specs/`. `Tokens` and `Grammar` come first, then `Spelling` (what tokens spell, and what
//! they begin to spell), `Nesting` and `Reading`. `Parsing` computes what a text reads as, and `Canonical` how a
//! program is printed. `proofs/TokenRules.antt`, `ParsedExamples.antt`, `ParsedFaults.antt` and
//! `CanonicalExamples.antt` show the rules by example.
#![tactic(auto)]

pub mod faults;
pub mod laws;
pub mod lexer;
pub mod name_bytes;
pub mod programs;
mod same;
pub mod tokens;
