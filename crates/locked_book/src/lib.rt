//! The locked book: one host under one lock, with the history of all that was done to it.
//!
//! Several threads call one [`desks::Desk`]. Each has a separate seat with its [`passes::Pass`], which lists the calls of the seat and
//! their replies. The desk's [`books::Book`] has the host and its log. Each call, instant and counted completion is an entry of the log,
//! in the order in which the lock was taken. An answered call is the last entry of a legal log, in which the seat's calls are those of
//! the pass. A desk that closes with all its passes returns the one log that has all their calls.
//!
//! The model defines what a legal log is, and `specs/Books.antt` what a book and a pass are.
#![tactic(auto)]

pub mod archives;
mod bases;
pub mod books;
mod carried;
mod comparison;
pub mod desks;
pub mod faults;
pub mod histories;
mod known;
mod logs;
pub mod naming;
pub mod passes;
pub mod replies;
mod seats;
mod standing;
mod windows;
