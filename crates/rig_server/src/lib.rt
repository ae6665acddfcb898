//! The server: a session for each connection, over one desk, and an operator that gives the instants.
//!
//! [`serving::serve`] takes connections from a listener until the operator halts it. Each connection has a thread, a seat of the desk and a
//! session of `rig_sessions`. A pool of `worker_pool` runs the jobs that an instant releases. `rig_operator` answers the operator's lines.
//!
//! [`register`] has the open connections, so that they can be ended from outside, and the passes of those that have ended. At the halt,
//! the desk is closed with all passes.
//!
//! [`greetings`] bounds the wait for a client's greeting, and slows down a client that guesses keys.
//!
//! [`histories`] appends what the desk logs to a file, once a second, if the server is given one. [`pieces`] has what the file doesn't have
//! yet. Then passes needn't be kept until the halt: [`archived`] has the calls with which a pass is compared before it is released.
//!
//! A client holds only its own thread. No lock is held while the server waits for a client.
#![tactic(auto)]

mod archived;
mod clients;
mod connections;
mod deadlines;
pub mod faults;
mod greetings;
mod halting;
mod histories;
pub mod limits;
mod pieces;
mod refusals;
mod register;
mod replies;
pub mod seats;
mod served_rigs;
pub mod serving;
