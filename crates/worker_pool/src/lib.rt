//! Workers: threads that run jobs alongside a host, outside its lock.
//!
//! A [`pools::Pool`] starts workers in a scope of threads, for one desk of `locked_book`. The caller that ticks the desk sends the
//! jobs of the instant to the pool. A worker takes a job, asks its [`gates::Gate`], computes the job, and hands its completion to
//! the desk. Gate and computation are outside the desk's lock: a worker borrows only the desk, and no public call of the desk holds
//! the lock after it returns.
//!
//! Which worker runs a job, when and in which order, changes no answer. A completion is the value of its own job, whichever worker
//! computed it, and the desk logs it at the place where it came. Nothing is promised about time: a job may be completed after its
//! deadline, and is late then.
#![tactic(auto)]

pub mod gates;
pub mod outboxes;
pub mod pools;
pub mod workers;
