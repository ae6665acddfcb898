//! The kinds of work, by name.

use crate::{calls, requests, schedules, shown};
use std::alloc::Global;
use std::io::Print;
use std::sync::Wait;
use std::thread::Threads;

// The number of calls of each pass.
const CALLS: u64 = 32;

// The number of passes whose calls are archived.
const ARCHIVED: u64 = 25;

/// What is done a number of times.
#[derive(Clone, Copy)]
pub(crate) enum Work {
    /// Random schedules at a desk.
    Schedules,
    /// Steps at a desk that are tried again.
    Memory,
    /// Steps at a desk, and what the tenants are shown after them.
    Shown,
    /// Passes of 32 calls each.
    Passes,
    /// Calls of each of 25 passes, at a desk that isn't closed.
    Open,
    /// Calls of each of 25 passes, and an archive.
    Archives,
    /// Calls of one pass.
    Calls,
}

/// The work with this name; `None` if there is none.
pub(crate) fn work_of(name: &str) -> Option<Work> {
    let work = match name {
        "schedules" => Work::Schedules,
        "memory" => Work::Memory,
        "shown" => Work::Shown,
        "passes" => Work::Passes,
        "open" => Work::Open,
        "archives" => Work::Archives,
        "calls" => Work::Calls,
        _ => return None,
    };
    Some(work)
}

/// Does this work `times` times. Returns how often it came out right, or how many calls were logged.
pub(crate) fn done<R: Threads + Wait + Print + Sync>(
    rt: &R,
    alloc: Global,
    work: Work,
    times: u64,
) -> anyhow::Result<i64> {
    match work {
        Work::Schedules => schedules::agreeing(rt, alloc, times),
        Work::Memory => requests::taken(rt, alloc, times),
        Work::Shown => shown::after_steps(rt, alloc, times),
        Work::Passes => calls::closed(rt, alloc, times, CALLS),
        Work::Open => calls::dropped(rt, alloc, ARCHIVED, times),
        Work::Archives => calls::archived(rt, alloc, ARCHIVED, times),
        Work::Calls => calls::closed(rt, alloc, 1, times),
    }
}
