//! A worker that is held past its job's deadline.

ghost use Rattle.std.specs.Prelude.{◌≤◌};

use crate::desks::{both, entries, load_and_start, new_pass};
use crate::fixtures::{ADDER, ALPHA};
use crate::pools::{is_answered, jobs_of};
use crate::shown::{Shown, is_shown};
use locked_book::desks::Desk;
use locked_book::naming::Naming;
use std::alloc::Global;
use std::process::Abort;
use std::sync::Wait;
use std::sync::atomic::{AtomicBool, Ordering};
use std::thread;
use std::thread::Threads;
use std::time::{Clock, Duration};
use tenant_jobs::jobs::{JobId, Jobs};
use worker_pool::gates::Gate;
use worker_pool::pools::Pool;

// How often a held job checks whether the gate is open, once a millisecond.
const TURNS: u32 = 10_000;

// Holds each job until it is opened.
#[derive(Drop)]
struct Closed {
    is_open: AtomicBool,
}

impl Gate for Closed {
    fn enter<R: Wait + Clock>(&self, rt: &R, _id: &JobId) {
        for _turn in 0..TURNS {
            if self.is_open.load(Ordering::SeqCst) {
                return;
            }
            thread::sleep(rt, Duration::from_millis(1));
        }
    }
}

// A job is held until its tenant was stopped for it. Its completion is late, and isn't in the log: two calls, three instants and the
// question are.
pub(crate) fn held_job_is_late<N: Naming + Send + Sync, R: Threads + Wait + Clock + Abort + Sync>(
    rt: &R,
    alloc: Global,
    desk: Desk<N>,
) -> bool {
    let mut pass = new_pass(rt, &desk);
    load_and_start(rt, alloc, &desk, &mut pass, ALPHA, ADDER);
    let gate = Closed {
        is_open: AtomicBool::new(false),
    };
    hold(rt, alloc, &desk, &gate, jobs_of(rt, &desk, 5));
    let is_stopped = is_answered(
        rt,
        alloc,
        &desk,
        &mut pass,
        "show mode",
        "ok mode stopped overrun T",
    );
    let other = new_pass(rt, &desk);
    let passes = both(rt, alloc, pass, other);
    entries(rt, desk, passes) == 6 && is_stopped
}

// The gate holds these jobs until two more instants have passed and none of them is awaited.
fn hold<N: Naming + Send + Sync, R: Threads + Wait + Clock + Abort + Sync>(
    rt: &R,
    alloc: Global,
    desk: &Desk<N>,
    gate: &Closed,
    jobs: Jobs,
) {
    thread::scope(thread::scope_env(), rt, |scope| {
        let pool = Pool::start(rt, alloc, scope, 1, desk, gate).expect(rt, "a worker");
        drop(pool.send(rt, jobs));
        drop(jobs_of(rt, desk, 7));
        drop(jobs_of(rt, desk, 9));
        desk.settle(rt);
        gate.is_open.store(true, Ordering::SeqCst);
        pool.stop(rt);
    });
}

#[test]
fn completion_of_a_held_job_is_late(rt: HostRuntime) {
    assert!(rt; is_shown(&rt, rt.alloc(), Shown::LateJob));
}
