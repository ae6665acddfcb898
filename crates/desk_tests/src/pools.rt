//! Workers: a held job lets the others pass, a sent job is run before its worker is stopped, and a dropped pool leaves no thread.
//!
//! What passes here fails with only one thread, with a gate under a lock, and with jobs that are dropped instead of sent.
//! `scripts/check-pools` runs two of these tests many times.

ghost use Rattle.std.specs.Prelude.{◌≤◌};

use crate::desks::{both, call, entries, load_and_start, new_pass};
use crate::fixtures::{ADDER, ALPHA, BETA};
use crate::shown::{Shown, is_shown};
use locked_book::desks::Desk;
use locked_book::naming::Naming;
use locked_book::passes::Pass;
use rig_model::lines::command_lines::command_of;
use rig_model::lines::replies::print_reply;
use std::alloc::Global;
use std::process::Abort;
use std::sync::atomic::{AtomicUsize, Ordering};
use std::sync::{Mutex, Wait};
use std::thread;
use std::thread::Threads;
use std::time::{Clock, Duration};
use tenant_jobs::jobs::{JobId, Jobs};
use worker_pool::gates::{Free, Gate};
use worker_pool::pools::Pool;

// Two tasks, each at every tick.
const PAIR: &str =
    "output o := 0; output q := 0; task T() output o { o := 1; } task U() output q { q := 2; } mode m period 1 { taskfreq 1 do T(); taskfreq 1 do U(); } start m;";

// How often the held job checks whether two others have entered, once a millisecond.
const TURNS: u32 = 10_000;

// What a test shows of workers.
#[derive(Clone, Copy)]
pub(crate) enum Work {
    // The first of three jobs to enter the gate is held until both others have entered.
    HeldJob(Crew),
    // A sent job is run before its worker has stopped, even if its gate takes a while.
    StoppedWorker(End),
    // A dropped pool runs what was sent, and its threads end.
    DroppedPool,
}

// The workers that compute three jobs.
#[derive(Clone, Copy)]
pub(crate) enum Crew {
    // Two workers.
    Two,
    // Only one thread.
    One,
    // Two workers that call their gate under one lock.
    TwoUnderOneLock,
}

// How the jobs of an instant end, and the workers.
#[derive(Clone, Copy)]
pub(crate) enum End {
    // There are three, and all are done before the workers are stopped.
    Settled,
    // They are sent, and the workers are stopped after them; two instants follow at once.
    Stopped,
    // They are dropped, and the workers stopped; two instants follow.
    Unsent,
    // They are sent, and the pool is dropped.
    Dropped,
}

pub(crate) fn works<N: Naming + Send + Sync, R: Threads + Wait + Clock + Abort + Sync>(
    rt: &R,
    alloc: Global,
    desk: Desk<N>,
    work: Work,
) -> bool {
    match work {
        Work::HeldJob(crew) => held_job_lets_others_pass(rt, alloc, desk, crew),
        Work::StoppedWorker(end) => stopped_worker_has_run_its_job(rt, alloc, desk, end),
        Work::DroppedPool => dropped_pool_runs_its_jobs(rt, alloc, desk),
    }
}

// Holds the first job that enters until two others have entered.
#[derive(Drop)]
struct HoldsFirst {
    entered: AtomicUsize,
    // The number of jobs that were let through before two others had entered.
    missed: AtomicUsize,
}

impl HoldsFirst {
    fn new() -> HoldsFirst {
        HoldsFirst {
            entered: AtomicUsize::new(0),
            missed: AtomicUsize::new(0),
        }
    }
}

impl Gate for HoldsFirst {
    fn enter<R: Wait + Clock>(&self, rt: &R, _id: &JobId) {
        if self.entered.fetch_add(1, Ordering::SeqCst) != 0 {
            return;
        }
        for _turn in 0..TURNS {
            if self.entered.load(Ordering::SeqCst) >= 3 {
                return;
            }
            thread::sleep(rt, Duration::from_millis(1));
        }
        self.missed.fetch_add(1, Ordering::SeqCst);
    }
}

// Holds each job for 50 milliseconds.
#[derive(Drop)]
struct Slow;

impl Gate for Slow {
    fn enter<R: Wait + Clock>(&self, rt: &R, _id: &JobId) {
        thread::sleep(rt, Duration::from_millis(50));
    }
}

// The gate that holds the first job, called under a lock.
#[derive(Drop)]
struct UnderLock {
    lock: Mutex<u64>,
    gate: HoldsFirst,
}

impl Gate for UnderLock {
    fn enter<R: Wait + Clock>(&self, rt: &R, id: &JobId) {
        let mut entered = self.lock.lock(rt);
        *entered = entered.wrapping_add(1);
        self.gate.enter(rt, id);
    }
}

// Alpha starts the pair and beta the adder, each on a separate pass.
fn both_start<N: Naming>(rt: &(impl Wait + Abort), alloc: Global, desk: &Desk<N>) -> Vec<Pass<N>> {
    let mut alphas = new_pass(rt, desk);
    let mut betas = new_pass(rt, desk);
    load_and_start(rt, alloc, desk, &mut alphas, ALPHA, PAIR);
    load_and_start(rt, alloc, desk, &mut betas, BETA, ADDER);
    both(rt, alloc, alphas, betas)
}

// This crew runs three jobs, the first of which is held until two others have entered. Two calls of each tenant, an instant and three
// completions are in the log.
fn held_job_lets_others_pass<N: Naming + Send + Sync, R: Threads + Wait + Clock + Abort + Sync>(
    rt: &R,
    alloc: Global,
    desk: Desk<N>,
    crew: Crew,
) -> bool {
    let passes = both_start(rt, alloc, &desk);
    let missed = missed_by(rt, alloc, &desk, crew);
    assert!(rt; entries(rt, desk, passes) == 8);
    missed == 0
}

// The number of jobs that were held too long. Each of the three jobs enters the gate.
fn missed_by<N: Naming + Send + Sync, R: Threads + Wait + Clock + Abort + Sync>(
    rt: &R,
    alloc: Global,
    desk: &Desk<N>,
    crew: Crew,
) -> usize {
    let locked = UnderLock {
        lock: Mutex::new(0),
        gate: HoldsFirst::new(),
    };
    match crew {
        Crew::Two => run(rt, alloc, desk, 2, &locked.gate, End::Settled),
        Crew::One => run(rt, alloc, desk, 1, &locked.gate, End::Settled),
        Crew::TwoUnderOneLock => run(rt, alloc, desk, 2, &locked, End::Settled),
    }
    assert!(rt; locked.gate.entered.load(Ordering::SeqCst) == 3);
    locked.gate.missed.load(Ordering::SeqCst)
}

// An instant with the reading 5. Its jobs end in this way, with this number of workers and this gate.
fn run<N: Naming + Send + Sync, R: Threads + Wait + Clock + Abort + Sync, G: Gate + Sync>(
    rt: &R,
    alloc: Global,
    desk: &Desk<N>,
    workers: usize,
    gate: &G,
    end: End,
)
    requires some { 1 ≤ workers }
    requires few { workers ≤ 64 }
{
    let jobs = jobs_of(rt, desk, 5);
    thread::scope(
        thread::scope_env(),
        rt,
        |scope|
            requires some { 1 ≤ workers }
            requires few { workers ≤ 64 }
        {
            let pool = Pool::start(rt, alloc, scope, workers, desk, gate).expect(rt, "workers");
            send(rt, desk, pool, jobs, end);
        },
    );
}

fn send<N: Naming>(
    rt: &(impl Threads + Wait + Abort),
    desk: &Desk<N>,
    pool: Pool,
    jobs: Jobs,
    end: End,
) {
    match end {
        End::Settled => {
            assert!(rt; jobs.len() == 3);
            assert!(rt; pool.send(rt, jobs).len() == 0);
            desk.settle(rt);
            pool.stop(rt);
        }
        End::Stopped => {
            drop(pool.send(rt, jobs));
            stop(rt, desk, pool);
        }
        End::Unsent => {
            drop(jobs);
            stop(rt, desk, pool);
        }
        End::Dropped => {
            drop(pool.send(rt, jobs));
            drop(pool);
        }
    }
}

// Stops the workers, and gives two instants. At the second one, a job of two ticks that isn't done is late.
fn stop<N: Naming>(rt: &(impl Threads + Wait + Abort), desk: &Desk<N>, pool: Pool) {
    pool.stop(rt);
    drop(jobs_of(rt, desk, 7));
    drop(jobs_of(rt, desk, 9));
}

// The jobs of an instant with this reading.
pub(crate) fn jobs_of<N: Naming>(rt: &(impl Wait + Abort), desk: &Desk<N>, reading: i64) -> Jobs {
    desk.tick(rt, &[reading]).expect(rt, "an instant").0
}

// Alpha still runs after the deadline of the one job of its first instant, and drives the result.
fn stopped_worker_has_run_its_job<
    N: Naming + Send + Sync,
    R: Threads + Wait + Clock + Abort + Sync,
>(rt: &R, alloc: Global, desk: Desk<N>, end: End) -> bool {
    let mut pass = new_pass(rt, &desk);
    load_and_start(rt, alloc, &desk, &mut pass, ALPHA, ADDER);
    let gate = Slow;
    run(rt, alloc, &desk, 1, &gate, end);
    let runs = is_answered(
        rt,
        alloc,
        &desk,
        &mut pass,
        "show mode",
        "ok mode running m 1",
    );
    let drives = is_answered(rt, alloc, &desk, &mut pass, "show port a", "ok port a 6");
    drop(pass);
    drop(desk);
    runs && drives
}

// Whether the reply to alpha's line is this text.
pub(crate) fn is_answered<N: Naming>(
    rt: &(impl Wait + Abort),
    alloc: Global,
    desk: &Desk<N>,
    pass: &mut Pass<N>,
    line: &str,
    text: &str,
) -> bool {
    let command = command_of(alloc, line).ok().expect(rt, "a command");
    let reply = call(rt, desk, pass, ALPHA, command);
    let printed = print_reply(alloc, &reply).expect(rt, "memory");
    drop(reply);
    printed.as_str() == text
}

// The sent jobs are run if the pool is dropped, and the scope ends.
fn dropped_pool_runs_its_jobs<N: Naming + Send + Sync, R: Threads + Wait + Clock + Abort + Sync>(
    rt: &R,
    alloc: Global,
    desk: Desk<N>,
) -> bool {
    let passes = both_start(rt, alloc, &desk);
    let gate = Free;
    run(rt, alloc, &desk, 2, &gate, End::Dropped);
    entries(rt, desk, passes) == 8
}

#[test]
fn held_job_lets_two_others_pass(rt: HostRuntime) {
    assert!(rt; is_shown(&rt, rt.alloc(), Shown::Work(Work::HeldJob(Crew::Two))));
}

#[test]
fn one_thread_for_all_is_told(rt: HostRuntime) {
    assert!(rt; !is_shown(&rt, rt.alloc(), Shown::Work(Work::HeldJob(Crew::One))));
}

#[test]
fn gate_under_a_lock_is_told(rt: HostRuntime) {
    assert!(rt;
        !is_shown(
            &rt,
            rt.alloc(),
            Shown::Work(Work::HeldJob(Crew::TwoUnderOneLock))
        )
    );
}

#[test]
fn stopped_worker_has_run_what_was_sent(rt: HostRuntime) {
    assert!(rt;
        is_shown(
            &rt,
            rt.alloc(),
            Shown::Work(Work::StoppedWorker(End::Stopped))
        )
    );
}

#[test]
fn dropped_job_is_told(rt: HostRuntime) {
    assert!(rt;
        !is_shown(
            &rt,
            rt.alloc(),
            Shown::Work(Work::StoppedWorker(End::Unsent))
        )
    );
}

#[test]
fn dropped_pool_leaves_no_thread_behind(rt: HostRuntime) {
    assert!(rt; is_shown(&rt, rt.alloc(), Shown::Work(Work::DroppedPool)));
}
