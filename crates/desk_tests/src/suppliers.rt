//! Two suppliers that talk at once, each in a separate thread, and two workers that run the jobs: all of it is in one history.

use crate::desks::new_pass;
use crate::fixtures::frame;
use crate::sessions::{
    ALPHAS, ALPHAS_REPLIES, BETAS, BETAS_REPLIES, THIRDS, THIRDS_REPLIES, talked, talked_on,
};
use crate::shown::{Shown, is_shown};
use crate::threads::closed;
use locked_book::desks::Desk;
use locked_book::naming::Naming;
use locked_book::passes::Pass;
use rig_model::config::Config;
use rig_model::logged::Logged;
use rig_sessions::calls::Calls;
use std::alloc::Global;
use std::process::Abort;
use std::sync::Wait;
use std::thread;
use std::thread::Threads;
use std::time::Clock;
use worker_pool::gates::Free;
use worker_pool::pools::Pool;

// What was done at a desk: the passes of alpha, of beta and of all later sessions, and the instants with their places.
#[derive(Drop)]
struct Day<N: Naming> {
    alphas: Pass<N>,
    betas: Pass<N>,
    later: Vec<Pass<N>>,
    instants: Vec<(u128, Logged)>,
}

// All that two suppliers, a third session and three instants do is in one history.
pub(crate) fn talk_at_once<N: Naming + Send + Sync, R: Threads + Wait + Clock + Abort + Sync>(
    rt: &R,
    alloc: Global,
    config: &Config,
    desk: Desk<N>,
    other: &Desk<N>,
) -> bool {
    let gate = Free;
    let day = with_workers(rt, alloc, config, &desk, &gate);
    stands_in_one_history(rt, desk, day, new_pass(rt, other))
}

// A day with two workers.
fn with_workers<N: Naming + Send + Sync, R: Threads + Wait + Clock + Abort + Sync>(
    rt: &R,
    alloc: Global,
    config: &Config,
    desk: &Desk<N>,
    gate: &Free,
) -> Day<N> {
    thread::scope(thread::scope_env(), rt, |scope| {
        let pool = Pool::start(rt, alloc, scope, 2, desk, gate).expect(rt, "workers");
        let day = whole_day(rt, alloc, config, desk, &pool);
        pool.stop(rt);
        day
    })
}

// Both suppliers begin, three instants pass, and beta asks in a third session for its granted value.
fn whole_day<N: Naming + Send + Sync, R: Threads + Wait + Abort + Sync>(
    rt: &R,
    alloc: Global,
    config: &Config,
    desk: &Desk<N>,
    pool: &Pool,
) -> Day<N> {
    let (alphas, betas) = both_talk(
        rt,
        alloc,
        config,
        desk,
        new_pass(rt, desk),
        new_pass(rt, desk),
    );
    let instants = three_instants(rt, alloc, desk, pool);
    let third = talked(rt, alloc, config, desk, THIRDS, THIRDS_REPLIES);
    let mut later = Vec::new(alloc);
    later.push(third).expect(rt, "memory");
    Day {
        alphas,
        betas,
        later,
        instants,
    }
}

// The passes of both suppliers, each of which gets the expected replies in its thread.
fn both_talk<N: Naming + Send + Sync, D: Calls<N> + Sync, R: Threads + Wait + Abort + Sync>(
    rt: &R,
    alloc: Global,
    config: &Config,
    desk: &D,
    alphas: Pass<N>,
    betas: Pass<N>,
) -> (Pass<N>, Pass<N>) {
    thread::scope(thread::scope_env(), rt, |scope| {
        let alpha = scope
            .spawn(move || talked_on(rt, alloc, config, desk, alphas, ALPHAS, ALPHAS_REPLIES))
            .ok();
        let beta = scope
            .spawn(move || talked_on(rt, alloc, config, desk, betas, BETAS, BETAS_REPLIES))
            .ok();
        (
            alpha.expect(rt, "a thread").join(rt),
            beta.expect(rt, "a thread").join(rt),
        )
    })
}

// The instants with the readings 5, 7 and 9, and their places. All jobs of the first are done before the second.
fn three_instants<N: Naming>(
    rt: &(impl Wait + Abort),
    alloc: Global,
    desk: &Desk<N>,
    pool: &Pool,
) -> Vec<(u128, Logged)> {
    let mut instants = Vec::new(alloc);
    pass_instant(rt, alloc, desk, pool, 5, &mut instants);
    desk.settle(rt);
    pass_instant(rt, alloc, desk, pool, 7, &mut instants);
    pass_instant(rt, alloc, desk, pool, 9, &mut instants);
    desk.settle(rt);
    instants
}

// An instant with this reading, whose jobs are sent to the workers.
fn pass_instant<N: Naming>(
    rt: &(impl Wait + Abort),
    alloc: Global,
    desk: &Desk<N>,
    pool: &Pool,
    reading: i64,
    instants: &mut Vec<(u128, Logged)>,
) {
    let (jobs, place) = desk.tick(rt, &[reading]).expect(rt, "an instant");
    assert!(rt; pool.send(rt, jobs).len() == 0);
    let instant = Logged::Tick(frame(rt, alloc, reading));
    instants.push((place, instant)).expect(rt, "memory");
}

// Whether the desk closes with only the day's passes, and its log has all of the day.
fn stands_in_one_history<N: Naming>(
    rt: &impl Abort,
    desk: Desk<N>,
    day: Day<N>,
    stranger: Pass<N>,
) -> bool {
    let Day {
        alphas,
        betas,
        later,
        instants,
    } = day;
    let book = closed(rt, desk, later, alphas, betas, stranger);
    let stands = has_all(book.log()) && book.stands(&instants);
    drop(book);
    drop(instants);
    stands
}

// Whether a log has 7 calls, 3 instants and 2 completions.
fn has_all(log: &[Logged]) -> bool {
    let (mut calls, mut instants, mut completions) = (0u32, 0u32, 0u32);
    for entry in log {
        match entry {
            Logged::Call(_, _) => calls = calls.wrapping_add(1),
            Logged::Tick(_) => instants = instants.wrapping_add(1),
            Logged::Done(_) => completions = completions.wrapping_add(1),
        }
    }
    calls == 7 && instants == 3 && completions == 2
}

#[test]
fn threads_that_talk_stand_in_one_history(rt: HostRuntime) {
    assert!(rt; is_shown(&rt, rt.alloc(), Shown::Suppliers));
}
