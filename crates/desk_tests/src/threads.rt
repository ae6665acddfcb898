//! Desks that threads share: two suppliers whose calls are in one history, many calls at once, a thread that waits for the last job, and a
//! completion after a stop.

use crate::desks::{
    book_of, both, call, entries, is_refused, load_and_start, new_pass, other_pass,
};
use crate::fixtures::{ADDER, ALPHA, BETA, FOUR, LISTENER, NOBODY, frame, load, release};
use crate::shown::{Shown, is_shown};
use host_core::hosts::Counted;
use locked_book::books::Book;
use locked_book::desks::Desk;
use locked_book::faults::{CloseFault, DeskFault};
use locked_book::naming::Naming;
use locked_book::passes::Pass;
use rig_model::config::TenantId;
use rig_model::lines::commands::Command;
use rig_model::lines::replies::Reply;
use rig_model::logged::{Call, Logged};
use std::alloc::Global;
use std::process::Abort;
use std::sync::Wait;
use std::thread;
use std::thread::Threads;
use std::time::{Clock, Duration};
use tenant_jobs::jobs::{Job, run_job};

// The number of calls that each of two threads makes.
const MANY: usize = 200;

// What a test shows of desks that threads share.
#[derive(Clone, Copy)]
pub(crate) enum Shared {
    OneHistory,
    Late,
    OneBook,
    // A thread that waits for the last job returns once that has ended in this way.
    Settled(JobEnd),
}

// How the only outstanding job ends.
#[derive(Clone, Copy)]
pub(crate) enum JobEnd {
    // Its tenant is stopped, by a call.
    Stop,
    // Its tenant is stopped, by calls that are made together.
    StopTogether,
    // Its tenant overruns at an instant.
    Overrun,
}

pub(crate) fn shares<N: Naming + Send + Sync, R: Threads + Wait + Clock + Abort + Sync>(
    rt: &R,
    alloc: Global,
    desk: Desk<N>,
    other: &Desk<N>,
    shared: Shared,
) -> bool {
    match shared {
        Shared::OneHistory => stand_in_one_history(rt, alloc, desk, other),
        Shared::Late => drops_late_completion(rt, alloc, desk),
        Shared::OneBook => stand_in_one_book(rt, alloc, desk),
        Shared::Settled(end) => settles(rt, alloc, desk, end),
    }
}

// Alpha loads the adder and starts it, and beta the listener, each in a separate thread and on a separate pass.
fn both_start<N: Naming + Send + Sync, R: Threads + Wait + Abort + Sync>(
    rt: &R,
    alloc: Global,
    desk: &Desk<N>,
    alphas: &mut Pass<N>,
    betas: &mut Pass<N>,
) {
    thread::scope(thread::scope_env(), rt, |scope| {
        let _ = scope
            .spawn(move || load_and_start(rt, alloc, desk, alphas, ALPHA, ADDER))
            .is_ok();
        let _ = scope
            .spawn(move || load_and_start(rt, alloc, desk, betas, BETA, LISTENER))
            .is_ok();
    });
}

// Whether the calls are a load and a start of this tenant, both carried out.
fn has_started<N: Naming>(pass: &Pass<N>, tenant: TenantId) -> bool {
    match pass.calls() {
        [load, start] => is_load(load.as_call(), tenant) && is_start(start.as_call(), tenant),
        _ => false,
    }
}

fn is_load(call: &Call, tenant: TenantId) -> bool {
    call.tenant == tenant
        && matches!(call.command, Command::Load(_))
        && matches!(call.reply, Reply::Loaded)
}

fn is_start(call: &Call, tenant: TenantId) -> bool {
    call.tenant == tenant
        && matches!(call.command, Command::Start)
        && matches!(call.reply, Reply::Started)
}

// The one job that an instant with the reading 5 releases, and the place of that instant.
fn one_job<N: Naming>(rt: &(impl Wait + Abort), desk: &Desk<N>) -> (Job, u128) {
    let (mut jobs, place) = desk.tick(rt, &[5]).expect(rt, "an instant");
    assert!(rt; jobs.len() == 1);
    (jobs.take().expect(rt, "a job"), place)
}

// The places of an instant with the reading 5 and of the completion of its one job, which counts. The desk settles after them, with line 0
// at 0.
fn tick_and_done<N: Naming>(rt: &(impl Wait + Abort), desk: &Desk<N>) -> (u128, u128) {
    let (job, tick) = one_job(rt, desk);
    let (counted, done) = desk.done(rt, run_job(job));
    desk.settle(rt);
    assert!(rt; counted == Counted::Counted);
    assert!(rt; has_line(rt, desk, 0));
    (tick, done)
}

// Whether the rig's one line has this value.
fn has_line<N: Naming>(rt: &(impl Wait + Abort), desk: &Desk<N>, value: i64) -> bool {
    let values = desk.lines(rt).expect(rt, "memory");
    matches!(values.as_slice(), [line] if *line == value)
}

// Two suppliers with a pass and a thread each, an instant and its completion: all of it is in one history, and in no other order.
fn stand_in_one_history<N: Naming + Send + Sync, R: Threads + Wait + Abort + Sync>(
    rt: &R,
    alloc: Global,
    desk: Desk<N>,
    other: &Desk<N>,
) -> bool {
    let mut alphas = new_pass(rt, &desk);
    let mut betas = new_pass(rt, &desk);
    both_start(rt, alloc, &desk, &mut alphas, &mut betas);
    let have_started = has_started(&alphas, ALPHA) && has_started(&betas, BETA);
    let (tick, done) = tick_and_done(rt, &desk);
    let stranger = other_pass(rt, other);
    let book = closed(rt, desk, Vec::new(alloc), alphas, betas, stranger);
    let are_at = are_at(rt, alloc, &book, tick, done);
    drop(book);
    have_started && are_at
}

// Whether the log has 6 entries, and the instant and the completion are at these places, and not the other way round.
fn are_at<N: Naming>(
    rt: &impl Abort,
    alloc: Global,
    book: &Book<N>,
    tick: u128,
    done: u128,
) -> bool {
    book.log().len() == 6
        && stand_at(rt, alloc, book, tick, done)
        && !stand_at(rt, alloc, book, done, tick)
}

// The desk's book, closed with these passes. Before that, it closes neither without alpha's pass nor with a stranger's.
pub(crate) fn closed<N: Naming>(
    rt: &impl Abort,
    desk: Desk<N>,
    others: Vec<Pass<N>>,
    alphas: Pass<N>,
    betas: Pass<N>,
    stranger: Pass<N>,
) -> Book<N> {
    let missing = CloseFault::Missing(alphas.seat());
    let mismatch = CloseFault::Mismatch(stranger.seat());
    let (desk, passes) = refused_with(rt, desk, others, betas, missing);
    let (desk, passes) = refused_with(rt, desk, passes, stranger, mismatch);
    let (desk, passes) = refused_with(rt, desk, passes, alphas, mismatch);
    closed_without_stranger(rt, desk, passes)
}

// Adds this pass, with which the desk doesn't close, for this reason. Returns the desk and the passes.
fn refused_with<N: Naming>(
    rt: &impl Abort,
    desk: Desk<N>,
    passes: Vec<Pass<N>>,
    pass: Pass<N>,
    why: CloseFault,
) -> (Desk<N>, Vec<Pass<N>>) {
    let mut passes = passes;
    passes.push(pass).expect(rt, "memory");
    let (fault, desk, passes) = desk.close(passes).err().expect(rt, "a refusal");
    assert!(rt; fault == why);
    (desk, passes)
}

// The book, closed with these passes without the last but one.
fn closed_without_stranger<N: Naming>(
    rt: &impl Abort,
    desk: Desk<N>,
    passes: Vec<Pass<N>>,
) -> Book<N> {
    let mut passes = passes;
    assert!(rt; passes.len() >= 2);
    drop(passes.swap_remove(passes.len() - 2));
    book_of(rt, desk, passes)
}

// Whether the instant with the reading 5 and the completion of its job are in the log at these places.
fn stand_at<N: Naming>(
    rt: &impl Abort,
    alloc: Global,
    book: &Book<N>,
    tick: u128,
    done: u128,
) -> bool {
    let instant = Logged::Tick(frame(rt, alloc, 5));
    let completion = Logged::Done(release(rt, ALPHA, 0));
    book.stands(&[(tick, instant), (done, completion)])
}

// A completion after a stop is late and not logged, and the next program drives its line at once.
fn drops_late_completion<N: Naming>(
    rt: &(impl Wait + Abort),
    alloc: Global,
    desk: Desk<N>,
) -> bool {
    let mut pass = new_pass(rt, &desk);
    let is_late = is_late_behind_stop(rt, alloc, &desk, &mut pass);
    let drives = drives_four(rt, alloc, &desk, &mut pass);
    let is_history = is_its_history(rt, alloc, desk, pass);
    is_late && drives && is_history
}

// Whether the desk has four entries, and alpha's next program drives its line.
fn drives_four<N: Naming>(
    rt: &(impl Wait + Abort),
    alloc: Global,
    desk: &Desk<N>,
    pass: &mut Pass<N>,
) -> bool {
    let is_four = is_refused(rt, desk, pass, NOBODY, DeskFault::Strange(4));
    drop(call(rt, desk, pass, ALPHA, load(rt, alloc, FOUR)));
    is_four && has_line(rt, desk, 4)
}

// Whether alpha's job is late. Alpha is stopped before the job is done.
fn is_late_behind_stop<N: Naming>(
    rt: &(impl Wait + Abort),
    alloc: Global,
    desk: &Desk<N>,
    pass: &mut Pass<N>,
) -> bool {
    load_and_start(rt, alloc, desk, pass, ALPHA, ADDER);
    let (job, _place) = one_job(rt, desk);
    drop(call(rt, desk, pass, ALPHA, Command::Stop));
    let (counted, place) = desk.done(rt, run_job(job));
    desk.settle(rt);
    counted == Counted::Late && place == 0
}

// Whether the log has a load, a start, an instant, a stop and a load.
fn is_its_history<N: Naming>(rt: &impl Abort, alloc: Global, desk: Desk<N>, pass: Pass<N>) -> bool {
    let mut passes = Vec::new(alloc);
    passes.push(pass).expect(rt, "memory");
    let book = book_of(rt, desk, passes);
    let is_its_history = is_cut_short(book.log());
    drop(book);
    is_its_history
}

fn is_cut_short(log: &[Logged]) -> bool {
    matches!(
        log,
        [
            Logged::Call(_, _),
            Logged::Call(_, _),
            Logged::Tick(_),
            Logged::Call(_, _),
            Logged::Call(_, _),
        ]
    )
}

// Two passes on which two threads make many calls at once close in one log, which has each of their calls.
fn stand_in_one_book<N: Naming + Send + Sync, R: Threads + Wait + Abort + Sync>(
    rt: &R,
    alloc: Global,
    desk: Desk<N>,
) -> bool {
    let mut alphas = new_pass(rt, &desk);
    let mut betas = new_pass(rt, &desk);
    both_call(rt, &desk, &mut alphas, &mut betas);
    let are_many = alphas.calls().len() == MANY && betas.calls().len() == MANY;
    let passes = both(rt, alloc, alphas, betas);
    let entries = entries(rt, desk, passes);
    are_many && entries == 2 * MANY
}

// Both tenants ask for their modes many times, each in a separate thread.
fn both_call<N: Naming + Send + Sync, R: Threads + Wait + Sync>(
    rt: &R,
    desk: &Desk<N>,
    alphas: &mut Pass<N>,
    betas: &mut Pass<N>,
) {
    thread::scope(thread::scope_env(), rt, |scope| {
        let _ = scope
            .spawn(move || call_often(rt, desk, alphas, ALPHA))
            .is_ok();
        let _ = scope
            .spawn(move || call_often(rt, desk, betas, BETA))
            .is_ok();
    });
}

fn call_often<N: Naming>(rt: &impl Wait, desk: &Desk<N>, pass: &mut Pass<N>, tenant: TenantId) {
    for _call in 0..MANY {
        let _ = desk.call(rt, pass, tenant, Command::ShowMode).is_ok();
    }
}

// A thread waits until no job is outstanding, while the only one ends in this way. If the thread isn't woken, this never returns.
fn settles<N: Naming + Send + Sync, R: Threads + Wait + Clock + Abort + Sync>(
    rt: &R,
    alloc: Global,
    desk: Desk<N>,
    end: JobEnd,
) -> bool {
    let mut pass = new_pass(rt, &desk);
    load_and_start(rt, alloc, &desk, &mut pass, ALPHA, ADDER);
    drop(one_job(rt, &desk));
    settle_beside(rt, &desk, &mut pass, end);
    drop(pass);
    drop(desk);
    true
}

// The job ends 50 milliseconds after the start of a thread that settles, so that the thread is waiting by then.
fn settle_beside<N: Naming + Send + Sync, R: Threads + Wait + Clock + Abort + Sync>(
    rt: &R,
    desk: &Desk<N>,
    pass: &mut Pass<N>,
    end: JobEnd,
) {
    thread::scope(thread::scope_env(), rt, |scope| {
        assert!(rt; scope.spawn(move || desk.settle(rt)).is_ok());
        thread::sleep(rt, Duration::from_millis(50));
        end_job(rt, desk, pass, end);
    });
}

fn end_job<N: Naming>(rt: &(impl Wait + Abort), desk: &Desk<N>, pass: &mut Pass<N>, end: JobEnd) {
    match end {
        JobEnd::Stop => drop(call(rt, desk, pass, ALPHA, Command::Stop)),
        JobEnd::StopTogether => desk
            .call_all(rt, pass, ALPHA, &[Command::Stop])
            .expect(rt, "a stop"),
        JobEnd::Overrun => {
            drop(desk.tick(rt, &[7]).expect(rt, "an instant"));
            drop(desk.tick(rt, &[9]).expect(rt, "an instant"));
        }
    }
}

#[test]
fn two_threads_stand_in_one_history(rt: HostRuntime) {
    assert!(rt; is_shown(&rt, rt.alloc(), Shown::Shared(Shared::OneHistory)));
}

#[test]
fn late_completion_is_not_logged(rt: HostRuntime) {
    assert!(rt; is_shown(&rt, rt.alloc(), Shown::Shared(Shared::Late)));
}

#[test]
fn passes_of_two_threads_close_in_one_book(rt: HostRuntime) {
    assert!(rt; is_shown(&rt, rt.alloc(), Shown::Shared(Shared::OneBook)));
}

#[test]
fn stop_of_the_last_job_wakes_a_thread(rt: HostRuntime) {
    assert!(rt;
        is_shown(
            &rt,
            rt.alloc(),
            Shown::Shared(Shared::Settled(JobEnd::Stop))
        )
    );
}

#[test]
fn stop_together_wakes_a_thread(rt: HostRuntime) {
    assert!(rt;
        is_shown(
            &rt,
            rt.alloc(),
            Shown::Shared(Shared::Settled(JobEnd::StopTogether))
        )
    );
}

#[test]
fn overrun_of_the_last_job_wakes_a_thread(rt: HostRuntime) {
    assert!(rt;
        is_shown(
            &rt,
            rt.alloc(),
            Shown::Shared(Shared::Settled(JobEnd::Overrun))
        )
    );
}
