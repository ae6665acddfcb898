//! Archives: the pieces of a desk's history, and whether they join.

use crate::desks::{book_of, call, load_and_start, new_pass};
use crate::fixtures::{ADDER, ALPHA, name};
use crate::shown::{Shown, is_shown};
use host_core::hosts::Counted;
use locked_book::archives::{Archive, joined};
use locked_book::books::Book;
use locked_book::desks::Desk;
use locked_book::faults::CloseFault;
use locked_book::naming::Naming;
use locked_book::passes::Pass;
use rig_model::lines::commands::Command;
use rig_model::lines::ports::PortName;
use rig_model::lines::replies::Reply;
use rig_model::logged::Call;
use std::alloc::Global;
use std::process::Abort;
use std::sync::Wait;
use tenant_jobs::jobs::{Job, run_job};

// A desk whose tenant alpha runs the adder hands out its log twice. The pieces join with the closed book in their order alone.
pub(crate) fn hands_out_its_log<N: Naming>(
    rt: &(impl Wait + Abort),
    alloc: Global,
    desk: Desk<N>,
) -> bool {
    let mut pass = new_pass(rt, &desk);
    load_and_start(rt, alloc, &desk, &mut pass, ALPHA, ADDER);
    let job = released(rt, &desk, 5).expect(rt, "a job");
    let first = archive(rt, &desk);
    assert!(rt; desk.done(rt, run_job(job)).0 == Counted::Counted);
    drop(released(rt, &desk, 7));
    let second = archive(rt, &desk);
    drop(released(rt, &desk, 9));
    let shows = shows_six(rt, &desk, &mut pass);
    let book = closed(rt, alloc, desk, pass);
    let entries = first.log().len() == 3 && second.log().len() == 2 && book.log().len() == 2;
    shows && entries && join(rt, alloc, first, second, &book)
}

fn archive<N: Naming>(rt: &(impl Wait + Abort), desk: &Desk<N>) -> Archive<N> {
    desk.archive(rt).expect(rt, "an archive")
}

// The job that an instant with this reading releases, if there is one.
fn released<N: Naming>(rt: &(impl Wait + Abort), desk: &Desk<N>, reading: i64) -> Option<Job> {
    let (mut jobs, _place) = desk.tick(rt, &[reading]).expect(rt, "an instant");
    jobs.take()
}

// Whether the actuator has the value of the first instant's job.
fn shows_six<N: Naming>(rt: &(impl Wait + Abort), desk: &Desk<N>, pass: &mut Pass<N>) -> bool {
    let port = PortName {
        task: None,
        name: name(rt, "a"),
    };
    drop(call(rt, desk, pass, ALPHA, Command::ShowPort(port)));
    match pass.calls().last() {
        Some(call) => is_six(call.as_call()),
        None => false,
    }
}

fn is_six(call: &Call) -> bool {
    match &call.reply {
        Reply::Port(port) => port.value == 6,
        _ => false,
    }
}

// The book of the desk, which doesn't close without this pass: its seat has a call since the last archive.
fn closed<N: Naming>(rt: &impl Abort, alloc: Global, desk: Desk<N>, pass: Pass<N>) -> Book<N> {
    let (fault, desk, mut passes) = desk.close(Vec::new(alloc)).err().expect(rt, "a fault");
    assert!(rt; fault == CloseFault::Missing(0));
    passes.push(pass).expect(rt, "memory");
    book_of(rt, desk, passes)
}

// Whether both archives join with the book in this order, and in no other way.
fn join<N: Naming>(
    rt: &impl Abort,
    alloc: Global,
    first: Archive<N>,
    second: Archive<N>,
    book: &Book<N>,
) -> bool {
    let mut archives = Vec::new(alloc);
    archives.push(first).expect(rt, "memory");
    archives.push(second).expect(rt, "memory");
    let join = joined(archives.as_slice(), book);
    let one_alone = joined(&archives[..1], book) || joined(&archives[1..], book);
    let none = joined(&archives[..0], book);
    archives.swap(0, 1);
    let turned = joined(archives.as_slice(), book);
    join && !one_alone && !none && !turned
}

#[test]
fn archives_join_in_their_order(rt: HostRuntime) {
    assert!(rt; is_shown(&rt, rt.alloc(), Shown::Archives));
}
