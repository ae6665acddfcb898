//! The calls of rig_sessions that need no desk. `scripts/check-refusals` refuses the requests of `talk`.

use crate::fixtures::rig;
use crate::memory::{with_refusals, without_memory};
use rig_model::lines::commands::Command;
use rig_sessions::replies::OwnReply;
use rig_sessions::sessions::{Session, Step};
use std::alloc::Global;
use std::process::Abort;

// The step of a session at a line.
fn step(rt: &impl Abort, alloc: Global, session: &mut Session<'_>, line: &str) -> Step {
    let taken =
        with_refusals!(alloc, session.line(alloc, line), Err(_) => session.line(alloc, line));
    taken.expect(rt, "memory")
}

// The reply that a session gives without a call, if it gives one.
fn said(rt: &impl Abort, alloc: Global, session: &mut Session<'_>, line: &str) -> Option<OwnReply> {
    match step(rt, alloc, session, line) {
        Step::Say(reply) => Some(reply),
        _ => None,
    }
}

// Whether a line is alpha's load of this text.
fn loads(
    rt: &impl Abort,
    alloc: Global,
    session: &mut Session<'_>,
    line: &str,
    text: &str,
) -> bool {
    match step(rt, alloc, session, line) {
        Step::Call(0, Command::Load(own)) => own.as_str() == text,
        _ => false,
    }
}

#[test]
fn session_reads_lines(rt: HostRuntime) {
    let alloc = rt.alloc();
    let config = rig(&rt, alloc);
    let mut session = without_memory!(alloc, Session::new(&config));
    assert!(rt; said(&rt, alloc, &mut session, "show mode") == Some(OwnReply::NotGreeted));
    assert!(rt; said(&rt, alloc, &mut session, "hello alpha no") == Some(OwnReply::Who));
    assert!(rt; said(&rt, alloc, &mut session, "hello alpha ka") == Some(OwnReply::Hello));
    assert!(rt; said(&rt, alloc, &mut session, "hello alpha ka") == Some(OwnReply::Greeted));
    assert!(rt; matches!(step(&rt, alloc, &mut session, ""), Step::Quiet));
    assert!(rt; loads(&rt, alloc, &mut session, "load start m;", "start m;"));
    assert!(rt; matches!(step(&rt, alloc, &mut session, "quit"), Step::End));
    drop(config);
}
