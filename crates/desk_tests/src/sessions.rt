//! Sessions: the replies to a client, the desk that takes its calls, and two suppliers and the rig's instants in one history.

use crate::desks::{both, entries, new_pass};
use crate::fixtures::OneByOne;
use crate::shown::{Shown, is_shown};
use host_core::hosts::Counted;
use locked_book::desks::Desk;
use locked_book::faults::DeskFault;
use locked_book::naming::Naming;
use locked_book::passes::Pass;
use rig_model::config::{Config, TenantId};
use rig_model::lines::commands::Command;
use rig_model::lines::replies::{Reply, Status};
use rig_sessions::calls::Calls;
use rig_sessions::faults::TalkFault;
use rig_sessions::talking::talk;
use std::alloc::Global;
use std::process::Abort;
use std::sync::Wait;
use std::thread::Threads;
use std::time::Clock;
use tenant_jobs::jobs::run_job;

// Alpha's lines: it loads a program that reads a sensor, adds 1 and drives an actuator with the sum, grants the actuator, and starts.
pub(crate) const ALPHAS: &[u8] =
    b"hello alpha ka\nload sensor s := 0 line 0; actuator a := 0; output o := 0; task T(i) output o { o := i + 1; } mode m period 2 { actfreq 1 do a := o; taskfreq 1 do T(s); } start m;\noffer a to beta\nstart\n";

// Beta's lines: it loads a program whose sensor takes the granted value, and starts.
pub(crate) const BETAS: &[u8] =
    b"hello beta kb\nload sensor g := -1 grant; mode n period 1 { } start n;\nbind g from alpha.a\nstart\n";

pub(crate) const ALPHAS_REPLIES: &[u8] = b"ok hello\nok load\nok offer\nok start\n";

pub(crate) const BETAS_REPLIES: &[u8] = b"ok hello\nok load\nok bind\nok start\n";

// Beta's lines in a third session.
pub(crate) const THIRDS: &[u8] = b"hello beta kb\nshow port g\n";

pub(crate) const THIRDS_REPLIES: &[u8] = b"ok hello\nok port g 6\n";

// What a test shows of sessions.
#[derive(Clone, Copy)]
pub(crate) enum Session<'a> {
    // The reply to these bytes is the second text, with this number of calls.
    Said(&'a [u8], &'a [u8], usize),
    Refused(DeskFault),
    FailedRead,
}

pub(crate) fn talks<N: Naming, R: Wait + Abort>(
    rt: &R,
    alloc: Global,
    config: &Config,
    desk: Desk<N>,
    session: Session<'_>,
) -> bool {
    let is_so = match session {
        Session::Said(text, expected, calls) => {
            is_said_at(rt, alloc, config, &desk, text, expected, calls)
        }
        Session::Refused(why) => is_refused(rt, alloc, config, &desk, why),
        Session::FailedRead => ends_at_failed_read(rt, alloc, config, &desk),
    };
    drop(desk);
    is_so
}

// Whether the reply to these bytes is `expected`, with this number of calls.
fn is_said_at<N: Naming, R: Wait + Abort>(
    rt: &R,
    alloc: Global,
    config: &Config,
    desk: &Desk<N>,
    text: &[u8],
    expected: &[u8],
    calls: usize,
) -> bool {
    let pass = talked(rt, alloc, config, desk, text, expected);
    let made = pass.calls().len();
    drop(pass);
    made == calls
}

// The pass after a session on a new pass, in which the reply to these bytes is `expected`.
pub(crate) fn talked<N: Naming, R: Wait + Abort>(
    rt: &R,
    alloc: Global,
    config: &Config,
    desk: &Desk<N>,
    text: &[u8],
    expected: &[u8],
) -> Pass<N> {
    talked_on(rt, alloc, config, desk, new_pass(rt, desk), text, expected)
}

// The pass after a session on this pass, in which the reply to these bytes is `expected`.
pub(crate) fn talked_on<N: Naming, D: Calls<N>, R: Wait + Abort>(
    rt: &R,
    alloc: Global,
    config: &Config,
    desk: &D,
    pass: Pass<N>,
    text: &[u8],
    expected: &[u8],
) -> Pass<N> {
    let mut reader = text;
    let mut written = Vec::new(alloc);
    let (pass, ends) = talk(rt, alloc, config, desk, pass, &mut reader, &mut written);
    ends.expect(rt, "a session to its end");
    assert!(rt; written.as_slice() == expected);
    pass
}

fn line_of(rt: &impl Abort, alloc: Global, bytes: u32) -> Vec<u8> {
    let mut text = Vec::new(alloc);
    for _byte in 0..bytes {
        text.push(b'x').expect(rt, "memory");
    }
    text
}

// Answers one call of a pass, and then refuses.
#[derive(Drop)]
struct Once {
    refusal: DeskFault,
}

impl<N: Naming> Calls<N> for Once {
    fn call<R: Wait>(
        &self,
        _rt: &R,
        pass: &mut Pass<N>,
        tenant: TenantId,
        command: Command,
    ) -> Result<Reply, DeskFault> {
        if !pass.calls().is_empty() {
            return Err(self.refusal);
        }
        match pass.note(tenant, command, Reply::Mode(Status::Empty)) {
            Ok(()) => Ok(Reply::Mode(Status::Empty)),
            Err(_) => Err(DeskFault::Memory),
        }
    }
}

// A refused call ends the session, whose last line says why.
fn is_refused<N: Naming, R: Wait + Abort>(
    rt: &R,
    alloc: Global,
    config: &Config,
    desk: &Desk<N>,
    refusal: DeskFault,
) -> bool {
    let mut reader = b"hello alpha ka\nshow mode\nshow mode\nrows\n".as_slice();
    let mut written = Vec::new(alloc);
    let once = Once { refusal };
    let pass = new_pass(rt, desk);
    let (pass, ends) = talk(rt, alloc, config, &once, pass, &mut reader, &mut written);
    let said = match refusal {
        DeskFault::PassFull => b"ok hello\nok mode empty\nbye pass-full\n".as_slice(),
        _ => b"ok hello\nok mode empty\nbye strange\n".as_slice(),
    };
    let calls = pass.calls().len();
    drop(pass);
    ends == Err(TalkFault::Desk(refusal)) && written.as_slice() == said && calls == 1
}

// Lines may come byte by byte; those before a failing read are answered, and no more.
fn ends_at_failed_read<N: Naming, R: Wait + Abort>(
    rt: &R,
    alloc: Global,
    config: &Config,
    desk: &Desk<N>,
) -> bool {
    let mut reader = OneByOne {
        left: b"hello alpha ka\r\nshow mode\nshow mo".as_slice(),
        ends: false,
    };
    let mut written = Vec::new(alloc);
    let pass = new_pass(rt, desk);
    let (pass, ends) = talk(rt, alloc, config, desk, pass, &mut reader, &mut written);
    let calls = pass.calls().len();
    drop(pass);
    let said = b"ok hello\nok mode empty\n".as_slice();
    ends == Err(TalkFault::Read) && written.as_slice() == said && calls == 1
}

// Two suppliers, three instants, and a third session that asks for the result: all of it is in one history.
pub(crate) fn stand_in_one_history<N: Naming, R: Wait + Abort>(
    rt: &R,
    alloc: Global,
    config: &Config,
    desk: Desk<N>,
) -> bool {
    let alphas = talked(rt, alloc, config, &desk, ALPHAS, ALPHAS_REPLIES);
    let betas = talked(rt, alloc, config, &desk, BETAS, BETAS_REPLIES);
    let releases = work_at(rt, &desk, 5) && !work_at(rt, &desk, 7) && work_at(rt, &desk, 9);
    let third = talked(rt, alloc, config, &desk, THIRDS, THIRDS_REPLIES);
    let mut passes = both(rt, alloc, alphas, betas);
    passes.push(third).expect(rt, "memory");
    let entries = entries(rt, desk, passes);
    releases && entries == 12
}

// Whether an instant with this reading releases a job. There is at most one; it is completed, and counts.
fn work_at<N: Naming>(rt: &(impl Wait + Abort), desk: &Desk<N>, reading: i64) -> bool {
    let (mut jobs, _place) = desk.tick(rt, &[reading]).expect(rt, "an instant");
    let releases = match jobs.take() {
        Some(job) => {
            assert!(rt; desk.done(rt, run_job(job)).0 == Counted::Counted);
            true
        }
        None => false,
    };
    assert!(rt; jobs.len() == 0);
    desk.settle(rt);
    releases
}

// Whether the reply to these bytes is `expected` in a session, which makes this number of calls.
fn is_said<R: Threads + Wait + Clock + Abort + Sync>(
    rt: &R,
    alloc: Global,
    text: &[u8],
    expected: &[u8],
    calls: usize,
) -> bool {
    is_shown(
        rt,
        alloc,
        Shown::Session(Session::Said(text, expected, calls)),
    )
}

// A client that hasn't greeted makes no call. An unknown tenant and a wrong key get the same reply. A blank line has no reply, and the
// last line needs no LF.
#[test]
fn session_greets_before_it_calls(rt: HostRuntime) {
    let text =
        b"show mode\nhello alpha no\nhello nobody ka\nhello alpha ka\nhello alpha ka\n\nshow mode".as_slice();
    let expected =
        b"err not-greeted\nerr who\nerr who\nok hello\nerr greeted\nok mode empty\n".as_slice();
    assert!(rt; is_said(&rt, rt.alloc(), text, expected, 1));
}

// A byte that isn't UTF-8 ends a session.
#[test]
fn bad_line_ends_a_session(rt: HostRuntime) {
    let text = b"hello alpha ka\nshow \xff\nshow mode\n".as_slice();
    assert!(rt;
        is_said(
            &rt,
            rt.alloc(),
            text,
            b"ok hello\nbye bad-line\n".as_slice(),
            0
        )
    );
}

// 16,384 bytes are a line, and one more ends a session.
#[test]
fn long_line_ends_a_session(rt: HostRuntime) {
    let mut text = line_of(&rt, rt.alloc(), 16384);
    assert!(rt;
        is_said(
            &rt,
            rt.alloc(),
            text.as_slice(),
            b"err bad-command\n".as_slice(),
            0
        )
    );
    text.push(b'x').expect(&rt, "memory");
    assert!(rt;
        is_said(
            &rt,
            rt.alloc(),
            text.as_slice(),
            b"bye bad-line\n".as_slice(),
            0
        )
    );
}

#[test]
fn refused_call_ends_a_session(rt: HostRuntime) {
    assert!(rt;
        is_shown(
            &rt,
            rt.alloc(),
            Shown::Session(Session::Refused(DeskFault::PassFull))
        )
    );
    assert!(rt;
        is_shown(
            &rt,
            rt.alloc(),
            Shown::Session(Session::Refused(DeskFault::Strange(7)))
        )
    );
}

#[test]
fn lines_before_a_failed_read_are_answered(rt: HostRuntime) {
    assert!(rt; is_shown(&rt, rt.alloc(), Shown::Session(Session::FailedRead)));
}

#[test]
fn sessions_stand_in_one_history(rt: HostRuntime) {
    assert!(rt; is_shown(&rt, rt.alloc(), Shown::Sessions));
}
