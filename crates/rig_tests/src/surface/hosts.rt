//! The calls of host_core.

use crate::fixtures::{ADDER, ALPHA, BETA, FOUR, load, new_host, rig};
use crate::memory::{with_refusals, without_memory};
use crate::steps::{are_texts, events_of, granted_run};
use host_core::hosts::{Counted, Host, TickFault};
use host_core::plays::{PlayFault, play};
use host_core::trials::trial;
use rig_model::config::TenantId;
use rig_model::lines::command_lines::command_of;
use rig_model::lines::commands::Command;
use rig_model::lines::replies::{Refusal, Reply};
use std::alloc::Global;
use std::process::Abort;
use tenant_jobs::jobs::{Job, run_job};

// host_core

#[test]
fn host_is_made(rt: HostRuntime) {
    let config = rig(&rt, rt.alloc());
    let made = with_refusals!(rt.alloc(), Host::new(rt.alloc(), &config, 7),
        Err(_) => Host::new(rt.alloc(), &config, 7)
    );
    drop(config);
    let host = made.expect(&rt, "memory");
    assert!(rt; host.clock() == 7);
    drop(host);
}

// The reply to a tenant's command.
fn told(
    rt: &impl Abort,
    alloc: Global,
    host: &mut Host,
    tenant: TenantId,
    command: Command,
) -> Reply {
    let before = host.copy().expect(rt, "memory");
    let again = command.copy().expect(rt, "memory");
    assert!(rt; tenant < host.config().tenants().len());
    let reply = with_refusals!(alloc, host.command(tenant, command),
        Reply::Refused(Refusal::Memory) => {
            assert!(rt; host.is_same(&before));
            host.command(tenant, again)
        }
    );
    drop(before);
    reply
}

// The reply to alpha's command, which takes no memory.
fn told_without_memory(rt: &impl Abort, alloc: Global, host: &mut Host, command: Command) -> Reply {
    assert!(rt; ALPHA < host.config().tenants().len());
    without_memory!(alloc, host.command(ALPHA, command))
}

// Whether alpha has no such row as it takes back with this line.
fn has_no_row(rt: &impl Abort, alloc: Global, host: &mut Host, line: &str) -> bool {
    let command = command_of(alloc, line).ok().expect(rt, "a command");
    let reply = told_without_memory(rt, alloc, host, command);
    matches!(reply, Reply::Refused(Refusal::NotThere))
}

// The first job that an instant with this reading releases.
fn released(rt: &impl Abort, alloc: Global, host: &mut Host, reading: i64) -> Job {
    let before = host.copy().expect(rt, "memory");
    let ran = with_refusals!(alloc, host.tick(&[reading]),
        Err(TickFault::Memory) => {
            assert!(rt; host.is_same(&before));
            host.tick(&[reading])
        }
    );
    drop(before);
    let mut jobs = ran.expect(rt, "an instant");
    let job = jobs.take().expect(rt, "a release");
    drop(jobs);
    job
}

#[test]
fn host_takes_a_command_an_instant_and_a_completion(rt: HostRuntime) {
    let alloc = rt.alloc();
    let mut host = new_host(&rt, alloc, 0);
    let loaded = told(&rt, alloc, &mut host, ALPHA, load(&rt, alloc, ADDER));
    assert!(rt; matches!(loaded, Reply::Loaded));
    let started = told_without_memory(&rt, alloc, &mut host, Command::Start);
    assert!(rt; matches!(started, Reply::Started));
    let job = released(&rt, alloc, &mut host, 5);
    assert!(rt; without_memory!(alloc, host.outstanding()) == 1);
    let done = run_job(job);
    assert!(rt; without_memory!(alloc, host.done(done)) == Counted::Counted);
    assert!(rt; host.outstanding() == 0);
    assert!(rt; has_no_row(&rt, alloc, &mut host, "unoffer a to beta"));
    assert!(rt; has_no_row(&rt, alloc, &mut host, "unbind s"));
    let stopped = told_without_memory(&rt, alloc, &mut host, Command::Stop);
    assert!(rt; matches!(stopped, Reply::Stopped));
    drop(host);
}

#[test]
fn copy_of_a_host_keeps_its_lines(rt: HostRuntime) {
    let alloc = rt.alloc();
    let mut host = new_host(&rt, alloc, 0);
    assert!(rt; host.line_value(0) == 0);
    drop(told(&rt, alloc, &mut host, ALPHA, load(&rt, alloc, FOUR)));
    let copied = with_refusals!(alloc, host.copy(), Err(_) => host.copy());
    let copy = copied.expect(&rt, "memory");
    drop(told(&rt, alloc, &mut host, ALPHA, load(&rt, alloc, ADDER)));
    assert!(rt; host.line_value(0) == 0);
    drop(host);
    assert!(rt; without_memory!(alloc, copy.line_value(0)) == 4);
    drop(copy);
}

// The replies to a supplier and a consumer, who sees what is offered, and its initial value when it no longer is.
const ALPHAS: &str = "ok load\nok offer\nok start\nok unoffer\n";

const BETAS: &str = "ok load\nok bind\nok start\nok port g 6\nok port g -1\n";

#[test]
fn list_is_played(rt: HostRuntime) {
    let alloc = rt.alloc();
    let config = rig(&rt, alloc);
    let events = events_of(&rt, alloc, &granted_run());
    let played = with_refusals!(alloc, play(alloc, &config, &events),
        Err(PlayFault::Memory) => play(alloc, &config, &events)
    );
    drop(events);
    drop(config);
    let texts = played.expect(&rt, "a legal list");
    assert!(rt; are_texts(texts.as_slice(), ALPHAS, BETAS));
    drop(texts);
}

#[test]
fn trial_gives_both_answers(rt: HostRuntime) {
    let alloc = rt.alloc();
    let config = rig(&rt, alloc);
    let events = events_of(&rt, alloc, &granted_run());
    let tried = with_refusals!(alloc, trial(alloc, &config, &events, BETA),
        Err(PlayFault::Memory) => trial(alloc, &config, &events, BETA)
    );
    drop(events);
    drop(config);
    let (whole, kept) = tried.expect(&rt, "a legal list");
    assert!(rt; whole.as_str() == BETAS && kept.as_str() == BETAS);
    drop(whole);
    drop(kept);
}
