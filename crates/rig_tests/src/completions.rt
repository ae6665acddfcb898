//! Completions of a release before a new start, and of another host's job: one that differs, and one that is the same as the host's own.

use crate::fixtures::{ADDER, ALPHA, BETA, load, new_host, release};
use host_core::hosts::{Counted, Host};
use rig_model::config::TenantId;
use rig_model::lines::commands::Command;
use rig_model::lines::replies::{Reply, print_reply};
use std::alloc::Global;
use std::process::Abort;
use tenant_jobs::jobs::{Job, run_job};

// The reply to the tenant's command.
fn told(rt: &impl Abort, host: &mut Host, tenant: TenantId, command: Command) -> Reply {
    assert!(rt; tenant < host.config().tenants().len());
    host.command(tenant, command)
}

// Has the tenant load and start this program.
fn run(rt: &impl Abort, alloc: Global, host: &mut Host, tenant: TenantId, program: &str) {
    drop(told(rt, host, tenant, load(rt, alloc, program)));
    drop(told(rt, host, tenant, Command::Start));
}

// The first job that an instant with this reading releases. It is the tenant's job of T at this tick.
fn released(rt: &impl Abort, host: &mut Host, tenant: TenantId, tick: u64, reading: i64) -> Job {
    let mut jobs = host.tick(&[reading]).expect(rt, "an instant");
    let job = jobs.take().expect(rt, "a release");
    drop(jobs);
    assert!(rt; *job.id() == release(rt, tenant, tick));
    job
}

// Whether the job's completion is counted in this way, and this number of jobs is outstanding after it.
fn becomes(host: &mut Host, job: Job, counted: Counted, outstanding: usize) -> bool {
    let became = host.done(run_job(job));
    became == counted && host.outstanding() == outstanding
}

// A job of a tenant that runs alone on a host, released with this reading.
fn job_of(rt: &impl Abort, alloc: Global, tenant: TenantId, reading: i64) -> Job {
    let mut host = new_host(rt, alloc, 0);
    run(rt, alloc, &mut host, tenant, ADDER);
    let job = released(rt, &mut host, tenant, 0, reading);
    drop(host);
    job
}

// Whether the reply to alpha's command is this text.
fn is_answered(
    rt: &impl Abort,
    alloc: Global,
    host: &mut Host,
    command: Command,
    text: &str,
) -> bool {
    let reply = told(rt, host, ALPHA, command);
    let printed = print_reply(alloc, &reply).expect(rt, "memory");
    drop(reply);
    printed.as_str() == text
}

// Whether alpha's mode, ports and records are those after a first instant with the reading 5.
fn is_behind_its_first_instant(rt: &impl Abort, alloc: Global, host: &mut Host) -> bool {
    is_answered(rt, alloc, host, Command::ShowMode, "ok mode running m 1")
        && is_answered(
            rt,
            alloc,
            host,
            Command::ShowAll,
            "ok all s=5 a=0 o=0 T.i=5",
        )
        && is_answered(
            rt,
            alloc,
            host,
            Command::Trace,
            "ok trace 0:start:m 0:act:a:0",
        )
}

#[test]
fn completion_before_a_new_start_is_late(rt: HostRuntime) {
    let mut host = new_host(&rt, rt.alloc(), 0);
    run(&rt, rt.alloc(), &mut host, ALPHA, ADDER);
    let first = released(&rt, &mut host, ALPHA, 0, 5);
    drop(told(&rt, &mut host, ALPHA, Command::Stop));
    drop(told(&rt, &mut host, ALPHA, Command::Start));
    let second = released(&rt, &mut host, ALPHA, 1, 5);
    assert!(rt; becomes(&mut host, first, Counted::Late, 1));
    assert!(rt; becomes(&mut host, second, Counted::Counted, 0));
    drop(host);
}

// Alpha's own job stays outstanding.
#[test]
fn completion_of_another_hosts_job_counts(rt: HostRuntime) {
    let mut host = new_host(&rt, rt.alloc(), 0);
    run(&rt, rt.alloc(), &mut host, ALPHA, ADDER);
    run(&rt, rt.alloc(), &mut host, BETA, ADDER);
    drop(released(&rt, &mut host, ALPHA, 0, 5));
    let job = job_of(&rt, rt.alloc(), BETA, 5);
    assert!(rt; becomes(&mut host, job, Counted::Counted, 1));
    drop(host);
}

// The other host's job has the id of alpha's own. It changes nothing. Alpha's own counts, and two more instants give the sum.
#[test]
fn completion_of_another_hosts_job_with_other_inputs_is_late(rt: HostRuntime) {
    let alloc = rt.alloc();
    let mut host = new_host(&rt, alloc, 0);
    run(&rt, alloc, &mut host, ALPHA, ADDER);
    let foreign = job_of(&rt, alloc, ALPHA, 6);
    let own = released(&rt, &mut host, ALPHA, 0, 5);
    assert!(rt; becomes(&mut host, foreign, Counted::Late, 1));
    assert!(rt; is_behind_its_first_instant(&rt, alloc, &mut host));
    assert!(rt; becomes(&mut host, own, Counted::Counted, 0));
    host.instant(&[7]).expect(&rt, "an instant");
    host.instant(&[9]).expect(&rt, "an instant");
    let sum = "ok all s=9 a=6 o=6 T.i=9";
    assert!(rt; is_answered(&rt, alloc, &mut host, Command::ShowAll, sum));
    drop(host);
}
