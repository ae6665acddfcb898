//! The calls of tenant_state and instant_engine.

ghost use Rattle.std.specs.Prelude.{◌≡◌, [], length};

use crate::fixtures::{ADDER, ALPHA, BETA, FOUR, load, name, release, rig};
use crate::memory::{with_refusals, without_memory};
use crate::surface::rigs::{alphas_rows, is_of_g, no_rows};
use arrayvec::ArrayVec;
use instant_engine::instants::instant;
use rig_model::grants::grants::Grants;
use rig_model::lines::replies::{Refusal, Reply};
use rig_model::lines::shared_texts::SharedText;
use std::alloc::Global;
use std::process::Abort;
use std::slice;
use tenant_state::tenants::Tenant;
use tenant_state::{
    Command, Done, Finished, Job, Jobs, LineFault, command_of, print_reply, run_job,
};

// Adds 1 to its granted value, at each tick.
const GRANTED_ADDER: &str =
    "sensor g := -1 grant; actuator a := 0; output o := 0; task T(i) output o { o := i + 1; } mode m period 1 { actfreq 1 do a := o; taskfreq 1 do T(g); } start m;";

// tenant_state

// The first tenant of the built-in configuration, with these rows and without a program.
fn tenant_with(rt: &impl Abort, alloc: Global, rows: Grants) -> Tenant
    ensures rest { result.ready.ended ≡ [] }
    ensures owner { result.tenancy.owner ≡ rows.owner }
{
    let config = rig(rt, alloc);
    let first = config.tenants().first().expect(rt, "a tenant");
    let budgets = first.budgets.copy(alloc).expect(rt, "memory");
    drop(config);
    Tenant::new(alloc, budgets, rows, 0).expect(rt, "memory")
}

// Whether this is the text of a reply. The tasks that the command ended are in no table.
fn is_reply(rt: &impl Abort, alloc: Global, tenant: &mut Tenant, reply: Reply, text: &str) -> bool
    ensures rest { tenant.new.ready.ended ≡ [] }
    ensures tenancy { tenant.new.tenancy ≡ tenant.old.tenancy }
{
    let printed = print_reply(alloc, &reply).expect(rt, "memory");
    drop(reply);
    tenant.leave(&mut Finished::new(alloc));
    printed.as_str() == text
}

// Whether this is the reply to a command.
fn answers_command(
    rt: &impl Abort,
    alloc: Global,
    tenant: &mut Tenant,
    command: Command,
    text: &str,
) -> bool
    requires { tenant.old.ready.ended ≡ [] }
    ensures rest { tenant.new.ready.ended ≡ [] }
    ensures tenancy { tenant.new.tenancy ≡ tenant.old.tenancy }
{
    let before = tenant.copy().expect(rt, "memory");
    let again = command.copy().expect(rt, "memory");
    let reply = with_refusals!(alloc, tenant.command(command),
        Reply::Refused(Refusal::Memory) => {
            assert!(rt; tenant.is_same(&before));
            tenant.command(again)
        }
    );
    drop(before);
    is_reply(rt, alloc, tenant, reply, text)
}

// Whether this is the reply to a command that takes no memory.
fn answers_without_memory(
    rt: &impl Abort,
    alloc: Global,
    tenant: &mut Tenant,
    line: &str,
    text: &str,
) -> bool
    requires { tenant.old.ready.ended ≡ [] }
    ensures rest { tenant.new.ready.ended ≡ [] }
    ensures tenancy { tenant.new.tenancy ≡ tenant.old.tenancy }
{
    let command = command_of(alloc, line).ok().expect(rt, "a command");
    let reply = without_memory!(alloc, tenant.command(command));
    is_reply(rt, alloc, tenant, reply, text)
}

// Whether this is the reply to a line.
fn answers_line(rt: &impl Abort, alloc: Global, tenant: &mut Tenant, line: &str, text: &str) -> bool
    requires { tenant.old.ready.ended ≡ [] }
    ensures rest { tenant.new.ready.ended ≡ [] }
    ensures tenancy { tenant.new.tenancy ≡ tenant.old.tenancy }
{
    let command = command_of(alloc, line).ok().expect(rt, "a command");
    answers_command(rt, alloc, tenant, command, text)
}

// Alpha: it runs the granted adder, offers a to beta, and binds g to beta's a.
fn running_alpha(rt: &impl Abort, alloc: Global) -> Tenant
    ensures { result.ready.ended ≡ [] }
{
    let mut alpha = tenant_with(rt, alloc, alphas_rows(rt, alloc));
    assert!(rt;
        answers_command(
            rt,
            alloc,
            &mut alpha,
            load(rt, alloc, GRANTED_ADDER),
            "ok load"
        )
    );
    assert!(rt; answers_line(rt, alloc, &mut alpha, "offer a to beta", "ok offer"));
    assert!(rt; answers_line(rt, alloc, &mut alpha, "bind g from beta.a", "ok bind"));
    assert!(rt; answers_without_memory(rt, alloc, &mut alpha, "start", "ok start"));
    alpha
}

// The job of the tenant's first instant, which grants 0 through its one bind.
fn first_job(rt: &impl Abort, alloc: Global, tenant: &mut Tenant) -> Job
    requires { tenant.old.ready.ended ≡ [] }
    ensures { tenant.new.ready.ended ≡ [] }
{
    assert!(rt; tenant.active() == 0);
    assert!(rt; tenant.next_tick() == 0);
    let mut finished = Finished::new(alloc);
    without_memory!(alloc, tenant.phase_one(&finished));
    tenant.leave(&mut finished);
    assert!(rt; tenant.next_tick() == 0);
    let most = tenant.ready().expect(rt, "memory");
    let mut jobs = Jobs::with_room(alloc, most).expect(rt, "memory");
    without_memory!(alloc, tenant.phase_two(&[0], &[Some(0)], &mut jobs));
    tenant.leave(&mut finished);
    drop(finished);
    let job = jobs.take().expect(rt, "a job");
    drop(jobs);
    job
}

// Whether alpha has its offer, its bind and its actuator, which drives no line.
fn has_its_rows(rt: &impl Abort, alpha: &Tenant) -> bool {
    let actuator = name(rt, "a");
    alpha.offers(&actuator, BETA)
        && alpha.bounds(&actuator, BETA) == Some((i64::MIN, i64::MAX))
        && is_of_g(alpha.bind_at(0))
        && alpha.actuator(&actuator) == Some(0)
        && alpha.line(0).is_none()
}

// Whether alpha awaits this completion, and its task is due at the next instant.
fn awaits_at_once(alpha: &Tenant, done: &Done) -> bool {
    alpha.awaits(done) && alpha.is_active(done.id()) && alpha.active() == 1 && alpha.due("T")
}

// Alpha's commands that ask, and one that waits for the next instant.
fn answers_questions(rt: &impl Abort, alloc: Global, alpha: &mut Tenant) -> bool
    requires { alpha.old.ready.ended ≡ [] }
{
    let replacement = SharedText::from_str(alloc, FOUR).expect(rt, "memory");
    answers_line(rt, alloc, alpha, "show all", "ok all g=0 a=0 o=0 T.i=0")
        && answers_line(rt, alloc, alpha, "show port g", "ok port g 0")
        && answers_line(rt, alloc, alpha, "trace", "ok trace 0:start:m 0:act:a:0")
        && answers_line(
            rt,
            alloc,
            alpha,
            "rows",
            "ok rows offer:a:beta bind:g:beta:a",
        )
        && answers_command(
            rt,
            alloc,
            alpha,
            Command::Replace(replacement),
            "ok replace",
        )
}

#[test]
fn tenant_takes_commands_and_an_instant(rt: HostRuntime) {
    let alloc = rt.alloc();
    let mut alpha = running_alpha(&rt, alloc);
    assert!(rt; without_memory!(alloc, has_its_rows(&rt, &alpha)));
    let job = first_job(&rt, alloc, &mut alpha);
    let done = without_memory!(alloc, run_job(job));
    assert!(rt; *done.id() == release(&rt, ALPHA, 0));
    assert!(rt; without_memory!(alloc, awaits_at_once(&alpha, &done)));
    drop(done);
    assert!(rt; answers_questions(&rt, alloc, &mut alpha));
    drop(alpha);
}

#[test]
fn tenant_takes_commands_without_memory(rt: HostRuntime) {
    let alloc = rt.alloc();
    let mut alpha = running_alpha(&rt, alloc);
    assert!(rt; answers_without_memory(&rt, alloc, &mut alpha, "stop", "ok stop"));
    assert!(rt;
        answers_without_memory(&rt, alloc, &mut alpha, "show mode", "ok mode stopped asked")
    );
    assert!(rt; answers_without_memory(&rt, alloc, &mut alpha, "unoffer a to beta", "ok unoffer"));
    assert!(rt; answers_without_memory(&rt, alloc, &mut alpha, "unbind g", "ok unbind"));
    assert!(rt; answers_without_memory(&rt, alloc, &mut alpha, "unbind g", "err not-there"));
    drop(alpha);
}

#[test]
fn tenant_is_made(rt: HostRuntime) {
    let alloc = rt.alloc();
    let config = rig(&rt, alloc);
    let first = config.tenants().first().expect(&rt, "a tenant");
    let budgets = first.budgets.copy(alloc).expect(&rt, "memory");
    let again = first.budgets.copy(alloc).expect(&rt, "memory");
    drop(config);
    let (rows, rows_again) = (alphas_rows(&rt, alloc), alphas_rows(&rt, alloc));
    let made = with_refusals!(alloc, Tenant::new(alloc, budgets, rows, 7),
        Err(_) => Tenant::new(alloc, again, rows_again, 7)
    );
    let alpha = made.expect(&rt, "memory");
    assert!(rt; alpha.next_tick() == 7);
    drop(alpha);
}

#[test]
fn tenant_is_made_ready(rt: HostRuntime) {
    let mut alpha = running_alpha(&rt, rt.alloc());
    let before = alpha.copy().expect(&rt, "memory");
    let most = with_refusals!(rt.alloc(), alpha.ready(), Err(_) => alpha.ready());
    assert!(rt; most == Ok(1));
    assert!(rt; alpha.is_same(&before));
    drop(before);
    drop(alpha);
}

#[test]
fn copy_of_a_tenant_has_its_rows(rt: HostRuntime) {
    let alpha = running_alpha(&rt, rt.alloc());
    let copied = with_refusals!(rt.alloc(), alpha.copy(), Err(_) => alpha.copy());
    drop(alpha);
    let copy = copied.expect(&rt, "memory");
    assert!(rt; has_its_rows(&rt, &copy));
    drop(copy);
}

#[test]
fn line_of_no_form_is_no_command(rt: HostRuntime) {
    let spelled = without_memory!(rt.alloc(), command_of(rt.alloc(), "fly"));
    assert!(rt; spelled.err() == Some(LineFault::BadCommand));
}

// instant_engine

// The completion of the job of alpha's first instant.
fn first_done(rt: &impl Abort, alloc: Global) -> Done {
    let mut alpha = running_alpha(rt, alloc);
    let job = first_job(rt, alloc, &mut alpha);
    drop(alpha);
    run_job(goes_through(rt, alloc, job))
}

// The job, after it was put into a list and taken out.
fn goes_through(rt: &impl Abort, alloc: Global, job: Job) -> Job {
    let made =
        with_refusals!(alloc, Jobs::with_room(alloc, 1), Err(_) => Jobs::with_room(alloc, 1));
    let mut jobs = made.expect(rt, "memory");
    without_memory!(alloc, jobs.put(job));
    assert!(rt; without_memory!(alloc, jobs.len()) == 1);
    let job = without_memory!(alloc, jobs.take()).expect(rt, "a job");
    assert!(rt; jobs.take().is_none());
    drop(jobs);
    job
}

// A table with this completion.
fn table_with(rt: &impl Abort, alloc: Global, done: Done) -> Finished {
    let mut finished = without_memory!(alloc, Finished::new(alloc));
    let made = with_refusals!(alloc, finished.room(1), Err(_) => finished.room(1));
    made.expect(rt, "memory");
    let _key = without_memory!(alloc, finished.enter_task(done.id().copy()));
    assert!(rt; !without_memory!(alloc, finished.has(&done)));
    assert!(rt; without_memory!(alloc, finished.len()) == 0);
    without_memory!(alloc, finished.add(done));
    finished
}

#[test]
fn completion_is_entered(rt: HostRuntime) {
    let finished = table_with(&rt, rt.alloc(), first_done(&rt, rt.alloc()));
    let again = first_done(&rt, rt.alloc());
    assert!(rt; finished.has(&again));
    drop(again);
    assert!(rt; finished.len() == 1);
    drop(finished);
}

#[test]
fn copy_of_a_table_has_its_completion(rt: HostRuntime) {
    let finished = table_with(&rt, rt.alloc(), first_done(&rt, rt.alloc()));
    let copied = with_refusals!(rt.alloc(), finished.copy(), Err(_) => finished.copy());
    drop(finished);
    let copy = copied.expect(&rt, "memory");
    let again = first_done(&rt, rt.alloc());
    assert!(rt; copy.has(&again));
    drop(again);
    drop(copy);
}

// The only tenant of its rig, which runs the adder.
fn lone_adder(rt: &impl Abort, alloc: Global) -> Tenant
    ensures rest { result.ready.ended ≡ [] }
    ensures place { result.tenancy.owner.place ≡ 0 }
    ensures roster { length result.tenancy.owner.roster ≡ 1 }
{
    let mut roster = ArrayVec::new();
    roster.push(name(rt, "alpha"));
    let mut alpha = tenant_with(rt, alloc, no_rows(rt, alloc, roster));
    assert!(rt; answers_command(rt, alloc, &mut alpha, load(rt, alloc, ADDER), "ok load"));
    assert!(rt; answers_line(rt, alloc, &mut alpha, "start", "ok start"));
    alpha
}

// The job of the first instant of a rig with one tenant, whose line has this value.
fn released(rt: &impl Abort, alloc: Global, tenant: &mut Tenant, reading: i64) -> Job
    requires rest { tenant.old.ready.ended ≡ [] }
    requires place { tenant.old.tenancy.owner.place ≡ 0 }
    requires roster { length tenant.old.tenancy.owner.roster ≡ 1 }
{
    let most = tenant.ready().expect(rt, "memory");
    assert!(rt; tenant.active() == 0);
    assert!(rt; tenant.bind_count() == 0);
    assert!(rt; tenant.next_tick() == 0);
    let mut finished = Finished::new(alloc);
    finished.room(most).expect(rt, "memory");
    let mut jobs = Jobs::with_room(alloc, most).expect(rt, "memory");
    let tenants = slice::from_mut(tenant);
    without_memory!(
        alloc,
        instant(tenants, &[reading], &mut finished, &mut jobs)
    );
    drop(finished);
    let job = jobs.take().expect(rt, "a job");
    drop(jobs);
    job
}

#[test]
fn instant_releases_a_job(rt: HostRuntime) {
    let mut alpha = lone_adder(&rt, rt.alloc());
    let job = released(&rt, rt.alloc(), &mut alpha, 5);
    assert!(rt; *job.id() == release(&rt, ALPHA, 0));
    assert!(rt; matches!(job.inputs().as_slice(), [5]));
    drop(job);
    drop(alpha);
}
