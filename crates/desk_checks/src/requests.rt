//! Steps at a desk, each taken once more if memory is refused. `scripts/check-memory` refuses each request for memory in turn.

ghost use Rattle.std.specs.Prelude.{◌≡◌};

use crate::calls::number_of;
use crate::voices::lay_all;
use host_core::hosts::{Counted, TickFault};
use locked_book::archives::{Archive, joined};
use locked_book::desks::Desk;
use locked_book::faults::{CloseFault, DeskFault, PassFault};
use locked_book::histories::NewHistory;
use locked_book::naming::Naming;
use locked_book::passes::Pass;
use rig_model::config::{Config, TenantId, built_in};
use rig_model::lines::command_lines::{LineFault, command_of};
use rig_model::lines::commands::Command;
use rig_model::lines::replies::{Reply, print_reply};
use std::alloc::{AllocError, Global};
use std::marker::Brand;
use std::sync::Wait;
use tenant_jobs::jobs::{Job, run_job};

/// The first tenant of the built-in configuration.
pub(crate) const ALPHA: TenantId = 0;

/// The second one.
pub(crate) const BETA: TenantId = 1;

// A place without a tenant in the built-in configuration.
const NOBODY: TenantId = 2;

/// A step, and its expected result.
#[derive(Clone, Copy)]
pub(crate) enum Step {
    /// One more pass.
    Pass,
    /// A line of a tenant, on the pass at that tenant's place, and its printed reply.
    Call(TenantId, &'static str, &'static str),
    /// An instant with this reading, and the number of jobs that it releases.
    Tick(i64, usize),
    /// The completion of the oldest job.
    Done,
    /// The same, if its task is no longer active.
    Late,
    /// The value of the one line.
    Lines(i64),
    /// An archive with this number of entries.
    Archive(usize),
}

/// The steps, in their order.
pub(crate) const STEPS: [Step; 26] = [
    Step::Pass,
    Step::Pass,
    Step::Call(
        ALPHA,
        "load sensor s := 0 line 0; actuator a := 0 line 0; output o := 0; task T(i) output o { o := i + 1; } mode m period 2 { actfreq 1 do a := o; taskfreq 1 do T(s); } start m;",
        "ok load",
    ),
    Step::Call(
        BETA,
        "load sensor g := -1 grant; mode n period 1 { } start n;",
        "ok load",
    ),
    Step::Call(ALPHA, "load start", "err syntax 5"),
    Step::Call(ALPHA, "offer a to beta", "ok offer"),
    Step::Call(BETA, "bind g from alpha.a", "ok bind"),
    Step::Call(ALPHA, "start", "ok start"),
    Step::Call(BETA, "start", "ok start"),
    Step::Tick(5, 1),
    Step::Lines(0),
    Step::Archive(8),
    Step::Done,
    Step::Tick(6, 0),
    Step::Tick(7, 1),
    Step::Lines(6),
    Step::Call(ALPHA, "show all", "ok all s=7 a=6 o=6 T.i=7"),
    Step::Call(ALPHA, "show port a", "ok port a 6"),
    Step::Call(
        ALPHA,
        "trace",
        "ok trace 0:start:m 0:act:a:0 2:out:o:6 2:act:a:6",
    ),
    Step::Call(BETA, "rows", "ok rows bind:g:alpha:a"),
    Step::Call(
        ALPHA,
        "replace actuator a := 4 line 0; mode k period 1 { } start k;",
        "ok replace",
    ),
    Step::Archive(8),
    Step::Call(BETA, "show port g", "ok port g 6"),
    Step::Call(ALPHA, "stop", "ok stop"),
    Step::Late,
    Step::Pass,
];

/// Takes the first `times` steps at a desk of the built-in configuration, and then its close without and with their passes.
///
/// Returns how many gave their expected result, and lost nothing if they were refused; -1 if there is no memory for the desk.
pub(crate) fn taken<R: Wait>(rt: &R, alloc: Global, times: u64) -> anyhow::Result<i64> {
    let config = built_in(alloc)?;
    let taken = at_desk::<Brand, _>(rt, alloc, &config, NewHistory::new(), times);
    Ok(number_of(taken))
}

/// What the steps work with: the passes, the archives, the jobs that no step has completed, and the expected number of entries.
#[derive(Drop)]
pub(crate) struct Scene<N: Naming> {
    pub(crate) alloc: Global,
    pub(crate) passes: Vec<Pass<N>>,
    pub(crate) archives: Vec<Archive<N>>,
    pub(crate) jobs: Vec<Job>,
    pub(crate) entries: u128,
    // A pass of another desk.
    foreign: Vec<Pass<N>>,
}

fn at_desk<N: Naming, R: Wait>(
    rt: &R,
    alloc: Global,
    config: &Config,
    history: NewHistory,
    times: u64,
) -> Option<u64>
    requires config { config.now ≡ N.config }
    requires first_tick { 0 ≡ N.first_tick }
    requires history { history ≡ N.history }
{
    let desk = Desk::<N>::with_history(alloc, config, 0, history).ok()?;
    let mut scene = new_scene(rt, alloc, config)?;
    let taken = taken_at(rt, &desk, &mut scene, times);
    Some(taken.wrapping_add(taken_at_last(desk, scene, times)))
}

/// A scene without passes, archives and jobs; `None` if there is no memory.
pub(crate) fn new_scene<N: Naming>(
    rt: &impl Wait,
    alloc: Global,
    config: &Config,
) -> Option<Scene<N>>
    requires config { config.now ≡ N.config }
    requires first_tick { 0 ≡ N.first_tick }
{
    let foreign = foreign_pass(rt, alloc, config)?;
    let passes = Vec::with_capacity(alloc, 4).ok()?;
    let archives = Vec::with_capacity(alloc, 4).ok()?;
    let jobs = Vec::with_capacity(alloc, 4).ok()?;
    Some(Scene {
        alloc,
        passes,
        archives,
        jobs,
        entries: 0,
        foreign,
    })
}

// A pass of another desk.
fn foreign_pass<N: Naming>(rt: &impl Wait, alloc: Global, config: &Config) -> Option<Vec<Pass<N>>>
    requires config { config.now ≡ N.config }
    requires first_tick { 0 ≡ N.first_tick }
{
    let mut foreign = Vec::with_capacity(alloc, 1).ok()?;
    let desk = Desk::<N>::new(alloc, config, 0).ok()?;
    foreign.push(desk.pass(rt).ok()?).ok()?;
    Some(foreign)
}

// The number of the first steps that gave their expected result.
fn taken_at<N: Naming>(rt: &impl Wait, desk: &Desk<N>, scene: &mut Scene<N>, times: u64) -> u64 {
    let mut taken = 0u64;
    for (step, _time) in STEPS.iter().zip(0..times) {
        if is_taken(rt, desk, scene, step) {
            taken = taken.wrapping_add(1);
        }
    }
    taken
}

// 1 if the desk is to be closed after the steps, and closes, else 0.
fn taken_at_last<N: Naming>(desk: Desk<N>, scene: Scene<N>, times: u64) -> u64 {
    if times <= STEPS.len() as u64 {
        return 0;
    }
    u64::from(is_closed(desk, scene))
}

// How often a step is tried. At most one request for memory is refused, and the step is tried again then.
const TRIES: u32 = 2;

// Whether the step has its expected result. It is tried again if memory was refused and the desk has as many entries as before.
fn is_taken<N: Naming>(rt: &impl Wait, desk: &Desk<N>, scene: &mut Scene<N>, step: &Step) -> bool {
    for _try in 0..TRIES {
        match take(rt, desk, scene, step) {
            Outcome::Right => return true,
            Outcome::Lost => return false,
            Outcome::Refused => {
                if !is_as_before(rt, desk, scene) {
                    return false;
                }
            }
        }
    }
    false
}

// Whether the desk has the expected number of entries.
fn is_as_before<N: Naming>(rt: &impl Wait, desk: &Desk<N>, scene: &mut Scene<N>) -> bool {
    scene.passes.is_empty() || length(rt, desk, scene) == Some(scene.entries)
}

/// The number of the desk's entries; `None` if there is no pass to ask with.
pub(crate) fn length<N: Naming>(
    rt: &impl Wait,
    desk: &Desk<N>,
    scene: &mut Scene<N>,
) -> Option<u128> {
    let pass = scene.passes.first_mut()?;
    match desk.call(rt, pass, NOBODY, Command::ShowMode) {
        Err(DeskFault::Strange(length)) => Some(length),
        _ => None,
    }
}

/// The outcome of a step: the expected result, a refusal without memory that left the pass unchanged, or anything else.
#[derive(Clone, Copy)]
pub(crate) enum Outcome {
    Right,
    Refused,
    Lost,
}

fn outcome_of(is_right: bool) -> Outcome {
    if is_right {
        Outcome::Right
    } else {
        Outcome::Lost
    }
}

/// Takes a step once, and returns its outcome.
pub(crate) fn take<N: Naming>(
    rt: &impl Wait,
    desk: &Desk<N>,
    scene: &mut Scene<N>,
    step: &Step,
) -> Outcome {
    match step {
        Step::Pass => add_pass(rt, desk, scene),
        Step::Call(tenant, line, reply) => call(rt, desk, scene, *tenant, line, reply),
        Step::Tick(reading, jobs) => tick(rt, desk, scene, *reading, *jobs),
        Step::Done => outcome_of(is_counted(rt, desk, scene)),
        Step::Late => outcome_of(is_late(rt, desk, scene)),
        Step::Lines(value) => read_lines(rt, desk, *value),
        Step::Archive(entries) => archive(rt, desk, scene, *entries),
    }
}

// Takes one more pass, and expects the next seat without calls.
fn add_pass<N: Naming>(rt: &impl Wait, desk: &Desk<N>, scene: &mut Scene<N>) -> Outcome {
    match desk.pass(rt) {
        Ok(pass) => {
            let is_next = pass.seat() == scene.passes.len() && pass.calls().is_empty();
            outcome_of(scene.passes.push(pass).is_ok() && is_next)
        }
        Err(PassFault::Memory) => Outcome::Refused,
        Err(PassFault::SeatsEnded) => Outcome::Lost,
    }
}

// Gives a line, and expects this reply.
fn call<N: Naming>(
    rt: &impl Wait,
    desk: &Desk<N>,
    scene: &mut Scene<N>,
    tenant: TenantId,
    line: &str,
    reply: &str,
) -> Outcome {
    let alloc = scene.alloc;
    let Some(pass) = scene.passes.get_mut(tenant) else {
        return Outcome::Lost;
    };
    let Some(command) = command_at_last(alloc, line) else {
        return Outcome::Lost;
    };
    match answer_of(rt, desk, pass, tenant, command) {
        Ok(given) => {
            scene.entries = scene.entries.wrapping_add(1);
            judged(alloc, &given, reply)
        }
        Err(outcome) => outcome,
    }
}

// The command of a line.
fn command_at_last(alloc: Global, line: &str) -> Option<Command> {
    for _try in 0..TRIES {
        match command_of(alloc, line) {
            Ok(command) => return Some(command),
            Err(LineFault::Memory) => {}
            Err(LineFault::BadCommand) => return None,
        }
    }
    None
}

// The reply to a call of this pass, or its outcome if it was refused.
fn answer_of<N: Naming>(
    rt: &impl Wait,
    desk: &Desk<N>,
    pass: &mut Pass<N>,
    tenant: TenantId,
    command: Command,
) -> Result<Reply, Outcome> {
    let calls = pass.calls().len();
    match desk.call(rt, pass, tenant, command) {
        Ok(reply) => Ok(reply),
        Err(fault) => {
            if fault == DeskFault::Memory && pass.calls().len() == calls {
                Err(Outcome::Refused)
            } else {
                Err(Outcome::Lost)
            }
        }
    }
}

// The outcome of a call with this reply.
fn judged(alloc: Global, given: &Reply, reply: &str) -> Outcome {
    for _try in 0..TRIES {
        if let Ok(text) = print_reply(alloc, given) {
            return outcome_of(text.as_str() == reply);
        }
    }
    Outcome::Lost
}

// Runs an instant, and expects it after all entries, with this number of jobs.
fn tick<N: Naming>(
    rt: &impl Wait,
    desk: &Desk<N>,
    scene: &mut Scene<N>,
    reading: i64,
    number: usize,
) -> Outcome {
    match desk.tick(rt, &[reading]) {
        Ok((mut jobs, place)) => {
            let is_right = place == scene.entries && jobs.len() == number;
            scene.entries = scene.entries.wrapping_add(1);
            outcome_of(lay_all(&mut scene.jobs, &mut jobs).is_ok() && is_right)
        }
        Err(TickFault::Memory) => Outcome::Refused,
        Err(_) => Outcome::Lost,
    }
}

// Whether the completion of the oldest job counts, after all entries, and nothing is outstanding then.
fn is_counted<N: Naming>(rt: &impl Wait, desk: &Desk<N>, scene: &mut Scene<N>) -> bool {
    if scene.jobs.is_empty() {
        return false;
    }
    let job = scene.jobs.swap_remove(0);
    let (counted, place) = desk.done(rt, run_job(job));
    desk.settle(rt);
    let is_right = counted == Counted::Counted && place == scene.entries;
    scene.entries = scene.entries.wrapping_add(1);
    is_right
}

// Whether the completion of the oldest job is late, and has no entry.
fn is_late<N: Naming>(rt: &impl Wait, desk: &Desk<N>, scene: &mut Scene<N>) -> bool {
    if scene.jobs.is_empty() {
        return false;
    }
    let job = scene.jobs.swap_remove(0);
    let (counted, place) = desk.done(rt, run_job(job));
    desk.settle(rt);
    counted == Counted::Late && place == 0 && is_as_before(rt, desk, scene)
}

// Reads the one line, and expects this value.
fn read_lines<N: Naming>(rt: &impl Wait, desk: &Desk<N>, value: i64) -> Outcome {
    match desk.lines(rt) {
        Ok(values) => outcome_of(matches!(values.as_slice(), [line] if *line == value)),
        Err(AllocError) => Outcome::Refused,
    }
}

// Archives, and expects this number of entries.
fn archive<N: Naming>(
    rt: &impl Wait,
    desk: &Desk<N>,
    scene: &mut Scene<N>,
    entries: usize,
) -> Outcome {
    match desk.archive(rt) {
        Ok(archive) => {
            let is_right = archive.log().len() == entries;
            outcome_of(scene.archives.push(archive).is_ok() && is_right)
        }
        Err(AllocError) => Outcome::Refused,
    }
}

// Whether the desk is handed back if it is closed without passes or with another desk's, and closes with all passes and all entries. The
// archives have to join with its book.
fn is_closed<N: Naming>(desk: Desk<N>, scene: Scene<N>) -> bool {
    let Scene {
        alloc,
        passes,
        archives,
        jobs: _,
        entries,
        foreign,
    } = scene;
    let Some(desk) = stays_open(desk, Vec::new(alloc), CloseFault::Missing(0)) else {
        return false;
    };
    let Some(desk) = stays_open(desk, foreign, CloseFault::Mismatch(0)) else {
        return false;
    };
    match desk.close(passes) {
        Ok(book) => book.length() == entries && joined(&archives, &book),
        Err(_) => false,
    }
}

// The desk, if it can't be closed with these passes for this reason.
fn stays_open<N: Naming>(
    desk: Desk<N>,
    passes: Vec<Pass<N>>,
    reason: CloseFault,
) -> Option<Desk<N>> {
    match desk.close(passes) {
        Err((fault, desk, _)) => { if fault == reason { Some(desk) } else { None } }
        Ok(_) => None,
    }
}
