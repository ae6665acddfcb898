//! Threads at one desk, each with its own choices: calls, instants, completions and archives.

ghost use Rattle.std.specs.Prelude.{◌≡◌, ◌<◌};

use giotto_tasks::lists::List;
use host_core::hosts::Counted;
use locked_book::archives::Archive;
use locked_book::desks::Desk;
use locked_book::naming::Naming;
use locked_book::passes::Pass;
use rig_model::lines::command_lines::command_of;
use rig_model::lines::replies::print_reply;
use rig_model::logged::Logged;
use std::alloc::{AllocError, Global};
use std::sync::{Barrier, Mutex, Wait};
use tenant_jobs::jobs::{Job, Jobs, run_job};

/// The number of threads.
pub(crate) const THREADS: usize = 4;

// The number of tenants.
const TENANTS: u64 = 3;

// The number of rounds. All threads begin each round together.
const ROUNDS: u32 = 6;

// The most steps that a thread takes in a round.
const MOST: u64 = 4;

// The lines of the calls. The first program reads a sensor and takes two ticks.
const LINES: [&str; 24] = [
    "load sensor s := 0 line 0; actuator a := 0; output o := 0; task T(i) output o { o := i + 1; } mode m period 2 { actfreq 1 do a := o; taskfreq 1 do T(s); } start m;",
    "load sensor s := 0 line 1; actuator a := 0; output o := 0; task T(i) output o { o := i + 1; } mode m period 1 { actfreq 1 do a := o; taskfreq 1 do T(s); } start m;",
    "load sensor g := -1 grant; actuator a := 0; mode n period 1 { actfreq 1 do a := g; } start n;",
    "load actuator a := 4 line 0; mode k period 1 { } start k;",
    "load actuator a := 5 line 1; mode k period 1 { } start k;",
    "load start m;",
    "replace actuator a := 7; mode k period 1 { } start k;",
    "replace sensor s := 0 line 0; actuator a := 0; output o := 0; task T(i) output o { o := i * 2; } mode m period 2 { actfreq 2 do a := o; taskfreq 1 do T(s); } start m;",
    "start",
    "start",
    "start",
    "start",
    "start",
    "stop",
    "show mode",
    "show all",
    "show port a",
    "show port o",
    "trace",
    "offer a to beta",
    "offer a to gamma",
    "bind g from alpha.a",
    "bind g from beta.a",
    "rows",
];

/// What the threads share: the desk, the jobs that none of them has taken, the archives in their order, and the barrier at which the
/// threads wait for each other. For each ten other steps, they take `archive_share` archives.
#[derive(Drop)]
pub(crate) struct Table<'a, N: Naming> {
    pub(crate) alloc: Global,
    pub(crate) desk: &'a Desk<N>,
    pub(crate) jobs: Mutex<Vec<Job>>,
    pub(crate) archives: Mutex<Vec<Archive<N>>>,
    pub(crate) archive_share: u64,
    pub(crate) round: Barrier,
}

/// What a thread heard: the printed reply to each of its calls, and its instants and completions with their places.
#[derive(Drop)]
pub(crate) struct Heard {
    pub(crate) replies: Vec<String>,
    pub(crate) places: Vec<(u128, Logged)>,
}

/// A thread's choices, its pass, and what it heard.
#[derive(Drop)]
pub(crate) struct Voice<N: Naming> {
    random: Random,
    pass: Pass<N>,
    heard: Heard,
    is_refused: bool,
}

impl<N: Naming> Voice<N> {
    /// Creates a voice that has said nothing, whose choices begin with this seed.
    pub(crate) fn new(alloc: Global, seed: u64, pass: Pass<N>) -> Voice<N> {
        Voice {
            random: Random { state: seed },
            pass,
            heard: Heard {
                replies: Vec::new(alloc),
                places: Vec::new(alloc),
            },
            is_refused: false,
        }
    }

    /// Returns its pass and what it heard; `None` if something was refused.
    pub(crate) fn into_parts(self) -> Option<(Pass<N>, Heard)> {
        let Voice {
            random: _,
            pass,
            heard,
            is_refused,
        } = self;
        if is_refused {
            return None;
        }
        Some((pass, heard))
    }
}

/// Runs all rounds of a thread. It goes on if something was refused, so that the others don't wait for it.
pub(crate) fn speak<N: Naming>(rt: &impl Wait, table: &Table<'_, N>, voice: &mut Voice<N>) {
    for _round in 0..ROUNDS {
        let _ = table.round.wait(rt);
        for _step in 0..=voice.random.below(MOST) {
            if step(rt, table, voice).is_none() {
                voice.is_refused = true;
            }
        }
    }
}

// A call, an instant, a completion or an archive.
fn step<N: Naming>(rt: &impl Wait, table: &Table<'_, N>, voice: &mut Voice<N>) -> Option<()> {
    match voice.random.below(table.archive_share.saturating_add(10)) {
        0..=5 => call(rt, table, voice),
        6 | 7 => tick(rt, table, voice),
        8 | 9 => done(rt, table, voice),
        _ => archive(rt, table),
    }
}

// A line of any tenant.
fn call<N: Naming>(rt: &impl Wait, table: &Table<'_, N>, voice: &mut Voice<N>) -> Option<()> {
    let tenant = voice.random.below(TENANTS) as usize;
    let line = voice.random.below(LINES.len() as u64) as usize;
    let command = command_of(table.alloc, LINES.get(line)?).ok()?;
    let reply = table.desk.call(rt, &mut voice.pass, tenant, command).ok()?;
    let text = print_reply(table.alloc, &reply).ok()?;
    voice.heard.replies.push(text).ok()
}

// An instant. Its jobs are put on the table for all threads.
fn tick<N: Naming>(rt: &impl Wait, table: &Table<'_, N>, voice: &mut Voice<N>) -> Option<()> {
    let frame = [voice.random.below(9) as i64, voice.random.below(9) as i64];
    let (jobs, place) = table.desk.tick(rt, &frame).ok()?;
    lay(rt, table, jobs)?;
    let frame = Vec::from_slice(table.alloc, &frame).ok()?;
    let entry = Logged::Tick(List::from_vec(frame));
    voice.heard.places.push((place, entry)).ok()
}

// Puts these jobs with the others on the table.
fn lay<N: Naming>(rt: &impl Wait, table: &Table<'_, N>, mut jobs: Jobs) -> Option<()> {
    let mut guard = table.jobs.lock(rt);
    lay_all(&mut *guard, &mut jobs).ok()
}

/// Adds all of these jobs to the others, as far as memory allows.
pub(crate) fn lay_all(all: &mut Vec<Job>, jobs: &mut Jobs) -> Result<(), AllocError> {
    for _job in 0..jobs.len() {
        if let Some(job) = jobs.take() {
            all.push(job)?;
        }
    }
    Ok(())
}

// The completion of any job on the table.
fn done<N: Naming>(rt: &impl Wait, table: &Table<'_, N>, voice: &mut Voice<N>) -> Option<()> {
    let Some(job) = taken(rt, table, &mut voice.random) else {
        return Some(());
    };
    let id = job.id().copy();
    let (counted, place) = table.desk.done(rt, run_job(job));
    if counted == Counted::Late {
        return Some(());
    }
    voice.heard.places.push((place, Logged::Done(id))).ok()
}

// Any of the jobs on the table.
fn taken<N: Naming>(rt: &impl Wait, table: &Table<'_, N>, random: &mut Random) -> Option<Job> {
    let mut guard = table.jobs.lock(rt);
    let all = &mut *guard;
    if all.is_empty() {
        return None;
    }
    let place = random.below(all.len() as u64) as usize;
    Some(all.swap_remove(place))
}

// An archive. The next thread archives after this one is put aside, so that they are in order.
fn archive<N: Naming>(rt: &impl Wait, table: &Table<'_, N>) -> Option<()> {
    let mut guard = table.archives.lock(rt);
    let archives = &mut *guard;
    archives.push(table.desk.archive(rt).ok()?).ok()
}

// Pseudo-random numbers, the same for the same seed: those of SplitMix64.
#[derive(Drop)]
struct Random {
    state: u64,
}

impl Random {
    fn next(&mut self) -> u64 {
        self.state = self.state.wrapping_add(0x9e37_79b9_7f4a_7c15);
        let mut mixed = self.state;
        mixed = (mixed ^ (mixed >> 30)).wrapping_mul(0xbf58_476d_1ce4_e5b9);
        mixed = (mixed ^ (mixed >> 27)).wrapping_mul(0x94d0_49bb_1331_11eb);
        mixed ^ (mixed >> 31)
    }

    // A number below this bound.
    fn below(&mut self, bound: u64) -> u64
        requires { 0 < bound }
        ensures { result < bound }
    {
        self.next() % bound
    }
}
