//! Random schedules of four threads at one desk. In every second one the threads archive too.
//!
//! The archives have to join with the book of the closed desk. Their logs together are played as a list of events, and the replies that
//! each thread got are compared with those of `play`.

ghost use Rattle.std.specs.Prelude.{◌≡◌};

use crate::voices::{Heard, THREADS, Table, Voice, speak};
use giotto_tasks::same::Same;
use host_core::events::Event;
use host_core::plays::play;
use locked_book::archives::{Archive, joined};
use locked_book::books::Book;
use locked_book::desks::Desk;
use locked_book::histories::NewHistory;
use locked_book::naming::Naming;
use locked_book::passes::Pass;
use rig_model::config::{Config, read_config};
use rig_model::frames::copy_of_frame;
use rig_model::lines::texts::Text;
use rig_model::logged::Logged;
use std::alloc::{AllocError, Global};
use std::marker::Brand;
use std::sync::{Barrier, Mutex, Wait};
use std::thread;
use std::thread::Threads;

// Three tenants, of which two drive a line each.
const CONFIG: &str = "version = 1
lines = 2
[[tenant]]
name = \"alpha\"
key = \"a\"
reads = [0, 1]
writes = [0]
bytes = 4096
ports = 64
tasks = 16
modes = 16
steps = 10000
trace = 8
offers = 2
binds = 2
[[tenant]]
name = \"beta\"
key = \"b\"
reads = [0]
writes = [1]
bytes = 4096
ports = 64
tasks = 16
modes = 16
steps = 10000
trace = 8
offers = 2
binds = 2
[[tenant]]
name = \"gamma\"
key = \"c\"
reads = [1]
writes = []
bytes = 4096
ports = 64
tasks = 16
modes = 16
steps = 10000
trace = 8
offers = 2
binds = 2
";

/// Runs `times` schedules, each on a separate desk. Returns in how many of them the replies to each thread are those of `play` to the log.
pub(crate) fn agreeing<R: Threads + Wait + Sync>(
    rt: &R,
    alloc: Global,
    times: u64,
) -> anyhow::Result<i64> {
    let config = read_config(alloc, CONFIG)?;
    let mut agreeing = 0i64;
    for seed in 0..times {
        if agrees::<Brand, _>(rt, alloc, &config, NewHistory::new(), seed) == Some(true) {
            agreeing = agreeing.saturating_add(1);
        }
    }
    Ok(agreeing)
}

// Whether the schedule with this seed agrees.
fn agrees<N: Naming + Send + Sync, R: Threads + Wait + Sync>(
    rt: &R,
    alloc: Global,
    config: &Config,
    history: NewHistory,
    seed: u64,
) -> Option<bool>
    requires config { config.now ≡ N.config }
    requires first_tick { 0 ≡ N.first_tick }
    requires history { history ≡ N.history }
{
    let desk = Desk::<N>::with_history(alloc, config, 0, history).ok()?;
    let mut voices = new_voices(rt, alloc, &desk, seed)?;
    let archives = speak_at(rt, alloc, &desk, &mut voices, seed % 2);
    is_played(alloc, config, desk, voices, &archives)
}

// All rounds, at one table. Returns the archives.
fn speak_at<N: Naming + Send + Sync, R: Threads + Wait + Sync>(
    rt: &R,
    alloc: Global,
    desk: &Desk<N>,
    voices: &mut [Voice<N>],
    archive_share: u64,
) -> Vec<Archive<N>> {
    let table = Table {
        alloc,
        desk,
        jobs: Mutex::new(Vec::new(alloc)),
        archives: Mutex::new(Vec::new(alloc)),
        archive_share,
        round: Barrier::new(THREADS),
    };
    speak_all(rt, &table, voices);
    table.archives.into_inner()
}

// A voice for each thread, with a pass and the begin of its choices.
fn new_voices<N: Naming>(
    rt: &impl Wait,
    alloc: Global,
    desk: &Desk<N>,
    seed: u64,
) -> Option<Vec<Voice<N>>> {
    let mut voices = Vec::new(alloc);
    for number in 0..THREADS as u64 {
        let pass = desk.pass(rt).ok()?;
        let seed = seed.wrapping_mul(16).wrapping_add(number);
        voices.push(Voice::new(alloc, seed, pass)).ok()?;
    }
    Some(voices)
}

// Each voice speaks in a separate thread.
fn speak_all<N: Naming + Send + Sync, R: Threads + Wait + Sync>(
    rt: &R,
    table: &Table<'_, N>,
    voices: &mut [Voice<N>],
) {
    thread::scope(thread::scope_env(), rt, |scope| {
        for voice in voices {
            let _ = scope.spawn(move || speak(rt, table, voice)).is_ok();
        }
    });
}

// Whether the desk closes with all passes, the archives join with its book, and playing them gives the replies that each voice got.
fn is_played<N: Naming>(
    alloc: Global,
    config: &Config,
    desk: Desk<N>,
    voices: Vec<Voice<N>>,
    archives: &[Archive<N>],
) -> Option<bool> {
    let mut all = Vec::new(alloc);
    let book = closed(alloc, desk, voices, &mut all)?;
    if !joined(archives, &book) {
        return Some(false);
    }
    let log = whole_log(alloc, archives, &book).ok()?;
    if !stand(&book, &log, &all) {
        return Some(false);
    }
    is_answered(alloc, config, &log, &all)
}

// All entries, from the host's beginning.
fn whole_log<N: Naming>(
    alloc: Global,
    archives: &[Archive<N>],
    book: &Book<N>,
) -> Result<Vec<Logged>, AllocError> {
    let mut log = Vec::new(alloc);
    for archive in archives {
        add_entries(alloc, &mut log, archive.log())?;
    }
    add_entries(alloc, &mut log, book.log())?;
    Ok(log)
}

fn add_entries(alloc: Global, log: &mut Vec<Logged>, entries: &[Logged]) -> Result<(), AllocError> {
    for entry in entries {
        log.push(entry.copy(alloc)?)?;
    }
    Ok(())
}

// The desk's book, and what each voice heard.
fn closed<N: Naming>(
    alloc: Global,
    desk: Desk<N>,
    voices: Vec<Voice<N>>,
    all: &mut Vec<Heard>,
) -> Option<Book<N>> {
    let passes = passes_of(alloc, voices, all)?;
    desk.close(passes).ok()
}

// The passes of the voices, and what each heard.
fn passes_of<N: Naming>(
    alloc: Global,
    voices: Vec<Voice<N>>,
    all: &mut Vec<Heard>,
) -> Option<Vec<Pass<N>>> {
    let mut passes = Vec::new(alloc);
    for voice in voices {
        passes.push(pass_of(voice, all)?).ok()?;
    }
    Some(passes)
}

// The pass of a voice, and what it heard.
fn pass_of<N: Naming>(voice: Voice<N>, all: &mut Vec<Heard>) -> Option<Pass<N>> {
    let (pass, heard) = voice.into_parts()?;
    all.push(heard).ok()?;
    Some(pass)
}

// Whether playing a log gives the replies that each thread got.
fn is_answered(alloc: Global, config: &Config, log: &[Logged], all: &[Heard]) -> Option<bool> {
    let texts = played(alloc, config, log)?;
    let told = told_in_order(alloc, log, all, texts.len())?;
    Some(same(&texts, &told))
}

// The replies of `play` to a log.
fn played(alloc: Global, config: &Config, log: &[Logged]) -> Option<Vec<Text>> {
    let events = events_of(alloc, log).ok()?;
    play(alloc, config, &events).ok()
}

// Whether each instant and each completion is at the place that its thread got: in the whole log, and in the book if it came after the
// last archive.
fn stand<N: Naming>(book: &Book<N>, log: &[Logged], all: &[Heard]) -> bool {
    let mut stand = true;
    for heard in all {
        stand &= are_there(log, &heard.places) && stand_since_archive(book, &heard.places);
    }
    stand
}

fn are_there(log: &[Logged], places: &[(u128, Logged)]) -> bool {
    let mut are_there = true;
    for (place, entry) in places {
        are_there &= is_there(log, *place, entry);
    }
    are_there
}

fn is_there(log: &[Logged], place: u128, entry: &Logged) -> bool {
    let Ok(place) = usize::try_from(place) else {
        return false;
    };
    match log.get(place) {
        Some(found) => found.is_same(entry),
        None => false,
    }
}

// Whether the book has the entries at the places that it gave after the last archive, and none that it gave before.
fn stand_since_archive<N: Naming>(book: &Book<N>, places: &[(u128, Logged)]) -> bool {
    let base = book.length().wrapping_sub(book.log().len() as u128);
    match places.split_at_checked(number_below(places, base)) {
        Some((before, after)) => {
            book.stands(after) && (before.is_empty() || !book.stands(before))
        }
        None => false,
    }
}

// How many of the places are below the base.
fn number_below(places: &[(u128, Logged)], base: u128) -> usize {
    let mut number = 0usize;
    for (place, _entry) in places {
        if *place < base {
            number = number.wrapping_add(1);
        }
    }
    number
}

// The events of a log.
fn events_of(alloc: Global, log: &[Logged]) -> Result<Vec<Event>, AllocError> {
    let mut events = Vec::new(alloc);
    for entry in log {
        events.push(event_of(alloc, entry)?)?;
    }
    Ok(events)
}

fn event_of(alloc: Global, entry: &Logged) -> Result<Event, AllocError> {
    match entry {
        Logged::Call(_, kept) => {
            let call = kept.as_call();
            Ok(Event::Own(call.tenant, call.command.copy()?))
        }
        Logged::Tick(frame) => Ok(Event::Tick(copy_of_frame(alloc, frame.as_slice())?)),
        Logged::Done(id) => Ok(Event::Done(id.copy())),
    }
}

// The replies to each tenant: those that the threads heard, in the order of the log. `None` if a thread heard fewer or more replies than
// the log has calls of it.
fn told_in_order(
    alloc: Global,
    log: &[Logged],
    all: &[Heard],
    tenants: usize,
) -> Option<Vec<Text>> {
    let mut texts = blank(alloc, tenants).ok()?;
    let mut next = zeros(alloc, all.len()).ok()?;
    if !add_all(&mut texts, &mut next, log, all) {
        return None;
    }
    Some(texts)
}

// Adds all replies of a log to the texts of their tenants. Returns whether the threads heard only these.
fn add_all(texts: &mut [Text], next: &mut [usize], log: &[Logged], all: &[Heard]) -> bool {
    for entry in log {
        if add(texts, next, entry, all).is_none() {
            return false;
        }
    }
    are_all(all, next)
}

// Adds the reply to this call, if it is one.
fn add(texts: &mut [Text], next: &mut [usize], entry: &Logged, all: &[Heard]) -> Option<()> {
    let Logged::Call(seat, kept) = entry else {
        return Some(());
    };
    let call = kept.as_call();
    let reply = next_reply(next.get_mut(*seat)?, all.get(*seat)?)?;
    add_line(texts.get_mut(call.tenant)?, reply).ok()
}

// The next reply that a thread heard.
fn next_reply<'a>(next: &mut usize, heard: &'a Heard) -> Option<&'a str> {
    let reply = heard.replies.get(*next)?;
    *next = next.wrapping_add(1);
    Some(reply.as_str())
}

fn blank(alloc: Global, tenants: usize) -> Result<Vec<Text>, AllocError> {
    let mut texts = Vec::new(alloc);
    for _tenant in 0..tenants {
        texts.push(Text::new(alloc))?;
    }
    Ok(texts)
}

fn zeros(alloc: Global, number: usize) -> Result<Vec<usize>, AllocError> {
    let mut zeros = Vec::new(alloc);
    for _seat in 0..number {
        zeros.push(0usize)?;
    }
    Ok(zeros)
}

fn add_line(text: &mut Text, line: &str) -> Result<(), AllocError> {
    text.push_str(line)?;
    text.push_str("\n")
}

// Whether these are all replies that each thread heard.
fn are_all(all: &[Heard], next: &[usize]) -> bool {
    let mut are_all = true;
    for (heard, next) in all.iter().zip(next) {
        are_all &= heard.replies.len() == *next;
    }
    are_all
}

fn same(texts: &[Text], told: &[Text]) -> bool {
    let mut same = texts.len() == told.len();
    for (text, told) in texts.iter().zip(told) {
        same &= text.as_str() == told.as_str();
    }
    same
}
