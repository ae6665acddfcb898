//! The calls of locked_book that wait for nobody, and that make a desk. `scripts/check-memory` refuses the requests of a desk's calls.

ghost use Rattle.std.specs.Prelude.{◌≡◌};

use crate::fixtures::{ADDER, ALPHA, load, release, rig};
use crate::memory::{with_refusals, without_memory};
use host_core::hosts::{Counted, TickFault};
use locked_book::archives::{Archive, joined};
use locked_book::books::Book;
use locked_book::desks::Desk;
use locked_book::faults::{DeskFault, PassFault};
use locked_book::naming::Naming;
use locked_book::passes::Pass;
use rig_model::config::Config;
use rig_model::lines::commands::Command;
use rig_model::lines::replies::Reply;
use rig_model::logged::Logged;
use std::alloc::Global;
use std::marker::Brand;
use std::process::Abort;
use std::slice;
use tenant_jobs::jobs::{Job, run_job};

fn new_book<N: Naming>(rt: &impl Abort, alloc: Global, config: &Config) -> Book<N>
    requires config { config.now ≡ N.config }
    requires first_tick { 0 ≡ N.first_tick }
{
    let made = with_refusals!(alloc, Book::<N>::new(alloc, config, 0),
        Err(_) => Book::<N>::new(alloc, config, 0)
    );
    made.expect(rt, "memory")
}

fn new_desk<N: Naming>(rt: &impl Abort, alloc: Global, config: &Config) -> Desk<N>
    requires config { config.now ≡ N.config }
    requires first_tick { 0 ≡ N.first_tick }
{
    let made = with_refusals!(alloc, Desk::<N>::new(alloc, config, 0),
        Err(_) => Desk::<N>::new(alloc, config, 0)
    );
    made.expect(rt, "memory")
}

fn new_pass<N: Naming>(rt: &impl Abort, alloc: Global, book: &mut Book<N>) -> Pass<N> {
    let given = with_refusals!(alloc, book.seat(), Err(PassFault::Memory) => book.seat());
    given.expect(rt, "a pass")
}

// The reply to alpha's command, after which book and pass have one more entry.
fn answer<N: Naming>(
    rt: &impl Abort,
    alloc: Global,
    book: &mut Book<N>,
    pass: &mut Pass<N>,
    command: Command,
) -> Reply {
    let again = command.copy().expect(rt, "memory");
    let (entries, calls) = (book.log().len(), pass.calls().len());
    let answered = with_refusals!(alloc, book.call(pass, ALPHA, command),
        Err(DeskFault::Memory) => {
            assert!(rt; book.log().len() == entries && pass.calls().len() == calls);
            book.call(pass, ALPHA, again)
        }
    );
    answered.expect(rt, "a reply")
}

// The first job that an instant releases, which is the entry at this place.
fn released<N: Naming>(rt: &impl Abort, alloc: Global, book: &mut Book<N>, place: u128) -> Job {
    let ran = with_refusals!(alloc, book.tick(&[5]),
        Err(TickFault::Memory) => {
            assert!(rt; book.length() == place);
            book.tick(&[5])
        }
    );
    let (mut jobs, own) = ran.expect(rt, "an instant");
    assert!(rt; own == place);
    let job = jobs.take().expect(rt, "a job");
    drop(jobs);
    job
}

fn archived<N: Naming>(rt: &impl Abort, alloc: Global, book: &mut Book<N>) -> Archive<N> {
    let handed_out = with_refusals!(alloc, book.archive(), Err(_) => book.archive());
    handed_out.expect(rt, "memory")
}

// Whether the completion of the first instant's job is the entry at this place.
fn stands_at<N: Naming>(rt: &impl Abort, alloc: Global, book: &Book<N>, place: u128) -> bool {
    let entry = [(place, Logged::Done(release(rt, ALPHA, 0)))];
    without_memory!(alloc, book.stands(&entry))
}

// Whether a book hands out two calls and an instant, and keeps a completion.
fn keeps_a_log<N: Naming>(rt: &impl Abort, alloc: Global, config: &Config) -> bool
    requires config { config.now ≡ N.config }
    requires first_tick { 0 ≡ N.first_tick }
{
    let mut book = new_book::<N>(rt, alloc, config);
    let mut pass = new_pass(rt, alloc, &mut book);
    drop(answer(rt, alloc, &mut book, &mut pass, load(rt, alloc, ADDER)));
    drop(answer(rt, alloc, &mut book, &mut pass, Command::Start));
    let calls = without_memory!(alloc, pass.calls().len());
    drop(pass);
    let job = released(rt, alloc, &mut book, 2);
    let archive = archived(rt, alloc, &mut book);
    let done = run_job(job);
    let (counted, place) = without_memory!(alloc, book.done(done));
    let entries = without_memory!(alloc, book.log().len());
    assert!(rt; stands_at(rt, alloc, &book, 3) && !stands_at(rt, alloc, &book, 2));
    let are_joined = without_memory!(alloc, joined(slice::from_ref(&archive), &book));
    let handed_out = without_memory!(alloc, archive.log().len());
    drop(archive);
    drop(book);
    calls == 2
        && handed_out == 3
        && entries == 1
        && are_joined
        && place == 3
        && counted == Counted::Counted
}

// Whether a pass of a book notes a call.
fn notes_a_call<N: Naming>(rt: &impl Abort, alloc: Global, config: &Config) -> bool
    requires config { config.now ≡ N.config }
    requires first_tick { 0 ≡ N.first_tick }
{
    let mut book = new_book::<N>(rt, alloc, config);
    let mut pass = new_pass(rt, alloc, &mut book);
    drop(book);
    let (command, again) = (load(rt, alloc, ADDER), load(rt, alloc, ADDER));
    assert!(rt; !pass.is_full());
    let noted = with_refusals!(alloc, pass.note(ALPHA, command, Reply::Loaded),
        Err(_) => {
            assert!(rt; pass.calls().is_empty() && !pass.is_full());
            pass.note(ALPHA, again, Reply::Loaded)
        }
    );
    noted.expect(rt, "memory");
    let calls = pass.calls().len();
    drop(pass);
    calls == 1
}

// What is shown of a book or desk.
#[derive(Clone, Copy)]
enum Shown {
    Log,
    Note,
    Desk,
}

fn shows<N: Naming>(rt: &impl Abort, alloc: Global, config: &Config, shown: Shown) -> bool
    requires config { config.now ≡ N.config }
    requires first_tick { 0 ≡ N.first_tick }
{
    match shown {
        Shown::Log => keeps_a_log::<N>(rt, alloc, config),
        Shown::Note => notes_a_call::<N>(rt, alloc, config),
        Shown::Desk => {
            drop(new_desk::<N>(rt, alloc, config));
            true
        }
    }
}

// Whether a book or desk of the built-in configuration shows it.
fn is_shown(rt: &impl Abort, alloc: Global, shown: Shown) -> bool {
    let config = rig(rt, alloc);
    let is_shown = shows::<Brand>(rt, alloc, &config, shown);
    drop(config);
    is_shown
}

#[test]
fn book_keeps_a_log(rt: HostRuntime) {
    assert!(rt; is_shown(&rt, rt.alloc(), Shown::Log));
}

#[test]
fn pass_notes_a_call(rt: HostRuntime) {
    assert!(rt; is_shown(&rt, rt.alloc(), Shown::Note));
}

#[test]
fn desk_is_made(rt: HostRuntime) {
    assert!(rt; is_shown(&rt, rt.alloc(), Shown::Desk));
}
