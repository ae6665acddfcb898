//! The desk: a book under a lock.

ghost use Rattle.std.specs.Prelude.{◌≡◌, ◌≢◌, ℕ, ◌+◌, ◌<◌, ◌≤◌, ◌↔◌, List, [], ◌∷◌, ◌++◌, length, map, reverse, true, IfOk, OnOk, OnErr, IfErr, IfSome, Err, Some};
ghost use Rattle.std.specs.List.{All, range_with_len};
ghost use Rattle.host_core.specs.engine.Tenants.{released_from};
ghost use Rattle.host_core.specs.HostStanding.{HostStanding, Stands};
ghost use Rattle.host_core.specs.declared.hosts.Counted.{Counted};
ghost use Rattle.rig_model.specs.Host.{host_after};
ghost use Rattle.rig_model.specs.Base.{IsBase};
ghost use Rattle.rig_model.specs.HostState.{HostState, row_at};
ghost use Rattle.rig_model.specs.LineValues.{value_of_line};
ghost use Rattle.locked_book.specs.Books.{AreAll, AreCalled, EndLegalLog, HasKeptAnswers, IsClosedBook, IsLegalFrom, IsMismatch, IsMissing, new_setting, setting_from};
ghost use Rattle.rig_model.specs.Logs.{IsLegalLog, events_of};
ghost use Rattle.locked_book.specs.declared.faults.CloseFault.{CloseFault};
ghost use Rattle.locked_book.specs.declared.faults.DeskFault.{DeskFault};
ghost use Rattle.locked_book.specs.declared.books.TheConstants.{MOST_SEATS};
ghost use Rattle.locked_book.specs.declared.passes.TheConstants.{MOST_CALLS};
ghost use Rattle.rig_model.specs.declared.logged.Call.{Call};
ghost use Rattle.rig_model.specs.declared.logged.Logged.{Logged};
ghost use Rattle.locked_book.specs.inner.Books.{AreMade};

use crate::archives::Archive;
use crate::books::Book;
use crate::faults::{CloseFault, DeskFault, PassFault};
use crate::histories::NewHistory;
use crate::naming::Naming;
use crate::passes::Pass;
use host_core::hosts::{Counted, TickFault};
use rig_model::config::{Config, TenantId};
use rig_model::lines::commands::Command;
use rig_model::lines::replies::Reply;
use std::alloc::{AllocError, Global};
use std::hint::spin_loop;
use std::sync::{Condvar, Mutex, MutexGuard, Wait};
use tenant_jobs::jobs::{Done, Jobs};
use tenant_programs::prepared::prepare;

// How often a thread tries the lock before it sleeps until the lock is free. The tries take about as long as falling asleep and being
// woken. Calls that a session makes together hold the lock for less.
const TRIES: u32 = 1000;

/// A book under a lock. Only functions that wait take the runtime.
#[derive(Drop)]
pub struct Desk<N: Naming> {
    alloc: Global,
    book: Mutex<Book<N>>,
    settled: Condvar,
}

impl<N: Naming> Desk<N> {
    /// A desk over a new host, with an empty log.
    ///
    /// # Errors
    /// Out of memory.
    pub fn new(alloc: Global, config: &Config, first_tick: u64) -> Result<Self, AllocError>
        requires config { config.now ≡ N.config }
        requires first_tick { first_tick ≡ N.first_tick }
    {
        Ok(Desk::over(alloc, Book::new(alloc, config, first_tick)?))
    }

    /// As `new`, with a history: the desk then knows passes that have their calls from it, without comparing these calls.
    ///
    /// # Errors
    /// Out of memory.
    pub fn with_history(
        alloc: Global,
        config: &Config,
        first_tick: u64,
        history: NewHistory,
    ) -> Result<Self, AllocError>
        requires config { config.now ≡ N.config }
        requires first_tick { first_tick ≡ N.first_tick }
        requires history { history ≡ N.history }
    {
        Ok(Desk::over(
            alloc,
            Book::with_history(alloc, config, first_tick, history)?,
        ))
    }

    // A desk over this book.
    fn over(alloc: Global, book: Book<N>) -> Desk<N> {
        Desk {
            alloc,
            book: Mutex::new(book),
            settled: Condvar::new(),
        }
    }

    /// Gives a seat that was not given before. Returns its pass, which has no calls.
    ///
    /// # Errors
    /// `SeatsEnded` if 65,536 seats were given, else `Memory`.
    pub fn pass(&self, rt: &impl Wait) -> Result<Pass<N>, PassFault>
        ensures { IfOk result (λ p. (p.calls ≡ []) × (p.seen ≡ 0) × (p.seat < MOST_SEATS)) }
    {
        self.enter(rt).seat()
    }

    /// Makes a call of a pass: carries out a tenant's command, and returns the reply. The call is the last entry of a legal log, in which
    /// the seat's calls are exactly those of the pass since the base. The log is longer than any that the pass had seen.
    ///
    /// Reads the text of `load` and `replace` before taking the lock, and drops the replaced program after releasing it.
    ///
    /// # Errors
    /// `PassFull` if the pass has 4,096 calls, else `Strange` with the log's length if the tenant isn't in the roster, the seat was not
    /// given here, the log's calls of the seat aren't those of the pass, or the pass has seen a longer log, else `Memory`. The pass is
    /// as before then.
    pub fn call(
        &self,
        rt: &impl Wait,
        pass: &mut Pass<N>,
        tenant: TenantId,
        command: Command,
    ) -> Result<Reply, DeskFault>
        ensures ok { IfOk result (λ r. EndLegalLog N.config N.first_tick pass.new (record { tenant = tenant; command = command; reply = r } ∷ [])) }
        ensures pass { IfOk result (λ r. pass.new.calls ≡ pass.old.calls ++ record { tenant = tenant; command = command; reply = r } ∷ []) }
        ensures seat { pass.new.seat ≡ pass.old.seat }
        ensures seen { OnOk result (pass.old.seen < pass.new.seen) }
        ensures full { result ≡ Err DeskFault.PassFull ↔ MOST_CALLS ≤ length pass.old.calls }
        ensures refused { OnErr result (pass.new ≡ pass.old) }
    {
        let prepared = prepare(self.alloc, command);
        // Dropped after the lock is released.
        let mut left = None;
        let mut book = self.enter(rt);
        let reply: Reply = book.carry_out(pass, tenant, prepared, &mut left)?;
        self.leave(&book);
        Ok(reply)
    }

    /// Makes calls of a pass, one after the other under one lock: these commands of a tenant, until one is refused. They end a legal log,
    /// in which the seat's calls are exactly those of the pass since the base. Meant for short commands: the text of a `load` or a `replace`
    /// is read while the lock is held.
    ///
    /// # Errors
    /// As `call`, of the first command that is refused. The calls before it are made.
    pub fn call_all(
        &self,
        rt: &impl Wait,
        pass: &mut Pass<N>,
        tenant: TenantId,
        commands: &[Command],
    ) -> Result<(), DeskFault>
        ensures called { AreCalled tenant commands.now result pass.old pass.new }
        ensures legal { (made : List Call) → pass.new.calls ≡ pass.old.calls ++ made → made ≢ [] → EndLegalLog N.config N.first_tick pass.new made }
        ensures seat { pass.new.seat ≡ pass.old.seat }
        ensures none { pass.new.calls ≡ pass.old.calls → pass.new ≡ pass.old }
        ensures full { result ≡ Err DeskFault.PassFull ↔ ((MOST_CALLS ≤ length pass.new.calls) × (length pass.new.calls < length pass.old.calls + length commands.now)) }
    {
        let mut book = self.enter(rt);
        let answer = make_all(self.alloc, &mut book, pass, tenant, commands);
        self.leave(&book);
        answer
    }

    /// Runs an instant of all tenants, and returns the jobs that it released and its place. It is the last entry of a legal log, at this
    /// place.
    ///
    /// # Errors
    /// `BadFrame` if the frame doesn't have one value for each line, else `ClockEnded` if the instant's number would be `u64::MAX`,
    /// else `Memory`.
    pub fn tick(&self, rt: &impl Wait, frame: &[i64]) -> Result<(Jobs, u128), TickFault>
        ensures ok { IfOk result (λ r. (log : List Logged) × (host : HostStanding)
            × IsLegalLog (new_setting N.config N.first_tick) (Logged.Tick frame.now ∷ log)
            × (r.1 ≡ length log)
            × Stands (new_setting N.config N.first_tick) host (host_after (new_setting N.config N.first_tick) (events_of (Logged.Tick frame.now ∷ log)))
            × (r.0.jobs ≡ released_from (host_after (new_setting N.config N.first_tick) (events_of log)).clock 0 host.tenants)) }
        ensures bad_frame { result ≡ Err TickFault.BadFrame ↔ length frame.now ≢ N.config.lines }
    {
        let mut book = self.enter(rt);
        book.goes_on();
        book.known();
        let answer = book.tick(frame)?;
        self.leave(&book);
        Ok(answer)
    }

    /// Takes a completion. One that counts is the last entry of a legal log, at the returned place. A late one is not logged, and
    /// returns 0. Takes no memory.
    pub fn done(&self, rt: &impl Wait, done: Done) -> (Counted, u128)
        ensures counted { result.0 ≡ Counted.Counted → (log : List Logged)
            × IsLegalLog (new_setting N.config N.first_tick) (Logged.Done done.id ∷ log) × (result.1 ≡ length log) }
        ensures late { result.0 ≡ Counted.Late → result.1 ≡ 0 }
    {
        let mut book = self.enter(rt);
        let answer = book.done(done);
        self.leave(&book);
        answer
    }

    /// The value of each line of the rig, after a legal log.
    ///
    /// # Errors
    /// Out of memory.
    pub fn lines(&self, rt: &impl Wait) -> Result<Vec<i64>, AllocError>
        ensures { (log : List Logged) × IsLegalLog (new_setting N.config N.first_tick) log
            × IfOk result (λ values. values.items ≡ map (value_of_line N.config (row_at (host_after (new_setting N.config N.first_tick) (events_of log)))) (range_with_len 0 N.config.lines)) }
    {
        let book = self.enter(rt);
        book.known();
        book.lines()
    }

    /// Waits for the lock, and hands out the log since the base: the host becomes the new base. The cost depends on the tenants' rows and
    /// the number of seats, and not on the log.
    ///
    /// # Errors
    /// Out of memory, or a share of a program is refused. Nothing has changed then.
    pub fn archive(&self, rt: &impl Wait) -> Result<Archive<N>, AllocError>
        ensures { IfOk result (λ a. IsLegalFrom N.config N.first_tick a.base a.log a.next.host) }
    {
        let archive = self.enter(rt).archive()?;
        let _log = archive.log();
        Ok(archive)
    }

    /// Waits until no job is outstanding.
    pub fn settle(&self, rt: &impl Wait) {
        let _book = self
            .settled
            .wait_while(rt, self.book.lock(rt), |book| book.outstanding() != 0);
    }

    // Takes the lock. After some tries the thread sleeps until the lock is free.
    fn enter(&self, rt: &impl Wait) -> MutexGuard<'_, Book<N>> {
        for _try in 0..TRIES {
            if let Some(book) = self.book.try_lock() {
                return book;
            }
            spin_loop();
        }
        self.book.lock(rt)
    }

    // What each call does before it releases the lock. It makes what is known of the log available to the proof. If no job is
    // outstanding, it wakes the threads that wait for that.
    fn leave(&self, book: &Book<N>)
        ensures { IsLegalFrom N.config N.first_tick book.now.base book.now.log book.now.host }
    {
        book.known();
        if book.outstanding() == 0 {
            self.settled.notify_all();
        }
    }

    /// Closes the desk with all its passes, and returns the book. The calls of each pass are those of its seat in the log, no seat
    /// is there twice, no pass has seen a longer log, and each call in the log is of one of their seats. So all that was answered
    /// is in this one legal log. In it, each tenant was answered what the model answers it over its kept list. Takes no memory, and
    /// doesn't wait.
    ///
    /// # Errors
    /// `Mismatch` with the seat of the first pass whose calls aren't those of its seat in the log, whose seat was never given, that has
    /// seen a longer log, or whose seat an earlier pass has, else `Missing` with the least seat that has a call in the log and no pass.
    /// The desk and the passes are returned.
    pub fn close(self, passes: Vec<Pass<N>>) -> Result<Book<N>, (CloseFault, Desk<N>, Vec<Pass<N>>)>
        ensures legal { IfOk result (λ book. IsLegalFrom N.config N.first_tick book.base book.log book.host) }
        ensures all { IfOk result (λ book. AreAll book passes.items) }
        ensures answers { IfOk result (λ book. (state : HostState) → IsBase N.config state → Stands (setting_from N.config state) book.base.host state
            → HasKeptAnswers (setting_from N.config state) (reverse book.log)) }
        ensures back { IfErr result (λ e. e.2.items ≡ passes.items) }
        ensures mismatch { (seat : ℕ) → IfErr result (λ e. e.0 ≡ CloseFault.Mismatch seat → IsClosedBook N.config N.first_tick (λ book. IsMismatch book passes.items seat)) }
        ensures missing { (seat : ℕ) → IfErr result (λ e. e.0 ≡ CloseFault.Missing seat → IsClosedBook N.config N.first_tick (λ book. IsMissing book passes.items seat)) }
    {
        let Desk {
            alloc,
            book,
            settled,
        } = self;
        let mut book = book.into_inner();
        let fault = book.compare(&passes);
        book.known();
        match fault {
            None => Ok(book),
            Some(fault) => {
                let desk = Desk {
                    alloc,
                    book: Mutex::new(book),
                    settled,
                };
                Err((fault, desk, passes))
            }
        }
    }
}

// Makes these calls of a pass, one after the other, until one is refused.
fn make_all<N: Naming>(
    alloc: Global,
    book: &mut Book<N>,
    pass: &mut Pass<N>,
    tenant: TenantId,
    commands: &[Command],
) -> Result<(), DeskFault>
    ensures called { AreCalled tenant commands.now result pass.old pass.new }
    ensures made { (made : List Call) → pass.new.calls ≡ pass.old.calls ++ made → AreMade made book.old book.new pass.old pass.new }
    ensures full { result ≡ Err DeskFault.PassFull ↔ ((MOST_CALLS ≤ length pass.new.calls) × (length pass.new.calls < length pass.old.calls + length commands.now)) }
{
    for command in commands {
        if pass.is_full() {
            return Err(DeskFault::PassFull);
        }
        let Ok(command) = command.copy() else {
            return Err(DeskFault::Memory);
        };
        let mut left = None;
        let () = book.carry_out(pass, tenant, prepare(alloc, command), &mut left)?;
    }
    Ok(())
}
