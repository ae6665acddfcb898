//! The calls that were archived, as long as the pass of their seat wasn't compared with them.

ghost use Rattle.std.specs.Prelude.{◌≡◌, ◌≢◌, ◌↔◌, ◌<◌, ◌++◌, ◌∷◌, [], ℕ, drop, false, length, true, IfSome, IsTrue, None, OnErr, OnOk};
ghost use Rattle.locked_book.specs.Books.{has_seat};
ghost use Rattle.rig_model.specs.Logs.{calls_of_seat};
ghost use Rattle.rig_server.specs.inner.Archived.{AllContinue, BeginsWith, FitsArchived, IsUnlike, IsWithout, archived_of};

use giotto_tasks::same::all_same;
use locked_book::faults::CloseFault;
use locked_book::naming::Naming;
use locked_book::passes::Pass;
use rig_model::logged::{KeptCall, Logged, SeatId};
use std::alloc::{AllocError, Global};
use std::marker::Model;

/// The archived calls of a seat, the oldest first.
#[derive(Drop)]
struct Row {
    calls: Vec<KeptCall>,
}

impl Model for Row {
    ghost use Rattle.std.specs.Prelude.{List};
    ghost use Rattle.rig_model.specs.declared.logged.Call.{Call};

    ghost Value = { List Call };

    ghost view = { λ r. r.calls.items };
}

impl Row {
    fn new(alloc: Global) -> Row
        ensures { result ≡ [] }
    {
        Row {
            calls: Vec::new(alloc),
        }
    }

    fn add(&mut self, alloc: Global, call: &KeptCall) -> Result<(), AllocError>
        ensures added { OnOk result (self.new ≡ self.old ++ call.now ∷ []) }
        ensures refused { OnErr result (self.new ≡ self.old) }
    {
        self.calls.reserve(1)?;
        let copy = call.copy(alloc)?;
        self.calls.push_reserved(copy);
        Ok(())
    }

    fn as_slice(&self) -> &[KeptCall]
        ensures { result.now ≡ self.now }
    {
        &self.calls
    }
}

/// The archived calls of each seat whose pass wasn't compared with them yet.
#[derive(Drop)]
pub(crate) struct Archived {
    alloc: Global,
    // by seat
    rows: Vec<Row>,
}

impl Archived {
    /// No calls. Takes no memory.
    pub(crate) fn new(alloc: Global) -> Archived
        ensures { result.rows.items ≡ [] }
    {
        Archived {
            alloc,
            rows: Vec::new(alloc),
        }
    }

    /// Adds the calls of an archive's log from the entry at `*noted` on, and counts there how many entries it has noted.
    ///
    /// # Errors
    /// Out of memory. `noted` then says how far it came.
    pub(crate) fn add_log(&mut self, log: &[Logged], noted: &mut usize) -> Result<(), AllocError>
        ensures added { (seat : ℕ) → archived_of self.new.rows.items seat ++ calls_of_seat seat (drop noted.new log.now)
            ≡ archived_of self.old.rows.items seat ++ calls_of_seat seat (drop noted.old log.now) }
        ensures whole { OnOk result (drop noted.new log.now ≡ []) }
    {
        while *noted < log.len() {
            self.add(&log[*noted])?;
            *noted += 1;
        }
        Ok(())
    }

    // Adds an entry, if it is a call.
    fn add(&mut self, entry: &Logged) -> Result<(), AllocError>
        ensures added { OnOk result ((seat : ℕ) → archived_of self.new.rows.items seat ≡ archived_of self.old.rows.items seat ++ calls_of_seat seat (entry.now ∷ [])) }
        ensures refused { OnErr result ((seat : ℕ) → archived_of self.new.rows.items seat ≡ archived_of self.old.rows.items seat) }
    {
        match entry {
            Logged::Call(seat, call) => {
                self.make_row(*seat)?;
                self.rows[*seat].add(self.alloc, call)
            }
            Logged::Tick(_) => Ok(()),
            Logged::Done(_) => Ok(()),
        }
    }

    // Has a row for the seat from then on.
    fn make_row(&mut self, seat: SeatId) -> Result<(), AllocError>
        ensures row { OnOk result (seat < length self.new.rows.items) }
        ensures same { (s : ℕ) → archived_of self.new.rows.items s ≡ archived_of self.old.rows.items s }
    {
        while self.rows.len() <= seat {
            self.rows.push(Row::new(self.alloc))?;
        }
        Ok(())
    }

    /// Forgets the archived calls of a pass's seat, if they are exactly the calls of the pass. Returns whether they are. Takes no memory.
    pub(crate) fn release<N: Naming>(&mut self, pass: &Pass<N>) -> bool
        ensures exact { IsTrue result ↔ pass.now.calls ≡ archived_of self.old.rows.items pass.now.seat }
        ensures forgotten { IsTrue result → archived_of self.new.rows.items pass.now.seat ≡ [] }
        ensures others { (s : ℕ) → s ≢ pass.now.seat → archived_of self.new.rows.items s ≡ archived_of self.old.rows.items s }
        ensures kept { result ≡ false → self.new.rows.items ≡ self.old.rows.items }
    {
        let seat = pass.seat();
        if seat >= self.rows.len() {
            return pass.calls().is_empty();
        }
        if !all_same(pass.calls(), self.rows[seat].as_slice()) {
            return false;
        }
        self.rows[seat] = Row::new(self.alloc);
        true
    }

    /// Why these passes don't fit the archived calls. First comes the first pass that doesn't begin with those of its seat, then the least
    /// seat that has archived calls and no pass. Takes no memory.
    pub(crate) fn compare<N: Naming>(&self, passes: &[Pass<N>]) -> Option<CloseFault>
        ensures { FitsArchived self.now.rows.items passes.now result }
    {
        if let Some(seat) = self.first_unlike(passes) {
            return Some(CloseFault::Mismatch(seat));
        }
        match self.first_without(passes) {
            Some(seat) => Some(CloseFault::Missing(seat)),
            None => None,
        }
    }

    // The seat of the first of these passes that doesn't begin with the archived calls of its seat.
    fn first_unlike<N: Naming>(&self, passes: &[Pass<N>]) -> Option<SeatId>
        ensures some { IfSome result (IsUnlike self.now.rows.items passes.now) }
        ensures none { result ≡ None → AllContinue self.now.rows.items passes.now }
    {
        for i in 0..passes.len() {
            if !self.begins(&passes[i]) {
                return Some(passes[i].seat());
            }
        }
        None
    }

    // Whether a pass begins with the archived calls of its seat.
    fn begins<N: Naming>(&self, pass: &Pass<N>) -> bool
        ensures { IsTrue result ↔ BeginsWith pass.now.calls (archived_of self.now.rows.items pass.now.seat) }
    {
        let Some(row) = self.rows.get(pass.seat()) else {
            return true;
        };
        let row = row.as_slice();
        match pass.calls().get(..row.len()) {
            Some(calls) => all_same(calls, row),
            None => false,
        }
    }

    // The least seat that has archived calls and none of these passes.
    fn first_without<N: Naming>(&self, passes: &[Pass<N>]) -> Option<SeatId>
        ensures some { IfSome result (IsWithout self.now.rows.items passes.now) }
        ensures none { result ≡ None → (s : ℕ) → archived_of self.now.rows.items s ≢ [] → has_seat passes.now s ≡ true }
    {
        for seat in 0..self.rows.len() {
            let row = self.rows[seat].as_slice();
            if !row.is_empty() && !has_pass(passes, seat) {
                return Some(seat);
            }
        }
        None
    }
}

// Whether one of these passes has the seat.
fn has_pass<N: Naming>(passes: &[Pass<N>], seat: SeatId) -> bool
    ensures { result ≡ has_seat passes.now seat }
{
    passes.iter().any(|pass| pass.seat() == seat)
}
