//! The book: a host with its log.

ghost use Rattle.std.specs.Prelude.{◌≡◌, ◌≢◌, ℕ, ◌+◌, ◌-◌, ◌<◌, ◌≤◌, ◌^◌, ◌↔◌, [], ◌∷◌, ◌++◌, length, map, option_copied, reverse, List, IfOk, OnOk, OnErr, Err, IfSome, IsTrue, None, Some, vec_len, vec_capacity};
ghost use Rattle.std.specs.List.{range_with_len};
ghost use Rattle.host_core.specs.HostStanding.{ForEachState, Stands, TakesEvent, awaited_in, new_host, outstanding_count};
ghost use Rattle.host_core.specs.declared.hosts.Counted.{Counted};
ghost use Rattle.host_core.specs.declared.hosts.TickFault.{TickFault};
ghost use Rattle.host_core.specs.engine.Tenants.{most_of, released_from};
ghost use Rattle.rig_model.specs.Host.{host_after};
ghost use Rattle.rig_model.specs.HostState.{row_at};
ghost use Rattle.rig_model.specs.LineValues.{value_of_line};
ghost use Rattle.rig_model.specs.Views.{after_command};
ghost use Rattle.rig_model.specs.declared.events.Event.{Event};
ghost use Rattle.rig_model.specs.declared.lines.replies.Refusal.{Refusal};
ghost use Rattle.rig_model.specs.declared.lines.replies.Reply.{Reply};
ghost use Rattle.locked_book.specs.Books.{AllStand, AreAll, BeginsAt, EndsIn, IsAnswered, IsLegalFrom, IsMismatch, IsMissing, IsNextBase, IsStrange, Knows, beginning, length_of, new_setting};
ghost use Rattle.rig_model.specs.Logs.{IsLegalLog, events_of};
ghost use Rattle.locked_book.specs.inner.Books.{HasFirstCalls, Reached};
ghost use Rattle.locked_book.specs.inner.Carried.{IsNoted};
ghost use Rattle.locked_book.specs.declared.faults.CloseFault.{CloseFault};
ghost use Rattle.locked_book.specs.declared.faults.DeskFault.{DeskFault};
ghost use Rattle.locked_book.specs.declared.faults.PassFault.{PassFault};
ghost use Rattle.locked_book.specs.declared.books.TheConstants.{MOST_SEATS};
ghost use Rattle.locked_book.specs.declared.passes.TheConstants.{MOST_CALLS};
ghost use Rattle.rig_model.specs.declared.logged.Logged.{Logged};

use crate::archives::Archive;
use crate::bases::Base;
use crate::carried::carry_out;
use crate::comparison::compare;
use crate::faults::{CloseFault, DeskFault, PassFault};
use crate::histories::{Front, NewHistory};
use crate::known::is_known;
use crate::logs::Log;
use crate::naming::Naming;
use crate::passes::Pass;
use crate::replies::FromReply;
use crate::seats::{Seat, forget_places};
use crate::standing::{all_apart, all_there};
use giotto_check::Checked;
use host_core::hosts::{Counted, Host, TickFault};
use rig_model::config::{Config, TenantId};
use rig_model::lines::commands::Command;
use rig_model::lines::replies::Reply;
use rig_model::logged::{KeptCall, Logged};
use std::alloc::{AllocError, Global};
use std::marker::{Model, PhantomData};
use std::mem;
use tenant_jobs::jobs::{Done, Jobs};
use tenant_programs::prepared::{Prepared, prepare};

/// How many seats a book gives at most.
pub const MOST_SEATS: usize = 65536;

/// A host, and the log of all that was done to it.
#[derive(Drop)]
pub struct Book<N: Naming> {
    alloc: Global,
    base: Base,
    host: Host,
    // With space for the completions of all outstanding jobs.
    log: Log<N>,
    seats: Vec<Seat>,
    // A mark for each seat, for the comparison with all passes.
    marks: Vec<bool>,
    name: PhantomData<N>,
}

impl<N: Naming> Model for Book<N> {
    ghost use Rattle.std.specs.Prelude.{◌≡◌, ◌+◌, ◌≤◌, length};
    ghost use Rattle.std.specs.Coded.{codes};
    ghost use Rattle.rig_model.specs.text.cited.ProgramCodes.{program_code};
    ghost use Rattle.host_core.specs.HostStanding.{outstanding_count};
    ghost use Rattle.locked_book.specs.Books.{BookValue};
    ghost use Rattle.locked_book.specs.inner.Books.{IsBook};

    ghost Value = { BookValue };

    ghost coded = { Prim.hlevel (codes, program_code) };

    ghost view = { λ b. record { base = b.base; host = b.host; log = b.log.items; seats = length b.seats.items } };

    ghost invariant = { λ b. (length b.log.items + outstanding_count b.host ≤ b.log.capacity)
        × (length b.marks.items ≡ length b.seats.items)
        × IsBook N.config N.first_tick (record { base = b.base; host = b.host; log = b.log.items; seats = length b.seats.items }) b.seats.items };
}

impl<N: Naming> Book<N> {
    /// A new host, and an empty log.
    ///
    /// # Errors
    /// Out of memory.
    pub fn new(alloc: Global, config: &Config, first_tick: u64) -> Result<Self, AllocError>
        requires config { config.now ≡ N.config }
        requires first_tick { first_tick ≡ N.first_tick }
        ensures { IfOk result (λ b. b ≡ record {
          base = beginning N.config N.first_tick;
          host = new_host N.config N.first_tick;
          log = [];
          seats = 0;
        }) }
    {
        Book::begin(alloc, config, first_tick, None)
    }

    /// As `new`, with a history: the book then knows passes that have their calls from it, without comparing these calls.
    ///
    /// # Errors
    /// Out of memory.
    pub fn with_history(
        alloc: Global,
        config: &Config,
        first_tick: u64,
        history: NewHistory,
    ) -> Result<Self, AllocError>
        requires config { config.now ≡ N.config }
        requires first_tick { first_tick ≡ N.first_tick }
        requires history { history ≡ N.history }
        ensures { IfOk result (λ b. b ≡ record {
          base = beginning N.config N.first_tick;
          host = new_host N.config N.first_tick;
          log = [];
          seats = 0;
        }) }
    {
        Book::begin(alloc, config, first_tick, Some(history))
    }

    // A new host, and an empty log, with this history if there is one.
    fn begin(
        alloc: Global,
        config: &Config,
        first_tick: u64,
        history: Option<NewHistory>,
    ) -> Result<Self, AllocError>
        requires config { config.now ≡ N.config }
        requires first_tick { first_tick ≡ N.first_tick }
        requires history { IfSome history (λ h. h ≡ N.history) }
        ensures { IfOk result (λ b. b ≡ record {
          base = beginning N.config N.first_tick;
          host = new_host N.config N.first_tick;
          log = [];
          seats = 0;
        }) }
    {
        let base = Base::new(alloc, config, first_tick)?;
        let host = Host::new(alloc, config, first_tick)?;
        Ok(Book {
            alloc,
            base,
            host,
            log: Log::new(alloc, history),
            seats: Vec::new(alloc),
            marks: Vec::new(alloc),
            name: PhantomData,
        })
    }

    /// All that was done to the host since the base, the oldest first.
    pub fn log(&self) -> &[Logged]
        ensures entries { result.now ≡ self.now.log }
        ensures legal { IsLegalFrom N.config N.first_tick self.now.base self.now.log self.now.host }
    {
        self.log.as_slice()
    }

    /// Makes what is known of the log available to a proof. Does nothing.
    #[inline(always)]
    pub fn known(&self)
        ensures legal { IsLegalFrom N.config N.first_tick self.now.base self.now.log self.now.host }
    {
        let _log = self.log();
    }

    // Makes available to a proof that the log goes on from whatever ends in the base. Does nothing.
    pub(crate) fn goes_on(&self)
        ensures { (past : List Logged) → EndsIn N.config N.first_tick past self.now.base
            → IsLegalLog (new_setting N.config N.first_tick) (reverse self.now.log ++ past)
            × Stands (new_setting N.config N.first_tick) self.now.host (host_after (new_setting N.config N.first_tick) (events_of (reverse self.now.log ++ past))) }
    {
        let _entries = self.log.len();
    }

    // Whether the book begins at this base, or at that of a new host if there is none.
    pub(crate) fn begins_at(&self, end: Option<&Base>) -> bool
        ensures exact { IsTrue result ↔ BeginsAt N.config N.first_tick (option_copied end.entry) self.now.base }
        ensures reached { IsTrue result → (past : List Logged) → Reached N.config N.first_tick (option_copied end.entry) past → EndsIn N.config N.first_tick past self.now.base }
    {
        self.base.begins_at(end)
    }

    /// Hands out the log since the base, and makes the host the new base. The cost depends on the tenants' rows and the number of seats, and
    /// not on the log.
    ///
    /// # Errors
    /// Out of memory, or a share of a program is refused. Nothing has changed then.
    pub fn archive(&mut self) -> Result<Archive<N>, AllocError>
        ensures archive { IfOk result (λ a. a ≡ record { base = self.old.base; log = self.old.log; next = self.new.base }) }
        ensures next { OnOk result (IsNextBase self.old self.new.base) }
        ensures book { OnOk result ((self.new.log ≡ []) × ((self.new.host ≡ self.old.host) × (self.new.seats ≡ self.old.seats))) }
        ensures refused { OnErr result (self.new ≡ self.old) }
    {
        let length = self.length();
        let base = Base::after(self.alloc, &self.host, length, &self.seats)?;
        let next = Base::after(self.alloc, &self.host, length, &self.seats)?;
        let mut log = Log::new(self.alloc, None);
        log.reserve(self.host.outstanding())?;
        forget_places(self.seats.as_mut_slice());
        Ok(Archive {
            base: mem::replace(&mut self.base, base),
            log: mem::replace(&mut self.log, log),
            next,
        })
    }

    /// How many entries there are.
    pub fn length(&self) -> u128
        ensures length { result ≡ length_of self.now }
        ensures bound { length_of self.now + 1 < 2 ^ 128 }
    {
        self.base.entries_before() + self.log.len() as u128
    }

    /// How many jobs are outstanding: their tasks are active, and not completed.
    pub fn outstanding(&self) -> usize
        ensures { result ≡ outstanding_count self.now.host }
    {
        self.host.outstanding()
    }

    /// Gives a seat that was not given before. Returns its pass, which has no calls.
    ///
    /// # Errors
    /// `SeatsEnded` if 65,536 seats were given, else `Memory`. Nothing has changed then.
    pub fn seat(&mut self) -> Result<Pass<N>, PassFault>
        ensures ok { IfOk result (λ p. p ≡ record { seat = self.old.seats; calls = []; seen = 0 }) }
        ensures fits { IfOk result (λ p. p.seat < MOST_SEATS) }
        ensures same { (self.new.base ≡ self.old.base) × (self.new.host ≡ self.old.host) × (self.new.log ≡ self.old.log) }
        ensures seats { OnOk result (self.new.seats ≡ self.old.seats + 1) }
        ensures refused { OnErr result (self.new ≡ self.old) }
        ensures ended { result ≡ Err PassFault.SeatsEnded ↔ self.old.seats ≡ MOST_SEATS }
    {
        let seat = self.seats.len();
        if seat >= MOST_SEATS {
            return Err(PassFault::SeatsEnded);
        }
        let Ok(()) = self.marks.reserve(1) else {
            return Err(PassFault::Memory);
        };
        let Ok(()) = self.seats.push(Seat::new(self.alloc)) else {
            return Err(PassFault::Memory);
        };
        self.marks.push_reserved(false);
        Ok(Pass::new(self.alloc, seat))
    }

    /// Runs an instant of all tenants, and returns its jobs and the place of its entry. `frame` has the input value of each line.
    /// Reserves space for the completions of the jobs.
    ///
    /// # Errors
    /// `BadFrame` if the frame doesn't have one value for each line, else `ClockEnded` if the instant's number would be `u64::MAX`,
    /// else `Memory`. Nothing has changed then.
    pub fn tick(&mut self, frame: &[i64]) -> Result<(Jobs, u128), TickFault>
        ensures ok { IfOk result (λ r. (self.new.log ≡ self.old.log ++ Logged.Tick frame.now ∷ []) × (r.1 ≡ length_of self.old)) }
        ensures step { OnOk result (TakesEvent (Event.Tick frame.now) self.old.host self.new.host) }
        ensures jobs { IfOk result (λ r. r.0.jobs ≡ released_from self.old.host.clock 0 self.new.host.tenants) }
        ensures base { OnOk result ((self.new.base ≡ self.old.base) × (self.new.seats ≡ self.old.seats)) }
        ensures refused { OnErr result (self.new ≡ self.old) }
        ensures bad_frame { result ≡ Err TickFault.BadFrame ↔ length frame.now ≢ self.old.host.config.lines }
        ensures clock_ended { result ≡ Err TickFault.ClockEnded ↔ ((length frame.now ≡ self.old.host.config.lines) × (self.old.host.clock ≡ 2 ^ 64 - 1)) }
    {
        let place = self.length();
        let jobs = self.host.tick_logged(frame, &mut self.log)?;
        self.log.known();
        Ok((jobs, place))
    }

    /// Takes a completion. It counts if its job is awaited, and the place of its entry is returned. A late completion changes nothing,
    /// is not logged, and returns 0. Takes no memory.
    pub fn done(&mut self, done: Done) -> (Counted, u128)
        ensures answer { result.0 ≡ Counted.Counted ↔ awaited_in self.old.host done.id ≡ Some done }
        ensures counted { result.0 ≡ Counted.Counted → (self.new.log ≡ self.old.log ++ Logged.Done done.id ∷ []) × (result.1 ≡ length_of self.old) }
        ensures step { result.0 ≡ Counted.Counted → TakesEvent (Event.Done done.id) self.old.host self.new.host }
        ensures base { (self.new.base ≡ self.old.base) × (self.new.seats ≡ self.old.seats) }
        ensures late { result.0 ≡ Counted.Late → (self.new ≡ self.old) × (result.1 ≡ 0) }
    {
        let place = self.length();
        let completion = Logged::Done(done.id().copy());
        match self.host.done(done) {
            Counted::Late => (Counted::Late, 0),
            Counted::Counted => {
                self.log.push_reserved(completion);
                (Counted::Counted, place)
            }
        }
    }

    /// The value of each line of the rig.
    ///
    /// # Errors
    /// Out of memory.
    pub fn lines(&self) -> Result<Vec<i64>, AllocError>
        ensures { ForEachState self.now.host (λ setting state. IfOk result (λ values. values.items ≡ map (value_of_line setting.config (row_at state)) (range_with_len 0 setting.config.lines))) }
    {
        let lines = self.host.config().lines();
        let mut values = Vec::with_capacity(self.alloc, lines)?;
        for line in 0..lines {
            values.push(self.host.line_value(line))?;
        }
        Ok(values)
    }

    /// Whether no place is in the list twice, and the log has each entry at its place, counted from the host's beginning. Takes no
    /// memory. Goes over the list once for each of the two. If the places aren't in order, it goes over the list at most twice more for
    /// each 524,288 entries of the log.
    pub fn stands(&self, entries: &[(u128, Logged)]) -> bool
        ensures { IsTrue result ↔ AllStand self.now entries.now }
    {
        let there = all_there(self.base.entries_before(), self.log.as_slice(), entries);
        if !there {
            return false;
        }
        all_apart(entries)
    }

    /// Returns why the book can't be closed with these passes: `Mismatch` with the seat of the first pass that it doesn't know or whose
    /// seat an earlier pass has, else `Missing` with the least seat that has a call in the log and no pass. `None` if each call in the
    /// log is on its pass. Takes no memory.
    pub fn compare(&mut self, passes: &[Pass<N>]) -> Option<CloseFault>
        ensures same { self.new ≡ self.old }
        ensures mismatch { (seat : ℕ) → result ≡ Some (CloseFault.Mismatch seat) → IsMismatch self.old passes.now seat }
        ensures missing { (seat : ℕ) → result ≡ Some (CloseFault.Missing seat) → IsMissing self.old passes.now seat }
        ensures all { result ≡ None → AreAll self.old passes.now }
    {
        compare(
            &self.base,
            self.log.as_slice(),
            &self.seats,
            self.marks.as_mut_slice(),
            passes,
        )
    }

    // Whether this book knows the pass. Compares the number of its calls if the book gave them, else call by call.
    fn knows(&self, pass: &Pass<N>) -> bool
        ensures { IsTrue result ↔ Knows self.now pass.now }
    {
        if self.gave_calls(pass) {
            return self.knows_by_number(pass);
        }
        is_known(&self.base, self.log.as_slice(), &self.seats, pass)
    }

    // Whether it is known that the pass has its calls from this book. They are then the first calls of its seat in the log.
    fn gave_calls(&self, pass: &Pass<N>) -> bool
        ensures { IsTrue result → HasFirstCalls self.now pass.now }
    {
        match &pass.front {
            None => false,
            Some(front) => self.log.begins_with(front),
        }
    }

    // Whether this book knows a pass that has the first calls of its seat.
    fn knows_by_number(&self, pass: &Pass<N>) -> bool
        requires { HasFirstCalls self.now pass.now }
        ensures { IsTrue result ↔ Knows self.now pass.now }
    {
        match self.seats.get(pass.seat) {
            None => false,
            Some(seat) => { seat.calls == pass.calls.len() as u64 && pass.seen <= self.length() }
        }
    }

    /// Makes a call of a pass: carries out a tenant's command, and returns the reply. The cost is proportional to the pass's calls,
    /// unless the book has a history and gave these calls.
    ///
    /// # Errors
    /// `PassFull` if the pass has 4,096 calls, else `Strange` with the log's length if the tenant isn't in the roster, the seat was not
    /// given here, the log's calls of the seat aren't those of the pass, or the pass has seen a longer log, else `Memory`. Neither the
    /// book nor the pass has changed then.
    pub fn call(
        &mut self,
        pass: &mut Pass<N>,
        tenant: TenantId,
        command: Command,
    ) -> Result<Reply, DeskFault>
        ensures answered { IfOk result (λ r. IsAnswered self.old self.new pass.old pass.new (record { tenant = tenant; command = command; reply = r })) }
        ensures memory { IfOk result (λ r. r ≢ Reply.Refused Refusal.Memory) }
        ensures known { OnOk result (Knows self.new pass.new) }
        ensures seen { OnOk result (pass.old.seen < pass.new.seen) }
        ensures refused { OnErr result ((self.new ≡ self.old) × (pass.new ≡ pass.old)) }
        ensures full { result ≡ Err DeskFault.PassFull ↔ MOST_CALLS ≤ length pass.old.calls }
        ensures strange { (n : ℕ) → result ≡ Err (DeskFault.Strange n) ↔ IsStrange self.old pass.old tenant n }
    {
        let prepared = prepare(self.alloc, command);
        let mut left = None;
        self.carry_out(pass, tenant, prepared, &mut left)
    }

    /// As `call`, of a prepared command, whose text has been read already. The caller gets a copy of the reply, or nothing: the reply is
    /// that of the pass's last call. A program that is replaced, or refused, is left in `left`.
    ///
    /// # Errors
    /// As `call`.
    pub fn carry_out<T: FromReply>(
        &mut self,
        pass: &mut Pass<N>,
        tenant: TenantId,
        prepared: Prepared,
        left: &mut Option<Checked>,
    ) -> Result<T, DeskFault>
        ensures answered { IfOk result (λ got. (r : Reply) × IsAnswered self.old self.new pass.old pass.new (record { tenant = tenant; command = prepared; reply = r })
            × (r ≢ Reply.Refused Refusal.Memory) × T.is_of got r) }
        ensures known { OnOk result (Knows self.new pass.new) }
        ensures seen { OnOk result (pass.old.seen < pass.new.seen) }
        ensures refused { OnErr result ((self.new ≡ self.old) × (pass.new ≡ pass.old)) }
        ensures full { result ≡ Err DeskFault.PassFull ↔ MOST_CALLS ≤ length pass.old.calls }
        ensures strange { (n : ℕ) → result ≡ Err (DeskFault.Strange n) ↔ IsStrange self.old pass.old tenant n }
    {
        if pass.is_full() {
            return Err(DeskFault::PassFull);
        }
        let length = self.length();
        if tenant >= self.host.config().tenants().len() {
            return Err(DeskFault::Strange(length));
        }
        if !self.knows(pass) {
            return Err(DeskFault::Strange(length));
        }
        let Ok(got) = self.answer_known(pass, tenant, prepared, left) else {
            return Err(DeskFault::Memory);
        };
        pass.seen = length + 1;
        Ok(got)
    }

    // As `carry_out`, of a pass that the book knows. What the pass has seen doesn't change.
    fn answer_known<T: FromReply>(
        &mut self,
        pass: &mut Pass<N>,
        tenant: TenantId,
        prepared: Prepared,
        left: &mut Option<Checked>,
    ) -> Result<T, AllocError>
        requires tenant { tenant < length self.old.host.config.tenants }
        requires room { length pass.old.calls < MOST_CALLS }
        requires known { Knows self.old pass.old }
        ensures noted { IfOk result (λ got. IsNoted self.old self.new pass.old pass.new tenant prepared (T.is_of got)) }
        ensures refused { OnErr result ((self.new ≡ self.old) × (pass.new ≡ pass.old)) }
    {
        let outstanding = self.host.outstanding();
        let place = self.log.len();
        let seat = &mut self.seats[pass.seat];
        make_room(
            &mut self.log,
            outstanding,
            &mut pass.calls,
            &mut seat.places,
        )?;
        let before = pass.calls.as_slice();
        let carried = carry_out(self.alloc, &mut self.host, tenant, prepared, left, before)?;
        let got = T::from_reply(self.alloc, &carried.logged.as_call().reply)?;
        seat.places.push_reserved(place);
        seat.calls += 1;
        self.log
            .push_reserved(Logged::Call(pass.seat, carried.logged));
        pass.calls.push_reserved(carried.noted);
        let _ = mem::replace(&mut pass.front, front_of(&self.base, &self.log));
        Ok(got)
    }
}

// What was seen of the history, if nothing was logged before the log.
fn front_of<N: Naming>(base: &Base, log: &Log<N>) -> Option<Front<N>>
    ensures log { IfSome result (λ front. front ≡ log.now.items) }
    ensures none { IfSome result (λ front. base.now.entries_before ≡ 0) }
{
    if base.entries_before() != 0 {
        return None;
    }
    log.front()
}

// Reserves space for a call in the log, in the pass, and among the seat's places. The log keeps space for this many outstanding
// completions too.
fn make_room<N: Naming>(
    log: &mut Log<N>,
    outstanding: usize,
    calls: &mut Vec<KeptCall>,
    places: &mut Vec<usize>,
) -> Result<(), AllocError>
    requires { length log.old.items + outstanding ≤ log.old.capacity }
    ensures log { log.new.items ≡ log.old.items }
    ensures calls { calls.new.items ≡ calls.old.items }
    ensures places { places.new.items ≡ places.old.items }
    ensures log_room { OnOk result (length log.new.items + outstanding + 1 ≤ log.new.capacity) }
    ensures calls_room { OnOk result (vec_len calls.new + 1 ≤ vec_capacity calls.new) }
    ensures places_room { OnOk result (vec_len places.new + 1 ≤ vec_capacity places.new) }
    ensures kept { length log.new.items + outstanding ≤ log.new.capacity }
{
    log.known();
    log.reserve(outstanding + 1)?;
    calls.reserve(1)?;
    places.reserve(1)?;
    Ok(())
}
