//! What a tenant's commands do.

ghost use Rattle.std.specs.Prelude.{◌≡◌, ◌≢◌, ◌⊎◌, [], false, Err, IfOk, IfErr, OnOk, OnErr, length};
ghost use Rattle.rig_model.specs.declared.lines.commands.Command.{Command};
ghost use Rattle.rig_model.specs.declared.lines.replies.Refusal.{Refusal};
ghost use Rattle.rig_model.specs.declared.lines.replies.Reply.{Reply};
ghost use Rattle.rig_model.specs.Commands.{at_beginning, commanded, load_kept};
ghost use Rattle.tenant_state.specs.Memory.{takes_memory};
ghost use Rattle.rig_model.specs.Row.{Row, is_running, loaded};
ghost use Rattle.rig_model.specs.Tenancies.{Tenancy};
ghost use Rattle.tenant_state.specs.inner.Tenants.{IsBeginning};
ghost use Rattle.tenant_state.specs.cited.Standing.{AreEnded, AreTasksKept, HoldsOfRow, IsAnswered, IsBehind, IsOutcome, IsRefused};
ghost use Rattle.tenant_programs.specs.cited.Prepared.{IsReadingOf};
ghost use Rattle.tenant_state.specs.Standing.{StandsFor};

use crate::tenants::waiting::{Beginning, beginning_of};
use crate::tenants::{Reason, State, Tenant};
use giotto_check::Checked;
use rig_model::lines::commands::Command;
use rig_model::lines::ports::PortValue;
use rig_model::lines::replies::{Refusal, Reply};
use rig_model::trace::records::Happening;
use tenant_exchange::commands;
use tenant_programs::budgets::broken_budget;
use tenant_programs::prepared::{Prepared, Reading, prepare, program_by_reading};
use tenant_slots::beginning::reset_ports;
use tenant_slots::names::{mode_name, start_place};

impl Tenant {
    /// Carries out a command, as `carry_out` does, after reading its text, if it has one.
    pub fn command(&mut self, command: Command) -> Reply
        requires rest { self.old.ready.ended ≡ [] }
        ensures memory { result ≡ Reply.Refused Refusal.Memory → self.new ≡ self.old }
        ensures room { takes_memory self.old.tenancy.owner command self.old.row ≡ false → result ≢ Reply.Refused Refusal.Memory }
        ensures tenancy { self.new.tenancy ≡ self.old.tenancy }
        ensures next_tick { self.new.row.next_tick ≡ self.old.row.next_tick }
        ensures ended { AreEnded self.old self.new }
        ensures active { (self.new.row.active ≡ []) ⊎ AreTasksKept self.old self.new }
        ensures step { HoldsOfRow self.old (λ row. result ≢ Reply.Refused Refusal.Memory → IsOutcome (commanded self.old.tenancy command row) result self.new) }
    {
        let prepared = prepare(self.alloc, command);
        let mut left = None;
        self.carry_out(prepared, &mut left)
    }

    /// Carries out a prepared command. Leaves in `left` the program that was replaced, or a new one that is refused, so that a
    /// caller that holds a lock can drop it after releasing the lock. What `left` held before is dropped then. A refusal changes
    /// nothing, also one for lack of memory. Memory is only taken by `load`, `replace`, `show all` of a program with a port,
    /// `trace` if there is a record, `offer` and `bind` if the row may be made, and `rows` if there is a row. No other command is
    /// refused for lack of memory.
    pub fn carry_out(&mut self, prepared: Prepared, left: &mut Option<Checked>) -> Reply
        requires rest { self.old.ready.ended ≡ [] }
        ensures memory { result ≡ Reply.Refused Refusal.Memory → self.new ≡ self.old }
        ensures room { takes_memory self.old.tenancy.owner prepared self.old.row ≡ false → result ≢ Reply.Refused Refusal.Memory }
        ensures tenancy { self.new.tenancy ≡ self.old.tenancy }
        ensures next_tick { self.new.row.next_tick ≡ self.old.row.next_tick }
        ensures ended { AreEnded self.old self.new }
        ensures active { (self.new.row.active ≡ []) ⊎ AreTasksKept self.old self.new }
        ensures step { HoldsOfRow self.old (λ row. result ≢ Reply.Refused Refusal.Memory → IsOutcome (commanded self.old.tenancy prepared row) result self.new) }
    {
        let (command, reading) = prepared.into_parts();
        match command {
            Command::Load(text) => match self.load(text.as_str(), reading, left) {
                Ok(()) => Reply::Loaded,
                Err(refusal) => Reply::Refused(refusal),
            },
            Command::Replace(text) => match self.replace(text.as_str(), reading, left) {
                Ok(()) => Reply::Replaced,
                Err(refusal) => Reply::Refused(refusal),
            },
            Command::Start => match self.start() {
                Ok(()) => Reply::Started,
                Err(refusal) => Reply::Refused(refusal),
            },
            Command::Stop => match self.stop() {
                Ok(()) => Reply::Stopped,
                Err(refusal) => Reply::Refused(refusal),
            },
            Command::ShowMode => Reply::Mode(self.status()),
            Command::ShowPort(port) => match self.port_value(&port) {
                Ok(value) => Reply::Port(PortValue { port, value }),
                Err(refusal) => Reply::Refused(refusal),
            },
            Command::ShowAll => match self.all_values() {
                Ok(all) => Reply::All(all),
                Err(refusal) => Reply::Refused(refusal),
            },
            Command::Trace => match self.trace.list() {
                Ok(records) => Reply::Trace(records),
                Err(_) => Reply::Refused(Refusal::Memory),
            },
            Command::Grants(command) => commands::carry_out(&mut self.grants, command),
        }
    }

    pub(crate) fn is_running(&self) -> bool
        ensures { result ≡ is_running self.now.row }
    {
        matches!(self.state, State::Running)
    }

    // Loads the program that the text spells. `reading` is the result of reading the text. All memory is taken before the first
    // change.
    fn load(
        &mut self,
        text: &str,
        reading: Reading,
        left: &mut Option<Checked>,
    ) -> Result<(), Refusal>
        requires reading { IsReadingOf text.now reading }
        ensures unchanged { OnErr result (self.new ≡ self.old) }
        ensures tenancy { self.new.tenancy ≡ self.old.tenancy }
        ensures next_tick { self.new.row.next_tick ≡ self.old.row.next_tick }
        ensures refused { IfErr result (λ r. r ≢ Refusal.Memory → IsRefused self.old (commanded self.old.tenancy (Command.Load text.now)) r) }
        ensures loaded { OnOk result (IsAnswered self.old (commanded self.old.tenancy (Command.Load text.now)) Reply.Loaded self.new) }
        ensures none_ended { OnOk result ((self.old.row.active ≡ []) × (self.new.row.active ≡ []) × (self.new.ready.ended ≡ [])) }
    {
        let program = program_by_reading(self.alloc, text, reading)?;
        match self.beginning(text.len(), &program) {
            Ok(beginning) => {
                *left = self.install(program, beginning);
                Ok(())
            }
            Err(refusal) => {
                *left = Some(program);
                Err(refusal)
            }
        }
    }

    // What a program begins with, if it may be loaded. `bytes` is the length of its text.
    fn beginning(&self, bytes: usize, program: &Checked) -> Result<Beginning, Refusal>
        ensures refused { IfErr result (λ r. r ≢ Refusal.Memory → IsRefused self.now (load_kept self.now.tenancy.budgets bytes program.now) r) }
        ensures loaded { OnOk result ((row : Row) → StandsFor self.now row
            → load_kept self.now.tenancy.budgets bytes program.now row ≡ record { row = at_beginning loaded program.now row; reply = Reply.Loaded }) }
        ensures rests { OnOk result (self.now.row.active ≡ []) }
        ensures begins { IfOk result (IsBeginning program.now) }
    {
        if self.is_running() {
            return Err(Refusal::Running);
        }
        if let Some(budget) = broken_budget(&self.budgets, bytes, program) {
            return Err(Refusal::OverBudget(budget));
        }
        beginning_of(self.alloc, program)
    }

    // Puts a program in place, at its beginning. Returns the program that was there.
    fn install(&mut self, program: Checked, beginning: Beginning) -> Option<Checked>
        requires begins { IsBeginning program beginning }
        ensures tenancy { self.new.tenancy ≡ self.old.tenancy }
        ensures next_tick { self.new.row.next_tick ≡ self.old.row.next_tick }
        ensures step { IsBehind self.old (at_beginning loaded program) self.new }
        ensures active { self.new.row.active ≡ [] }
        ensures ended { self.new.ready.ended ≡ [] }
    {
        self.state = State::Loaded;
        self.mode = start_place(&program);
        self.mode_time = 0;
        self.next_due = 0;
        self.active.end_all();
        self.active.forget_ended();
        self.values = beginning.values;
        self.shares = beginning.shares;
        self.waiting = None;
        self.program.replace(program)
    }

    // Starts the program from its beginning. Takes no memory.
    fn start(&mut self) -> Result<(), Refusal>
        ensures unchanged { OnErr result (self.new ≡ self.old) }
        ensures tenancy { self.new.tenancy ≡ self.old.tenancy }
        ensures next_tick { self.new.row.next_tick ≡ self.old.row.next_tick }
        ensures room { result ≢ Err Refusal.Memory }
        ensures refused { IfErr result (λ r. (tenancy : Tenancy) → IsRefused self.old (commanded tenancy Command.Start) r) }
        ensures started { OnOk result ((tenancy : Tenancy) → IsAnswered self.old (commanded tenancy Command.Start) Reply.Started self.new) }
        ensures none_ended { OnOk result ((self.old.row.active ≡ []) × (self.new.row.active ≡ []) × (self.new.ready.ended ≡ [])) }
    {
        if self.is_running() {
            return Err(Refusal::Running);
        }
        let Some(program) = &self.program else {
            return Err(Refusal::NotLoaded);
        };
        reset_ports(program, self.values.as_mut_slice());
        let mode = start_place(program);
        let name = mode_name(program, mode);
        self.trace.note(self.next_tick, Happening::Start(name));
        self.mode = mode;
        self.waiting = None;
        self.state = State::Running;
        self.mode_time = 0;
        self.next_due = 0;
        self.active.forget_ended();
        Ok(())
    }

    // Stops the running program, at its tenant's command.
    fn stop(&mut self) -> Result<(), Refusal>
        ensures unchanged { OnErr result (self.new ≡ self.old) }
        ensures tenancy { self.new.tenancy ≡ self.old.tenancy }
        ensures next_tick { self.new.row.next_tick ≡ self.old.row.next_tick }
        ensures room { result ≢ Err Refusal.Memory }
        ensures refused { IfErr result (λ r. (tenancy : Tenancy) → IsRefused self.old (commanded tenancy Command.Stop) r) }
        ensures stopped { OnOk result ((tenancy : Tenancy) → IsAnswered self.old (commanded tenancy Command.Stop) Reply.Stopped self.new) }
        ensures all_ended { OnOk result ((self.new.row.active ≡ []) × (self.new.ready.ended ≡ self.old.row.active)) }
    {
        if !self.is_running() {
            return Err(Refusal::NotRunning);
        }
        self.stop_with(Reason::Asked);
        Ok(())
    }
}
