//! A program that replaces the running one when its mode's period ends.

ghost use Rattle.std.specs.Prelude.{◌≡◌, ◌≢◌, [], true, None, Some, is_some, IfErr, IfOk, OnErr, OnOk, IfSome, map};
ghost use Rattle.std.specs.Arc.{arc_value};
ghost use Rattle.std.specs.List.{list_all};
ghost use Rattle.std.specs.Option.{option_map};
ghost use Rattle.tenant_slots.specs.well_formed.cited.Timetables.{AreEach};
ghost use Rattle.rig_model.specs.declared.lines.commands.Command.{Command};
ghost use Rattle.rig_model.specs.declared.lines.replies.Refusal.{Refusal};
ghost use Rattle.rig_model.specs.declared.lines.replies.Reply.{Reply};
ghost use Rattle.rig_model.specs.Commands.{commanded, replace_kept};
ghost use Rattle.rig_model.specs.FirstHalf.{due_tasks};
ghost use Rattle.rig_model.specs.Row.{Row, is_running};
ghost use Rattle.rig_model.specs.SecondHalf.{installed, replaced_if_due};
ghost use Rattle.tenant_programs.specs.cited.Prepared.{IsReadingOf};
ghost use Rattle.tenant_state.specs.Standing.{StandsFor, most_released};
ghost use Rattle.tenant_state.specs.cited.Standing.{AreTasksKept, IsAnswered, IsBehind, IsRefused, IsSettled};
ghost use Rattle.tenant_state.specs.inner.Tenants.{IsBeginning, IsShareOf, IsWaitingFor};
ghost use Rattle.tenant_slots.specs.cited.Replacement.{IsCarryTable};

use crate::tenants::Tenant;
use crate::tenants::readiness::share_bodies;
use giotto_check::Checked;
use giotto_tasks::bodies::Body;
use rig_model::lines::replies::Refusal;
use rig_model::trace::records::Happening;
use std::alloc::{AllocError, Global};
use std::sync::Arc;
use tenant_programs::budgets::broken_budget;
use tenant_programs::prepared::{Reading, program_by_reading};
use tenant_slots::beginning::{initial_values, no_shares};
use tenant_slots::names::{mode_name, start_place};
use tenant_slots::replacement::{Carried, carried_slots, carry_over};

/// What a program begins with: the value of each port, by its slot, and a place for a share of each task's body.
#[derive(Drop)]
pub(crate) struct Beginning {
    pub(crate) values: Vec<i64>,
    pub(crate) shares: Vec<Option<Arc<Body, Global>>>,
}

/// A waiting program, with all that its installation needs.
#[derive(Drop)]
pub(crate) struct Waiting {
    pub(crate) program: Checked,
    pub(crate) beginning: Beginning,
    /// The ports that keep their values, with their slots in the running program and in this one.
    pub(crate) carried: Vec<Carried>,
}

impl Tenant {
    // Keeps the program that the text spells until it is installed, in place of one that waited. `reading` is the result of
    // reading the text. All memory, also that for the installation, is taken before the first change.
    pub(crate) fn replace(
        &mut self,
        text: &str,
        reading: Reading,
        left: &mut Option<Checked>,
    ) -> Result<(), Refusal>
        requires reading { IsReadingOf text.now reading }
        ensures unchanged { OnErr result (self.new ≡ self.old) }
        ensures tenancy { self.new.tenancy ≡ self.old.tenancy }
        ensures next_tick { self.new.row.next_tick ≡ self.old.row.next_tick }
        ensures refused { IfErr result (λ r. r ≢ Refusal.Memory → IsRefused self.old (commanded self.old.tenancy (Command.Replace text.now)) r) }
        ensures replaced { OnOk result (IsAnswered self.old (commanded self.old.tenancy (Command.Replace text.now)) Reply.Replaced self.new) }
        ensures tasks { AreTasksKept self.old self.new }
        ensures ended { self.new.ready.ended ≡ self.old.ready.ended }
    {
        let program = program_by_reading(self.alloc, text, reading)?;
        match self.needs(text.len(), &program) {
            Ok((beginning, carried)) => {
                *left = self.wait(Waiting {
                    program,
                    beginning,
                    carried,
                });
                Ok(())
            }
            Err(refusal) => {
                *left = Some(program);
                Err(refusal)
            }
        }
    }

    // What a program needs to replace the running one, if it may. `bytes` is the length of its text.
    fn needs(&self, bytes: usize, program: &Checked) -> Result<(Beginning, Vec<Carried>), Refusal>
        ensures refused { IfErr result (λ r. r ≢ Refusal.Memory → IsRefused self.now (replace_kept self.now.tenancy.budgets bytes program.now) r) }
        ensures kept { OnOk result ((row : Row) → StandsFor self.now row
            → replace_kept self.now.tenancy.budgets bytes program.now row ≡ record { row = record row { waiting = Some program.now }; reply = Reply.Replaced }) }
        ensures begins { IfOk result (λ n. IsBeginning program.now n.0) }
        ensures keeps { IfOk result (λ n. IfSome self.now.row.program (λ p. IsCarryTable p program.now n.1.items)) }
    {
        if !self.is_running() {
            return Err(Refusal::NotRunning);
        }
        if let Some(budget) = broken_budget(&self.budgets, bytes, program) {
            return Err(Refusal::OverBudget(budget));
        }
        let beginning = beginning_of(self.alloc, program)?;
        let carried = self.carried_to(program)?;
        Ok((beginning, carried))
    }

    // The ports of a program that keep the values of the running one.
    fn carried_to(&self, program: &Checked) -> Result<Vec<Carried>, Refusal>
        ensures refused { IfErr result (λ r. r ≡ Refusal.Memory) }
        ensures keeps { IfOk result (λ table. IfSome self.now.row.program (λ p. IsCarryTable p program.now table.items)) }
    {
        match &self.program {
            Some(running) => Ok(carried_slots(self.alloc, running, program)?),
            None => Ok(Vec::new(self.alloc)),
        }
    }

    // Makes a program wait, in place of one that waited. Returns the one that waited.
    fn wait(&mut self, waiting: Waiting) -> Option<Checked>
        requires fits { IsWaitingFor self.old.row.program waiting }
        ensures step { IsBehind self.old (λ row. record row { waiting = Some waiting.program }) self.new }
        ensures tenancy { self.new.tenancy ≡ self.old.tenancy }
        ensures next_tick { self.new.row.next_tick ≡ self.old.row.next_tick }
        ensures tasks { AreTasksKept self.old self.new }
        ensures ended { self.new.ready.ended ≡ self.old.ready.ended }
    {
        let before = self.waiting.replace(waiting)?;
        Some(before.program)
    }

    // Installs the waiting program, if there is one, at the end of the mode's period. Takes no memory.
    pub(crate) fn install_waiting(&mut self)
        requires begins { self.old.row.mode_time ≡ 0 }
        requires running { is_running self.old.row ≡ true }
        requires rest { self.old.ready.ended ≡ [] }
        requires ended_due { due_tasks self.old.row ≡ [] }
        ensures step { IsBehind self.old replaced_if_due self.new }
        ensures active { self.new.row.active ≡ self.old.row.active }
        ensures none_active { self.old.row.active ≡ [] }
        ensures ended { self.new.ready.ended ≡ [] }
        ensures room { self.new.ready.room ≡ self.old.ready.room }
        ensures shared { self.old.ready.shared ≡ true → self.new.ready.shared ≡ true }
        ensures tenancy { self.new.tenancy ≡ self.old.tenancy }
        ensures offers { self.new.row.offers ≡ self.old.row.offers }
        ensures binds { self.new.row.binds ≡ self.old.row.binds }
        ensures next_tick { self.new.row.next_tick ≡ self.old.row.next_tick }
        ensures running { is_running self.new.row ≡ true }
        ensures settled { IsSettled self.new.row }
        ensures most { most_released self.new.row ≡ most_released self.old.row }
    {
        let Some(old) = &self.program else {
            return;
        };
        // Frequencies are positive.
        old.known();
        // Usually no program waits, and then nothing has to be moved.
        if self.waiting.is_none() {
            return;
        }
        let Some(waiting) = self.waiting.take() else {
            return;
        };
        self.put_in_place(waiting);
    }

    // Makes a program that waited the tenant's program, at its beginning.
    fn put_in_place(&mut self, waiting: Waiting)
        requires fits { IsWaitingFor self.old.row.program waiting }
        requires loaded { is_some self.old.row.program ≡ true }
        requires waits { self.old.row.waiting ≡ None }
        requires none_active { self.old.row.active ≡ [] }
        requires running { is_running self.old.row ≡ true }
        requires rest { self.old.ready.ended ≡ [] }
        ensures step { IsBehind self.old (installed waiting.program) self.new }
        ensures active { self.new.row.active ≡ [] }
        ensures ended { self.new.ready.ended ≡ [] }
        ensures room { self.new.ready.room ≡ self.old.ready.room }
        ensures shared { list_all is_some waiting.beginning.shares.items ≡ true → self.new.ready.shared ≡ true }
        ensures tenancy { self.new.tenancy ≡ self.old.tenancy }
        ensures offers { self.new.row.offers ≡ self.old.row.offers }
        ensures binds { self.new.row.binds ≡ self.old.row.binds }
        ensures next_tick { self.new.row.next_tick ≡ self.old.row.next_tick }
        ensures running { is_running self.new.row ≡ true }
        ensures none_waits { self.new.row.waiting ≡ None }
    {
        let Waiting {
            program,
            beginning,
            carried,
        } = waiting;
        let Beginning { mut values, shares } = beginning;
        carry_over(
            carried.as_slice(),
            self.values.as_slice(),
            values.as_mut_slice(),
        );
        let mode = start_place(&program);
        let name = mode_name(&program, mode);
        self.trace.note(self.next_tick, Happening::Replaced(name));
        self.mode = mode;
        self.mode_time = 0;
        self.next_due = 0;
        self.values = values;
        self.shares = shares;
        drop(self.program.replace(program));
    }
}

impl Waiting {
    // Makes each share that is missing.
    pub(crate) fn share(&mut self) -> Result<(), AllocError>
        requires { AreEach IsShareOf self.old.program.tasks (map (option_map arc_value) self.old.beginning.shares.items) }
        ensures shared { OnOk result (list_all is_some self.new.beginning.shares.items ≡ true) }
        ensures shares { AreEach IsShareOf self.new.program.tasks (map (option_map arc_value) self.new.beginning.shares.items) }
        ensures program { self.new.program ≡ self.old.program }
        ensures values { self.new.beginning.values ≡ self.old.beginning.values }
        ensures carried { self.new.carried ≡ self.old.carried }
    {
        let tasks = self.program.program().tasks();
        share_bodies(tasks, self.beginning.shares.as_mut_slice())
    }
}

// What a program begins with.
pub(crate) fn beginning_of(alloc: Global, program: &Checked) -> Result<Beginning, Refusal>
    ensures refused { IfErr result (λ r. r ≡ Refusal.Memory) }
    ensures begins { IfOk result (IsBeginning program.now) }
{
    let values = initial_values(alloc, program)?;
    let shares = no_shares(alloc, program.program().tasks())?;
    Ok(Beginning { values, shares })
}
