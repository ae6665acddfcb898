//! Well-formed Giotto programs, checked and numbered.
//!
//! [`check`] checks that a program keeps the eleven rules. If it doesn't, `check` returns the first rule that it breaks
//! and the program:
//!
//! ```text
//! match check(alloc, program) {
//!     Ok(checked) => run(&checked),
//!     Err((program, fault)) => println!(rt; "{fault}")?,
//! }
//! ```
//!
//! A [`Checked`] program has its greatest cost, and its ports, tasks and modes by number: [`timetables`] has what an
//! instant needs of it. The rules, the order of the ports and the costs are those of the crate `giotto_rules`.
//! `specs/Slots.antt` says which map a list of values represents. In `specs/cited/`, `Facts.antt` says what follows
//! from the rules, `Slots.antt` at which slots values are, and `Timetables.antt` what the entries mean.
#![tactic(auto)]

ghost use Rattle.std.specs.Prelude.{◌≡◌, ◌<◌, ◌≤◌, ℕ, ◌-◌, ◌^◌, min, [], Some, None, IsOk, IfOk, IfErr, IsSomeAnd, length};
ghost use Rattle.std.specs.List.{slice_get};
ghost use Rattle.std.specs.Option.{option_map};
ghost use Rattle.giotto_rules.specs.text.Program.{ModeDeclaration};
ghost use Rattle.giotto_rules.specs.cited.KeepsRules.{KeepsRules};
ghost use Rattle.giotto_rules.specs.Rules.{first_broken_rule};
ghost use Rattle.giotto_rules.specs.Costs.{greatest_cost_of};
ghost use Rattle.giotto_check.specs.cited.Facts.{ProgramFits};
ghost use Rattle.giotto_rules.specs.Ports.{slot_of};
ghost use Rattle.giotto_check.specs.cited.Slots.{slots_of};
ghost use Rattle.giotto_check.specs.cited.Timetables.{AreEach, AreExits, AreInvocations, AreTaskSlots, AreUpdates, IsTimetable};
ghost use Rattle.giotto_check.specs.declared.CheckFault.{CheckFault};

mod greatest_cost;
pub mod laws;
mod numbering;
mod slots;
pub mod timetables;

use crate::greatest_cost::greatest_cost;
use crate::numbering::Numbering;
use crate::timetables::{SlotExit, SlotInvocation, SlotUpdate, TaskSlots, Timetable};
use giotto_rules::first_broken;
use giotto_rules::text::programs::Program;
use giotto_tasks::same::Same;
use std::alloc::{AllocError, Global};
use std::marker::Model;
use std::sync::Arc;
use thiserror::Error;

// The contents that all shares have in common.
#[derive(Drop)]
struct Contents {
    program: Program,
    cost: u64,
    numbering: Numbering,
}

impl Model for Contents {
    ghost use Rattle.giotto_rules.specs.text.Program.{GiottoProgram};
    ghost use Rattle.giotto_rules.specs.text.cited.ProgramCodes.{program_code};
    ghost use Rattle.giotto_check.specs.inner.Checked.{IsChecked};

    ghost Value = { GiottoProgram };

    ghost coded = { program_code };

    ghost view = { λ c. c.program };

    ghost invariant = { λ c. IsChecked c.program c.cost c.numbering };
}

impl Contents {
    // The timetable of the mode at this place.
    fn timetable(&self, mode: usize) -> Option<&Timetable>
        ensures there { (m : ModeDeclaration) → slice_get self.now.modes mode ≡ Some m → IsSomeAnd result (λ table. IsTimetable self.now m table.now) }
        ensures none { length self.now.modes ≤ mode → result ≡ None }
    {
        self.numbering.modes.get(mode)
    }
}

/// A well-formed program, with its greatest cost and what an instant needs of it. Sharing it copies nothing.
#[derive(Drop)]
pub struct Checked {
    contents: Arc<Contents, Global>,
}

impl Model for Checked {
    ghost use Rattle.std.specs.Arc.{arc_value};
    ghost use Rattle.giotto_rules.specs.text.Program.{GiottoProgram};
    ghost use Rattle.giotto_rules.specs.text.cited.ProgramCodes.{program_code};

    ghost Value = { GiottoProgram };

    ghost coded = { program_code };

    ghost view = { λ c. arc_value c.contents };
}

/// Why a program is refused.
#[derive(Clone, Copy, Debug, PartialEq, Eq, Error)]
pub enum CheckFault {
    /// The program breaks this rule, the first that it breaks: 1 to 11.
    #[error("the program breaks rule {0}")]
    Rule(usize),
    /// Out of memory.
    #[error("no memory for the check of the program")]
    Memory,
}

impl Same for Checked {
    fn is_same(&self, other: &Checked) -> bool {
        self.program().is_same(other.program())
    }
}

impl Checked {
    /// The program.
    pub fn program(&self) -> &Program
        ensures tree { result.now ≡ self.now }
        ensures rules { KeepsRules self.now }
        ensures fits { ProgramFits self.now }
    {
        let contents: &Contents = &self.contents;
        &contents.program
    }

    /// Opens the invariant of the type for a proof. Does nothing at run time.
    #[inline(always)]
    pub fn known(&self)
        ensures rules { KeepsRules self.now }
        ensures fits { ProgramFits self.now }
        ensures countable { slots_of self.now < 2 ^ 64 }
    {
        let _program = self.program();
        let _slots = self.slots();
    }

    /// A share of the same program.
    ///
    /// # Errors
    /// A new share can't be made.
    pub fn share(&self) -> Result<Checked, AllocError>
        ensures { IfOk result (λ c. c ≡ self.now) }
    {
        Ok(Checked {
            contents: Arc::try_clone(&self.contents)?,
        })
    }

    /// The greatest cost over the program's bodies and drivers, in steps: `u64::MAX` if it is greater, and 0 if there
    /// are none.
    pub fn greatest_cost(&self) -> u64
        ensures { result ≡ min (greatest_cost_of self.now) (2 ^ 64 - 1) }
    {
        let contents: &Contents = &self.contents;
        contents.cost
    }

    /// The number of ports. Their slots are the numbers below it.
    pub fn slots(&self) -> usize
        ensures { result ≡ slots_of self.now }
    {
        let contents: &Contents = &self.contents;
        contents.numbering.slots
    }

    /// The slot of a port: an input or a state of `task`, or a sensor, an actuator or an output if no task is given.
    /// `None` if there is no such port.
    pub fn slot(&self, task: Option<&str>, name: &str) -> Option<usize>
        ensures { result ≡ slot_of self.now (option_map (λ t. t.now) task.entry) name.now }
    {
        // The slots can be counted, so no sum below is too large.
        self.known();
        slots::slot(self.program(), task, name)
    }

    /// The slots of each task's ports, in text order.
    pub fn tasks(&self) -> &[TaskSlots]
        ensures { AreEach (AreTaskSlots self.now) self.now.tasks result.now }
    {
        let contents: &Contents = &self.contents;
        contents.numbering.tasks.as_slice()
    }

    /// The updates of the mode at this place, in text order; none if there is no such mode.
    pub fn updates(&self, mode: usize) -> &[SlotUpdate]
        ensures there { (m : ModeDeclaration) → slice_get self.now.modes mode ≡ Some m → AreUpdates self.now m result.now }
        ensures none { length self.now.modes ≤ mode → result.now ≡ [] }
    {
        let contents: &Contents = &self.contents;
        match contents.timetable(mode) {
            Some(table) => table.updates.as_slice(),
            None => &[],
        }
    }

    /// The exits of the mode at this place, in text order; none if there is no such mode.
    pub fn exits(&self, mode: usize) -> &[SlotExit]
        ensures there { (m : ModeDeclaration) → slice_get self.now.modes mode ≡ Some m → AreExits self.now m result.now }
        ensures none { length self.now.modes ≤ mode → result.now ≡ [] }
    {
        let contents: &Contents = &self.contents;
        match contents.timetable(mode) {
            Some(table) => table.exits.as_slice(),
            None => &[],
        }
    }

    /// The invocations of the mode at this place, in text order; none if there is no such mode.
    pub fn invocations(&self, mode: usize) -> &[SlotInvocation]
        ensures there { (m : ModeDeclaration) → slice_get self.now.modes mode ≡ Some m → AreInvocations self.now m result.now }
        ensures none { length self.now.modes ≤ mode → result.now ≡ [] }
    {
        let contents: &Contents = &self.contents;
        match contents.timetable(mode) {
            Some(table) => table.invocations.as_slice(),
            None => &[],
        }
    }
}

// What the rules say about a program that breaks none of them.
fn fits(program: &Program)
    requires { first_broken_rule program.now ≡ None }
    ensures rules { KeepsRules program.now }
    ensures fits { ProgramFits program.now }
{
    program.known();
    giotto_rules::text::laws::shallow();
}

/// Checks a program: returns it as checked if it keeps the eleven rules.
///
/// # Errors
/// Returns the unchanged program, with `Rule` and the first rule that it breaks, or with `Memory` if an allocation
/// fails.
pub fn check(alloc: Global, program: Program) -> Result<Checked, (Program, CheckFault)>
    ensures checked { IfOk result (λ c. c ≡ program) }
    ensures kept { IsOk result → first_broken_rule program ≡ None }
    ensures back { IfErr result (λ refused. refused.0 ≡ program) }
    ensures rule { IfErr result (λ refused. (n : ℕ) → refused.1 ≡ CheckFault.Rule n → first_broken_rule program ≡ Some n) }
{
    match first_broken(alloc, &program) {
        Ok(None) => {}
        Ok(Some(rule)) => return Err((program, CheckFault::Rule(rule))),
        Err(_) => return Err((program, CheckFault::Memory)),
    }
    fits(&program);
    let Ok(numbering) = Numbering::new(alloc, &program) else {
        return Err((program, CheckFault::Memory));
    };
    let cost = greatest_cost(&program);
    let contents = Contents {
        program,
        cost,
        numbering,
    };
    match Arc::new(alloc, contents) {
        Ok(contents) => Ok(Checked { contents }),
        Err(refused) => Err((refused.value.program, CheckFault::Memory)),
    }
}
