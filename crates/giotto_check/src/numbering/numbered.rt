//! Ports by number, and expressions over these numbers.

ghost use Rattle.std.specs.Prelude.{◌≡◌, Some, None, IfOk, IsTrue};
ghost use Rattle.giotto_tasks.specs.Names.{is_among};
ghost use Rattle.giotto_tasks.specs.Trees.{expression_of};
ghost use Rattle.giotto_rules.specs.text.Depth.{is_shallow, has_shallow_guard};
ghost use Rattle.giotto_rules.specs.text.ProgramTrees.{guard_of};
ghost use Rattle.giotto_rules.specs.Declarations.{driver_ports, names_read};
ghost use Rattle.giotto_rules.specs.Reads.{names_in_guard};
ghost use Rattle.giotto_check.specs.cited.Facts.{DriversMayRead, ProgramFits};
ghost use Rattle.giotto_rules.specs.Ports.{slot_of};
ghost use Rattle.giotto_check.specs.cited.Timetables.{IsExpression, IsGuard};

use crate::timetables::SlotExpr;
use giotto_rules::declarations::driver_ports;
use giotto_rules::text::programs::Program;
use giotto_tasks::bodies::Expr;
use giotto_tasks::code::driver::DriverCode;
use giotto_tasks::faults::CodeFault;
use giotto_tasks::index::Index;
use giotto_tasks::names::Name;
use std::alloc::{AllocError, Global};
use std::marker::Model;

/// A well-formed program, with the names of its sensors, actuators and outputs. These are the first ports, in the order
/// of their slots.
#[derive(Drop)]
pub(crate) struct Numbered<'a> {
    pub(crate) alloc: Global,
    pub(crate) program: &'a Program,
    pub(crate) names: Index,
}

impl<'a> Model for Numbered<'a> {
    ghost use Rattle.giotto_rules.specs.text.Program.{GiottoProgram};
    ghost use Rattle.giotto_rules.specs.text.cited.ProgramCodes.{program_code};
    ghost use Rattle.giotto_check.specs.cited.Timetables.{AreDriverPorts};

    ghost Value = { GiottoProgram };

    ghost coded = { program_code };

    ghost view = { λ n. n.program.now };

    ghost invariant = { λ n. AreDriverPorts n.program.now n.names };
}

impl<'a> Numbered<'a> {
    /// Fails if an allocation fails.
    pub(crate) fn new(alloc: Global, program: &'a Program) -> Result<Numbered<'a>, AllocError>
        requires { ProgramFits program.now }
        ensures { IfOk result (λ n. n ≡ program.now) }
    {
        let names = Index::new(alloc, driver_ports(alloc, program)?)?;
        Ok(Numbered {
            alloc,
            program,
            names,
        })
    }
}

impl Numbered<'_> {
    /// The slot of a sensor, an actuator or an output.
    pub(crate) fn slot(&self, name: &Name) -> usize
        requires { IsTrue (is_among (driver_ports self.now) name.now) }
        ensures { slot_of self.now None name.now ≡ Some result }
    {
        match self.names.place(name) {
            Some(slot) => slot,
            None => unreachable!(),
        }
    }

    /// The expression over slots.
    pub(crate) fn expression(&self, e: &Expr) -> Result<SlotExpr, AllocError>
        requires reads { DriversMayRead self.now (names_read (expression_of e.now)) }
        requires shallow { IsTrue (is_shallow (expression_of e.now)) }
        ensures { IfOk result (λ c. IsExpression self.now (expression_of e.now) c) }
    {
        match DriverCode::new(self.alloc, e, &self.names) {
            Ok(code) => Ok(SlotExpr { code }),
            Err(CodeFault::Memory) => Err(AllocError),
            Err(CodeFault::TooDeep) => unreachable!(),
        }
    }

    /// The guard over slots, if there is one.
    pub(crate) fn guard(&self, guard: &Option<Expr>) -> Result<Option<SlotExpr>, AllocError>
        requires reads { DriversMayRead self.now (names_in_guard (guard_of guard.now)) }
        requires shallow { IsTrue (has_shallow_guard (guard_of guard.now)) }
        ensures { IfOk result (λ c. IsGuard self.now (guard_of guard.now) c) }
    {
        match guard {
            None => Ok(None),
            Some(e) => Ok(Some(self.expression(e)?)),
        }
    }
}
