//! A program with lookup of tasks and modes by name.

ghost use Rattle.std.specs.Prelude.{◌≡◌, map, Some, None, IfOk, IfSome};
ghost use Rattle.giotto_text.specs.ProgramTrees.{mode_of, task_of};
ghost use Rattle.giotto_rules.specs.Declarations as declared;
ghost use Rattle.giotto_tasks.specs.cited.Places.{place_from};

use crate::declarations;
use giotto_tasks::index::Index;
use giotto_tasks::names::Name;
use giotto_text::programs::{Mode, Program, Task};
use std::alloc::{AllocError, Global};
use std::marker::Model;

// A program, and the places of its tasks and modes. Contracts see it as the program.
#[derive(Drop)]
pub(crate) struct Indexed<'a> {
    program: &'a Program,
    tasks: Index,
    modes: Index,
}

impl<'a> Model for Indexed<'a> {
    ghost use Rattle.std.specs.Prelude.{◌≡◌};
    ghost use Rattle.giotto_text.specs.Program.{GiottoProgram};
    ghost use Rattle.giotto_text.specs.cited.ProgramCodes.{program_code};
    ghost use Rattle.giotto_rules.specs.Declarations.{task_names, mode_names};

    ghost Value = { GiottoProgram };

    ghost coded = { program_code };

    ghost view = { λ p. p.program.now };

    ghost invariant = { λ p. (p.tasks ≡ task_names p.program.now) × (p.modes ≡ mode_names p.program.now) };
}

impl<'a> Indexed<'a> {
    /// The program, with the places of its tasks and modes.
    pub(crate) fn new(alloc: Global, program: &'a Program) -> Result<Indexed<'a>, AllocError>
        ensures { IfOk result (λ p. p ≡ program.now) }
    {
        Ok(Indexed {
            program,
            tasks: Index::new(alloc, declarations::task_names(alloc, program)?)?,
            modes: Index::new(alloc, declarations::mode_names(alloc, program)?)?,
        })
    }

    /// The program itself.
    pub(crate) fn program(&self) -> &Program
        ensures { result.now ≡ self.now }
    {
        self.program
    }

    /// The modes, in text order.
    pub(crate) fn modes(&self) -> &[Mode]
        ensures { map mode_of result.now ≡ self.now.modes }
    {
        self.program.modes()
    }

    /// The names of the tasks.
    pub(crate) fn tasks_by_name(&self) -> &Index
        ensures { result.now ≡ declared.task_names self.now }
    {
        &self.tasks
    }

    /// The names of the modes.
    pub(crate) fn modes_by_name(&self) -> &Index
        ensures { result.now ≡ declared.mode_names self.now }
    {
        &self.modes
    }

    /// The task with this name.
    pub(crate) fn task(&self, name: &Name) -> Option<&Task>
        ensures found { IfSome result
            (λ t. declared.task_named self.now name.now ≡ Some (task_of t.now)) }
        ensures missing { result ≡ None → declared.task_named self.now name.now ≡ None }
    {
        match self.tasks.place(name) {
            Some(place) => self.program.tasks().get(place),
            None => None,
        }
    }

    /// The place of the task with this name among the tasks, counted from 0.
    pub(crate) fn place_of_task(&self, name: &Name) -> Option<usize>
        ensures { result ≡ place_from 0 (declared.task_names self.now) name.now }
    {
        self.tasks.place(name)
    }

    /// The place of the mode with this name among the modes, counted from 0.
    pub(crate) fn place_of_mode(&self, name: &Name) -> Option<usize>
        ensures { result ≡ place_from 0 (declared.mode_names self.now) name.now }
    {
        self.modes.place(name)
    }
}
