//! Rule 1: names and lines are declared once.

ghost use Rattle.std.specs.Prelude.{◌≡◌, ◌++◌, map, IfOk};
ghost use Rattle.giotto_tasks.specs.Sound as sound;
ghost use Rattle.giotto_text.specs.Program.{body_of};
ghost use Rattle.giotto_text.specs.ProgramTrees.{task_of};
ghost use Rattle.giotto_rules.specs.Rules as rules;
ghost use Rattle.giotto_rules.specs.TaskPorts.{declares_own, keeps_own, tasks_declare_own};

use crate::{declarations, names};
use giotto_tasks::bodies::Body;
use giotto_tasks::index::Index;
use giotto_text::programs::{Program, Task};
use std::alloc::{AllocError, Global};

/// Whether names and lines are declared once.
pub(crate) fn declares_once(alloc: Global, program: &Program) -> Result<bool, AllocError>
    ensures { IfOk result (λ holds. holds ≡ rules.declares_once program.now) }
{
    Ok(names_declared_once(alloc, program)? && lines_declared_once(alloc, program)?)
}

fn names_declared_once(alloc: Global, program: &Program) -> Result<bool, AllocError>
    ensures { IfOk result (λ holds. holds ≡ rules.declares_names_once program.now) }
{
    let declared = Index::new(alloc, declarations::declared_names(alloc, program)?)?;
    if !declared.all_different() {
        return Ok(false);
    }
    tasks_declare_own(alloc, &declared, program.tasks())
}

fn lines_declared_once(alloc: Global, program: &Program) -> Result<bool, AllocError>
    ensures { IfOk result (λ holds. holds ≡ rules.drives_lines_once program.now) }
{
    let lines = declarations::lines_written(alloc, program)?;
    Ok(names::all_different_numbers(&lines))
}

// Whether each task's ports are different, and none of its inputs and states is a declared name.
fn tasks_declare_own(alloc: Global, declared: &Index, tasks: &[Task]) -> Result<bool, AllocError>
    ensures { IfOk result
        (λ holds. holds ≡ tasks_declare_own declared.now (map task_of tasks.now)) }
{
    for task in tasks {
        if !task_declares_own(alloc, declared, task)? {
            return Ok(false);
        }
    }
    Ok(true)
}

fn task_declares_own(alloc: Global, declared: &Index, task: &Task) -> Result<bool, AllocError>
    ensures { IfOk result
        (λ holds. holds ≡ declares_own declared.now (body_of (task_of task.now))) }
{
    let body: &Body = &task.body;
    body_declares_own(alloc, declared, body)
}

fn body_declares_own(alloc: Global, declared: &Index, body: &Body) -> Result<bool, AllocError>
    ensures { IfOk result (λ holds. holds ≡ declares_own declared.now body.now) }
{
    Ok(outputs_are_different(alloc, body)? && inputs_and_states_are_own(alloc, declared, body)?)
}

fn outputs_are_different(alloc: Global, body: &Body) -> Result<bool, AllocError>
    ensures { IfOk result (λ holds. holds ≡ sound.all_different body.now.outputs) }
{
    let mut outputs = Vec::new(alloc);
    names::push_names(&mut outputs, body.outputs.as_slice())?;
    Ok(Index::new(alloc, outputs)?.all_different())
}

// Whether inputs and states are different, and none of them is a declared name.
fn inputs_and_states_are_own(
    alloc: Global,
    declared: &Index,
    body: &Body,
) -> Result<bool, AllocError>
    ensures { IfOk result
        (λ holds. holds ≡ keeps_own declared.now (body.now.inputs ++ body.now.states)) }
{
    let mut own = Vec::new(alloc);
    names::push_names(&mut own, body.inputs.as_slice())?;
    names::push_names(&mut own, body.states.as_slice())?;
    let apart = names::share_none(declared, &own);
    Ok(Index::new(alloc, own)?.all_different() && apart)
}
