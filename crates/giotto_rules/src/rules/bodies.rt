//! Rule 3: a body uses only its task's ports.

ghost use Rattle.std.specs.Prelude.{◌≡◌, IfOk};
ghost use Rattle.giotto_tasks.specs.Names.{is_among};
ghost use Rattle.giotto_tasks.specs.Sound as sound;
ghost use Rattle.giotto_tasks.specs.Trees.{statement_of, block_of};
ghost use Rattle.giotto_text.specs.Program.{body_of};
ghost use Rattle.giotto_text.specs.ProgramTrees.{task_of};
ghost use Rattle.giotto_rules.specs.Rules as rules;
ghost use Rattle.giotto_rules.specs.TaskPorts.{assigns_own_ports, reads_own_ports, uses_own_ports};

use crate::names;
use crate::reads::reads_only;
use crate::scopes::Scope;
use giotto_tasks::bodies::{Body, Stmt};
use giotto_tasks::index::Index;
use giotto_text::programs::{Program, Task};
use std::alloc::{AllocError, Global};

/// Whether each body reads only its task's ports, and assigns only the task's outputs and states.
pub(crate) fn bodies_use_own_ports(alloc: Global, program: &Program) -> Result<bool, AllocError>
    ensures { IfOk result (λ holds. holds ≡ rules.bodies_use_own_ports program.now) }
{
    for task in program.tasks() {
        if !task_uses_own_ports(alloc, task)? {
            return Ok(false);
        }
    }
    Ok(true)
}

fn task_uses_own_ports(alloc: Global, task: &Task) -> Result<bool, AllocError>
    ensures { IfOk result (λ holds. holds ≡ uses_own_ports (body_of (task_of task.now))) }
{
    let body: &Body = &task.body;
    body_uses_own_ports(alloc, body)
}

fn body_uses_own_ports(alloc: Global, body: &Body) -> Result<bool, AllocError>
    ensures { IfOk result (λ holds. holds ≡ uses_own_ports body.now) }
{
    Ok(body_reads_own_ports(alloc, body)? && body_assigns_own_ports(alloc, body)?)
}

fn body_reads_own_ports(alloc: Global, body: &Body) -> Result<bool, AllocError>
    ensures { IfOk result (λ holds. holds ≡ reads_own_ports body.now) }
{
    let mut ports = Vec::new(alloc);
    names::push_names(&mut ports, body.inputs.as_slice())?;
    names::push_names(&mut ports, body.states.as_slice())?;
    names::push_names(&mut ports, body.outputs.as_slice())?;
    let ports = Index::new(alloc, ports)?;
    Ok(block_reads_only(&Scope::new(&ports), &body.block))
}

fn body_assigns_own_ports(alloc: Global, body: &Body) -> Result<bool, AllocError>
    ensures { IfOk result (λ holds. holds ≡ assigns_own_ports body.now) }
{
    let mut ports = Vec::new(alloc);
    names::push_names(&mut ports, body.outputs.as_slice())?;
    names::push_names(&mut ports, body.states.as_slice())?;
    let ports = Index::new(alloc, ports)?;
    Ok(block_assigns_only(&ports, &body.block))
}

#[cycle(reads)]
fn statement_reads_only(names: &Scope, s: &Stmt) -> bool
    ensures { result ≡ sound.statement_reads_only (is_among names.now) (statement_of s.now) }
{
    match s {
        Stmt::Assign(_, e) => reads_only(names, e),
        Stmt::If(c, a, b) => {
            reads_only(names, c) && block_reads_only(names, a) && block_reads_only(names, b)
        }
        Stmt::Repeat(_, block) => block_reads_only(names, block),
    }
}

#[cycle(reads)]
fn block_reads_only(names: &Scope, block: &[Stmt]) -> bool
    ensures { result ≡ sound.block_reads_only (is_among names.now) (block_of block.now) }
{
    for s in block {
        if !statement_reads_only(names, s) {
            return false;
        }
    }
    true
}

#[cycle(assigns)]
fn statement_assigns_only(names: &Index, s: &Stmt) -> bool
    ensures { result ≡ sound.statement_assigns_only (is_among names.now) (statement_of s.now) }
{
    match s {
        Stmt::Assign(name, _) => names.contains(name),
        Stmt::If(_, a, b) => block_assigns_only(names, a) && block_assigns_only(names, b),
        Stmt::Repeat(_, block) => block_assigns_only(names, block),
    }
}

#[cycle(assigns)]
fn block_assigns_only(names: &Index, block: &[Stmt]) -> bool
    ensures { result ≡ sound.block_assigns_only (is_among names.now) (block_of block.now) }
{
    for s in block {
        if !statement_assigns_only(names, s) {
            return false;
        }
    }
    true
}
