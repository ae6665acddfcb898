//! Rules 5, 6 and 8: a mode invokes a task once, two tasks of a mode share no output, and an invocation has an argument
//! for each input.

ghost use Rattle.std.specs.Prelude.{◌≡◌, map, IfOk};
ghost use Rattle.std.specs.List.{list_all};
ghost use Rattle.giotto_tasks.specs.Sound as sound;
ghost use Rattle.giotto_text.specs.ProgramTrees.{mode_of, invocation_of};
ghost use Rattle.giotto_rules.specs.Declarations as declared;
ghost use Rattle.giotto_rules.specs.Invocations.{argument_for_each_input};
ghost use Rattle.giotto_rules.specs.Rules as rules;

use crate::declarations;
use crate::indexed::Indexed;
use giotto_tasks::bodies::Body;
use giotto_tasks::index::Index;
use giotto_text::programs::{Invocation, Mode, Program};
use std::alloc::{AllocError, Global};

/// Whether each mode invokes a task once.
pub(crate) fn invokes_once(alloc: Global, program: &Program) -> Result<bool, AllocError>
    ensures { IfOk result (λ holds. holds ≡ rules.invokes_once program.now) }
{
    for mode in program.modes() {
        if !mode_invokes_once(alloc, mode)? {
            return Ok(false);
        }
    }
    Ok(true)
}

fn mode_invokes_once(alloc: Global, mode: &Mode) -> Result<bool, AllocError>
    ensures { IfOk result
        (λ holds. holds ≡ sound.all_different (declared.invoked_tasks (mode_of mode.now))) }
{
    let tasks = declarations::invoked_tasks(alloc, mode)?;
    Ok(Index::new(alloc, tasks)?.all_different())
}

/// The ports of each mode, in text order.
pub(crate) fn ports_of_modes(alloc: Global, program: &Indexed) -> Result<Vec<Index>, AllocError>
    ensures { IfOk result
        (λ ports. ports.items ≡ map (declared.mode_ports program.now) program.now.modes) }
{
    let mut each = Vec::new(alloc);
    for mode in program.modes() {
        each.push(ports_of_mode(alloc, program, mode)?)?;
    }
    Ok(each)
}

fn ports_of_mode(alloc: Global, program: &Indexed, mode: &Mode) -> Result<Index, AllocError>
    ensures { IfOk result (λ ports. ports ≡ declared.mode_ports program.now (mode_of mode.now)) }
{
    let ports = declarations::mode_ports(alloc, program, mode)?;
    Index::new(alloc, ports)
}

/// Whether two tasks of a mode share no output, given the ports of each mode.
pub(crate) fn tasks_share_no_output(program: &Indexed, ports: &[Index]) -> bool
    requires { ports.now ≡ map (declared.mode_ports program.now) program.now.modes }
    ensures { result ≡ rules.tasks_share_no_output program.now }
{
    each_all_different(ports)
}

fn each_all_different(lists: &[Index]) -> bool
    ensures { result ≡ list_all sound.all_different lists.now }
{
    for names in lists {
        if !names.all_different() {
            return false;
        }
    }
    true
}

/// Whether each invocation has an argument for each input of its task.
pub(crate) fn arguments_fit(program: &Indexed) -> bool
    ensures { result ≡ rules.arguments_fit program.now }
{
    for mode in program.modes() {
        if !invocations_fit(program, mode.invocations.as_slice()) {
            return false;
        }
    }
    true
}

fn invocations_fit(program: &Indexed, invocations: &[Invocation]) -> bool
    ensures { result
        ≡ list_all (argument_for_each_input program.now) (map invocation_of invocations.now) }
{
    for invocation in invocations {
        if !invocation_fits(program, invocation) {
            return false;
        }
    }
    true
}

fn invocation_fits(program: &Indexed, invocation: &Invocation) -> bool
    ensures { result ≡ argument_for_each_input program.now (invocation_of invocation.now) }
{
    match program.task(&invocation.task) {
        Some(task) => {
            let body: &Body = &task.body;
            invocation.arguments.as_slice().len() == body.inputs.as_slice().len()
        }
        None => false,
    }
}
