//! Rule 2: each name is used as what it is declared as.

ghost use Rattle.std.specs.Prelude.{◌≡◌, map, IfOk};
ghost use Rattle.std.specs.List.{list_all};
ghost use Rattle.giotto_text.specs.ProgramTrees.{task_of, mode_of, update_of, switch_of, invocation_of};
ghost use Rattle.giotto_rules.specs.Declarations.{driver_ports};
ghost use Rattle.giotto_rules.specs.Kinds as spec;
ghost use Rattle.giotto_rules.specs.Rules as rules;

use crate::indexed::Indexed;
use crate::scopes::Scope;
use crate::{declarations, names, reads};
use giotto_tasks::bodies::Body;
use giotto_tasks::index::Index;
use giotto_text::programs::{Invocation, Mode, Program, Switch, Task, Update};
use std::alloc::{AllocError, Global};
use std::marker::Model;

// The names that a program declares, by what they may be used as.
#[derive(Drop)]
struct Kinds<'a> {
    actuators: &'a Index,
    outputs: &'a Index,
    tasks: &'a Index,
    modes: &'a Index,
    /// Sensors, actuators and outputs.
    ports: &'a Index,
}

impl<'a> Model for Kinds<'a> {
    ghost use Rattle.giotto_rules.specs.Kinds.{Kinds};

    ghost Value = { Kinds };

    ghost view = { λ k. record {
      actuators = k.actuators.now;
      outputs = k.outputs.now;
      tasks = k.tasks.now;
      modes = k.modes.now;
      ports = k.ports.now;
    } };
}

/// Whether tasks write only outputs, and modes name actuators, modes, outputs and tasks where the grammar requires
/// them, and read only sensors, actuators and outputs.
pub(crate) fn uses_right_kinds(alloc: Global, program: &Program) -> Result<bool, AllocError>
    ensures { IfOk result (λ holds. holds ≡ rules.uses_right_kinds program.now) }
{
    let program = Indexed::new(alloc, program)?;
    let ports = Index::new(alloc, declarations::driver_ports(alloc, program.program())?)?;
    uses_with_ports(alloc, &program, &ports)
}

// The same, with an index of the names that drivers may read.
fn uses_with_ports(alloc: Global, program: &Indexed, ports: &Index) -> Result<bool, AllocError>
    requires { ports.now ≡ driver_ports program.now }
    ensures { IfOk result (λ holds. holds ≡ rules.uses_right_kinds program.now) }
{
    let actuators = Index::new(
        alloc,
        declarations::actuator_names(alloc, program.program())?,
    )?;
    let outputs = Index::new(alloc, declarations::output_names(alloc, program.program())?)?;
    let kinds = Kinds {
        actuators: &actuators,
        outputs: &outputs,
        tasks: program.tasks_by_name(),
        modes: program.modes_by_name(),
        ports,
    };
    Ok(program_uses(&kinds, program.program()))
}

// Whether tasks and modes use each name as what it is declared as.
fn program_uses(kinds: &Kinds<'_>, program: &Program) -> bool
    ensures { result ≡ spec.program_uses kinds.now program.now }
{
    tasks_use(kinds, program.tasks()) && modes_use(kinds, program.modes())
}

fn tasks_use(kinds: &Kinds<'_>, tasks: &[Task]) -> bool
    ensures { result ≡ list_all (spec.task_uses kinds.now) (map task_of tasks.now) }
{
    for task in tasks {
        let body: &Body = &task.body;
        if !names::are_among(kinds.outputs, body.outputs.as_slice()) {
            return false;
        }
    }
    true
}

fn modes_use(kinds: &Kinds<'_>, modes: &[Mode]) -> bool
    ensures { result ≡ list_all (spec.mode_uses kinds.now) (map mode_of modes.now) }
{
    for mode in modes {
        if !mode_uses(kinds, mode) {
            return false;
        }
    }
    true
}

fn mode_uses(kinds: &Kinds<'_>, mode: &Mode) -> bool
    ensures { result ≡ spec.mode_uses kinds.now (mode_of mode.now) }
{
    updates_use(kinds, mode.updates.as_slice())
        && switches_use(kinds, mode.switches.as_slice())
        && invocations_use(kinds, mode.invocations.as_slice())
}

fn updates_use(kinds: &Kinds<'_>, updates: &[Update]) -> bool
    ensures { result ≡ list_all (spec.update_uses kinds.now) (map update_of updates.now) }
{
    for update in updates {
        if !(kinds.actuators.contains(&update.actuator)
            && reads::update_reads_only(&Scope::new(kinds.ports), update))
        {
            return false;
        }
    }
    true
}

fn switches_use(kinds: &Kinds<'_>, switches: &[Switch]) -> bool
    ensures { result ≡ list_all (spec.switch_uses kinds.now) (map switch_of switches.now) }
{
    for switch in switches {
        if !(kinds.modes.contains(&switch.target)
            && reads::switch_gives_only(kinds.outputs, switch)
            && reads::switch_reads_only(&Scope::new(kinds.ports), switch))
        {
            return false;
        }
    }
    true
}

fn invocations_use(kinds: &Kinds<'_>, invocations: &[Invocation]) -> bool
    ensures { result
        ≡ list_all (spec.invocation_uses kinds.now) (map invocation_of invocations.now) }
{
    for invocation in invocations {
        if !(kinds.tasks.contains(&invocation.task)
            && reads::invocation_reads_only(&Scope::new(kinds.ports), invocation))
        {
            return false;
        }
    }
    true
}
