//! The names that expressions, guards and the drivers of a mode (updates, switches and invocations) read.

ghost use Rattle.std.specs.Prelude.{◌≡◌, map};
ghost use Rattle.giotto_tasks.specs.Names as tasks;
ghost use Rattle.giotto_tasks.specs.Sound as sound;
ghost use Rattle.giotto_tasks.specs.Trees.{expression_of, primary_of};
ghost use Rattle.giotto_text.specs.ProgramTrees.{guard_of, update_of, switch_of, invocation_of, destination_of};
ghost use Rattle.giotto_rules.specs.Declarations.{names_read, destinations_of};
ghost use Rattle.giotto_rules.specs.Names.{are_among};
ghost use Rattle.giotto_rules.specs.Reads.{names_in_guard, names_in_destinations, names_in_arguments, names_in_update, names_in_switch, names_in_invocation};

use crate::scopes::Scope;
use giotto_tasks::bodies::{Expr, Primary};
use giotto_tasks::index::Index;
use giotto_text::programs::{Destination, Invocation, Switch, Update};

/// Whether an expression reads only these names.
#[cycle(expressions)]
pub(crate) fn reads_only(names: &Scope, e: &Expr) -> bool
    ensures body { result ≡ sound.reads_only (tasks.is_among names.now) (expression_of e.now) }
    ensures driver { result ≡ are_among names.now (names_read (expression_of e.now)) }
{
    match e {
        Expr::Number(_) => true,
        Expr::Port(name) => names.contains(name),
        Expr::Unary(_, a) => primary_reads_only(names, a),
        Expr::Binary(_, a, b) => primary_reads_only(names, a) && primary_reads_only(names, b),
    }
}

#[cycle(expressions)]
fn primary_reads_only(names: &Scope, primary: &Primary) -> bool
    ensures body { result ≡ sound.reads_only (tasks.is_among names.now) (primary_of primary.now) }
    ensures driver { result ≡ are_among names.now (names_read (primary_of primary.now)) }
{
    match primary {
        Primary::Number(_) => true,
        Primary::Port(name) => names.contains(name),
        Primary::Nested(e) => reads_only(names, e),
    }
}

/// Whether a guard, if there is one, reads only these names.
pub(crate) fn guard_reads_only(names: &Scope, guard: &Option<Expr>) -> bool
    ensures { result ≡ are_among names.now (names_in_guard (guard_of guard.now)) }
{
    match guard {
        Some(e) => reads_only(names, e),
        None => true,
    }
}

/// Whether an update reads only these names.
pub(crate) fn update_reads_only(names: &Scope, update: &Update) -> bool
    ensures { result ≡ are_among names.now (names_in_update (update_of update.now)) }
{
    guard_reads_only(names, &update.guard) && reads_only(names, &update.value)
}

/// Whether a switch reads only these names.
pub(crate) fn switch_reads_only(names: &Scope, switch: &Switch) -> bool
    ensures { result ≡ are_among names.now (names_in_switch (switch_of switch.now)) }
{
    guard_reads_only(names, &switch.guard)
        && destinations_read_only(names, switch.destinations.as_slice())
}

/// Whether a switch gives values only to these names.
pub(crate) fn switch_gives_only(names: &Index, switch: &Switch) -> bool
    ensures { result ≡ are_among names.now (destinations_of (switch_of switch.now)) }
{
    for destination in switch.destinations.as_slice() {
        if !names.contains(&destination.output) {
            return false;
        }
    }
    true
}

/// Whether an invocation reads only these names.
pub(crate) fn invocation_reads_only(names: &Scope, invocation: &Invocation) -> bool
    ensures { result ≡ are_among names.now (names_in_invocation (invocation_of invocation.now)) }
{
    guard_reads_only(names, &invocation.guard)
        && arguments_read_only(names, invocation.arguments.as_slice())
}

fn destinations_read_only(names: &Scope, destinations: &[Destination]) -> bool
    ensures { result ≡ are_among names.now (names_in_destinations (map destination_of destinations.now)) }
{
    for destination in destinations {
        if !reads_only(names, &destination.value) {
            return false;
        }
    }
    true
}

fn arguments_read_only(names: &Scope, arguments: &[Expr]) -> bool
    ensures { result ≡ are_among names.now (names_in_arguments (map expression_of arguments.now)) }
{
    for argument in arguments {
        if !reads_only(names, argument) {
            return false;
        }
    }
    true
}
