//! The eleven rules that a well-formed program keeps, in order. Each group of rules has a file.

ghost use Rattle.std.specs.Prelude.{◌≡◌, drop, map, IfOk};
ghost use Rattle.giotto_rules.specs.Declarations.{mode_ports};
ghost use Rattle.giotto_rules.specs.Rules.{first_broken_rule};
ghost use Rattle.giotto_rules.specs.Rules as spec;

use crate::indexed::Indexed;
use giotto_tasks::index::Index;
use giotto_text::programs::Program;
use std::alloc::{AllocError, Global};

mod bodies;
mod declared_once;
mod drivers;
mod frequencies;
mod invocations;
mod kinds;
mod start;
mod switches;
mod updates;

/// The first rule that the program breaks, 1 to 11, or `None` if the program is well-formed.
///
/// # Errors
/// Out of memory.
pub fn first_broken(alloc: Global, program: &Program) -> Result<Option<usize>, AllocError>
    ensures { IfOk result (λ rule. rule ≡ first_broken_rule program.now) }
{
    if !declared_once::declares_once(alloc, program)? {
        return Ok(Some(1));
    }
    if !kinds::uses_right_kinds(alloc, program)? {
        return Ok(Some(2));
    }
    if !bodies::bodies_use_own_ports(alloc, program)? {
        return Ok(Some(3));
    }
    if !frequencies::frequencies_divide(program) {
        return Ok(Some(4));
    }
    if !invocations::invokes_once(alloc, program)? {
        return Ok(Some(5));
    }
    first_broken_from_sixth(alloc, program)
}

// The first rule from the sixth on that the program breaks. These rules look up tasks and modes by name.
fn first_broken_from_sixth(alloc: Global, program: &Program) -> Result<Option<usize>, AllocError>
    ensures { IfOk result (λ rule. rule ≡ spec.first_broken 6 (drop 5 spec.rules) program.now) }
{
    let program = Indexed::new(alloc, program)?;
    let ports = invocations::ports_of_modes(alloc, &program)?;
    first_broken_with_ports(alloc, &program, &ports)
}

// The same, given the ports of each mode.
fn first_broken_with_ports(
    alloc: Global,
    program: &Indexed,
    ports: &[Index],
) -> Result<Option<usize>, AllocError>
    requires { ports.now ≡ map (mode_ports program.now) program.now.modes }
    ensures { IfOk result (λ rule. rule ≡ spec.first_broken 6 (drop 5 spec.rules) program.now) }
{
    if !invocations::tasks_share_no_output(program, ports) {
        return Ok(Some(6));
    }
    if !updates::updates_once(alloc, program.program())? {
        return Ok(Some(7));
    }
    if !invocations::arguments_fit(program) {
        return Ok(Some(8));
    }
    if !drivers::drivers_read_mode_ports(alloc, program, ports)? {
        return Ok(Some(9));
    }
    if !switches::switches_keep_periods(alloc, program)? {
        return Ok(Some(10));
    }
    if !start::starts_in_a_mode(alloc, program.program())? {
        return Ok(Some(11));
    }
    Ok(None)
}
