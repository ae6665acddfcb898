//! Rule 7: a mode updates an actuator once.

ghost use Rattle.std.specs.Prelude.{◌≡◌, IfOk};
ghost use Rattle.giotto_tasks.specs.Sound as sound;
ghost use Rattle.giotto_text.specs.ProgramTrees.{mode_of};
ghost use Rattle.giotto_rules.specs.Declarations as declared;
ghost use Rattle.giotto_rules.specs.Rules as rules;

use crate::declarations;
use giotto_tasks::index::Index;
use giotto_text::programs::{Mode, Program};
use std::alloc::{AllocError, Global};

/// Whether each mode updates an actuator once.
pub(crate) fn updates_once(alloc: Global, program: &Program) -> Result<bool, AllocError>
    ensures { IfOk result (λ holds. holds ≡ rules.updates_once program.now) }
{
    for mode in program.modes() {
        if !mode_updates_once(alloc, mode)? {
            return Ok(false);
        }
    }
    Ok(true)
}

fn mode_updates_once(alloc: Global, mode: &Mode) -> Result<bool, AllocError>
    ensures { IfOk result
        (λ holds. holds ≡ sound.all_different (declared.updated_actuators (mode_of mode.now))) }
{
    let actuators = declarations::updated_actuators(alloc, mode)?;
    Ok(Index::new(alloc, actuators)?.all_different())
}
