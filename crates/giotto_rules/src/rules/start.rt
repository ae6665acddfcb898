//! Rule 11: the start mode is declared.

ghost use Rattle.std.specs.Prelude.{◌≡◌, IfOk};
ghost use Rattle.giotto_rules.specs.Rules as rules;

use crate::declarations;
use giotto_tasks::index::Index;
use giotto_text::programs::Program;
use std::alloc::{AllocError, Global};

/// Whether the start mode is declared.
pub(crate) fn starts_in_a_mode(alloc: Global, program: &Program) -> Result<bool, AllocError>
    ensures { IfOk result (λ holds. holds ≡ rules.starts_in_a_mode program.now) }
{
    let modes = Index::new(alloc, declarations::mode_names(alloc, program)?)?;
    Ok(modes.contains(program.start()))
}
