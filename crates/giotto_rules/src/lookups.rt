//! Lookup of modes by name.

ghost use Rattle.std.specs.Prelude.{◌≡◌, Some, None, IfSome};
ghost use Rattle.giotto_text.specs.ProgramTrees.{mode_of};
ghost use Rattle.giotto_rules.specs.Declarations as declared;

use giotto_tasks::names::Name;
use giotto_text::programs::{Mode, Program};

/// The mode with this name.
pub(crate) fn find_mode<'a>(program: &'a Program, name: &Name) -> Option<&'a Mode>
    ensures found { IfSome result
        (λ m. declared.mode_named program.now name.now ≡ Some (mode_of m.now)) }
    ensures missing { result ≡ None → declared.mode_named program.now name.now ≡ None }
{
    for mode in program.modes() {
        if mode.name == *name {
            return Some(mode);
        }
    }
    None
}
