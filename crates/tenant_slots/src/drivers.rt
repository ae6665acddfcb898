//! The guards of drivers.

ghost use Rattle.std.specs.Prelude.{◌≡◌, Option, length};
ghost use Rattle.giotto_tasks.specs.Syntax.{Expression};
ghost use Rattle.rig_model.specs.text.Program.{GiottoProgram};
ghost use Rattle.giotto_check.specs.cited.Slots.{slots_of};
ghost use Rattle.giotto_check.specs.Slots.{valuation_of};
ghost use Rattle.giotto_check.specs.cited.Timetables.{IsGuard};
ghost use Rattle.rig_model.specs.Ports.{holds};

use giotto_check::timetables::{SlotExpr, slot_value};

/// Whether a guard holds, given the values of all ports by their slots. An absent guard always holds. Takes no memory.
#[inline(always)]
pub fn holds(guard: &Option<SlotExpr>, values: &[i64]) -> bool
    ensures { (p : GiottoProgram) (g : Option Expression) → IsGuard p g guard.now → length values.now ≡ slots_of p → result ≡ holds g (valuation_of p values.now) }
{
    match guard {
        None => true,
        Some(e) => slot_value(e, values) != 0,
    }
}
