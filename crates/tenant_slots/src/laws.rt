//! Laws of granted values. Taken one after the other after the readings, they give the same ports as readings with all of them.
//!
//! The functions do nothing: each contract is a law.

ghost use Rattle.std.specs.Prelude.{◌≡◌, ◌++◌, ◌∷◌, [], ℤ, false, IsTrue};
ghost use Rattle.giotto_tasks.specs.declared.names.Name.{Name};
ghost use Rattle.giotto_tasks.specs.cited.Sources.{names_in};
ghost use Rattle.giotto_tasks.specs.Names.{Valuation, is_among};
ghost use Rattle.giotto_tasks.specs.Sound.{all_different};
ghost use Rattle.rig_model.specs.text.Program.{GiottoProgram};
ghost use Rattle.giotto_check.specs.cited.Slots.{PortNamesDiffer};
ghost use Rattle.rig_model.specs.Readings.{Readings};
ghost use Rattle.tenant_slots.specs.cited.Grants.{with_each_granted, with_granted};
ghost use Rattle.tenant_slots.specs.cited.Readings.{with_readings};

/// A value that is granted after the readings gives the same ports as readings with this value among those granted. It may be put
/// before the others, whatever they are. It may also be put after them, if none of them has its name. So values for different
/// names, taken one after the other, give the same ports as readings with all of them.
pub fn granted_behind_readings()
    ensures newest { (p : GiottoProgram) (readings : Readings) (granted ports : Valuation) (x : Name) (z : ℤ) → PortNamesDiffer p
        → with_granted p x z (with_readings p readings granted ports) ≡ with_readings p readings ((x, z) ∷ granted) ports }
    ensures last { (p : GiottoProgram) (readings : Readings) (granted ports : Valuation) (x : Name) (z : ℤ) → PortNamesDiffer p → is_among (names_in granted) x ≡ false
        → with_granted p x z (with_readings p readings granted ports) ≡ with_readings p readings (granted ++ (x, z) ∷ []) ports }
    ensures all { (p : GiottoProgram) (readings : Readings) (granted ports : Valuation) → PortNamesDiffer p → IsTrue (all_different (names_in granted))
        → with_each_granted p granted (with_readings p readings [] ports) ≡ with_readings p readings granted ports }
{}
