//! Laws of slots: how a list of the values of all ports represents the map from the ports' names to their values.
//!
//! The functions do nothing: each contract is a law.

ghost use Rattle.std.specs.Prelude.{◌≡◌, ◌+◌, ℕ, ℤ, List, length, Some, slice_get, slice_range, slice_set};
ghost use Rattle.giotto_tasks.specs.declared.names.Name.{Name};
ghost use Rattle.giotto_tasks.specs.cited.Sources.{names_in};
ghost use Rattle.giotto_tasks.specs.Names.{value_at, with_value};
ghost use Rattle.giotto_rules.specs.text.PortNames.{with_values};
ghost use Rattle.giotto_rules.specs.text.Program.{GiottoProgram};
ghost use Rattle.giotto_check.specs.cited.Slots.{AreValuesOf, HasSlot, HaveSlots, PortNamesDiffer, own_values, slots_of, with_own_values, with_range, with_slots};
ghost use Rattle.giotto_rules.specs.Ports.{ProgramPort, ports_of, shown_name};
ghost use Rattle.giotto_check.specs.Slots.{port_names, valuation_of};
ghost use Rattle.giotto_check.specs.cited.Timetables.{AreInRow, HaveSlotsFrom};

/// Ports are numbered in their order, and their names are those of the map.
pub fn in_order()
    ensures slots { (p : GiottoProgram) (k : ℕ) (port : ProgramPort) → PortNamesDiffer p → slice_get (ports_of p) k ≡ Some port → HasSlot p port k }
    ensures names { (p : GiottoProgram) (values : List ℤ) → length values ≡ slots_of p → names_in (valuation_of p values) ≡ port_names p }
{}

/// A port's value is at its slot. The values of consecutive ports of a task are a range.
pub fn read_by_slot()
    ensures value { (p : GiottoProgram) (vs : List ℤ) (port : ProgramPort) (k : ℕ) → PortNamesDiffer p → HasSlot p port k
        → value_at (valuation_of p vs) (shown_name port) ≡ slice_get vs k }
    ensures range { (p : GiottoProgram) (vs : List ℤ) (t : Name) (xs : List Name) (k : ℕ) → AreValuesOf p vs → HaveSlotsFrom p t xs k
        → own_values p vs t xs ≡ slice_range vs k (k + length xs) }
{}

/// A port's value is changed at its slot, several values one after the other. The values of consecutive ports of a task
/// are changed as a range.
pub fn changed_by_slot()
    ensures value { (p : GiottoProgram) (vs : List ℤ) (port : ProgramPort) (k : ℕ) (z : ℤ) → AreValuesOf p vs → HasSlot p port k
        → with_value (valuation_of p vs) (shown_name port) z ≡ valuation_of p (slice_set vs k z) }
    ensures several { (p : GiottoProgram) (vs : List ℤ) (xs : List Name) (ks : List ℕ) (zs : List ℤ) → AreValuesOf p vs → HaveSlots p xs ks
        → with_values (valuation_of p vs) xs zs ≡ valuation_of p (with_slots vs ks zs) }
    ensures range { (p : GiottoProgram) (vs : List ℤ) (t : Name) (xs : List Name) (k : ℕ) (zs : List ℤ) → AreValuesOf p vs → AreInRow p t xs k zs
        → with_own_values p vs t xs zs ≡ valuation_of p (with_range vs k zs) }
{}
