//! Laws about traces. Each is a function with an empty body, whose contract is the law.

ghost use Rattle.std.specs.Prelude.{◌≡◌, ℕ, List, take};
ghost use Rattle.tenant_trace.specs.Trace.{with_happenings};
ghost use Rattle.tenant_trace.specs.cited.Noted.{noted};
ghost use Rattle.tenant_trace.specs.declared.records.Happening.{Happening};
ghost use Rattle.tenant_trace.specs.declared.records.Record.{Record};

/// A trace keeps the last of all records, whatever happens and however often.
pub fn last_of_all()
    ensures kept { (most tick : ℕ) (happenings : List Happening) (all : List Record)
        → noted tick happenings (record { most = most; records = take most all })
        ≡ record { most = most; records = take most (with_happenings tick happenings all) } }
{}
