//! The names of desks.

use std::marker::Brand;

/// The name of a desk: what the desk was made from. Only contracts see its members.
pub trait Naming {
    ghost use Rattle.std.specs.Prelude.{ℕ};
    ghost use Rattle.logbook.specs.Pages.{Book};
    ghost use Rattle.rig_model.specs.config.Roster.{Rig};

    // The rig.
    ghost config: { Rig };

    // The number of the host's first instant.
    ghost first_tick: { ℕ };

    // The history of the desk, if it has one.
    ghost history: { Book };
}

// The name that a caller picks when it makes a desk.
impl Naming for Brand {
    ghost use Rattle.std.specs.Prelude.{[]};

    ghost config = { record { lines = 0; tenants = [] } };

    ghost first_tick = { 0 };

    ghost history = { record { number = 0; log_name = 0; cells_name = 0 } };
}
