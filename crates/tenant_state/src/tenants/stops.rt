//! Stops: of a tenant that asks for it, and of a tenant with a due task that isn't completed.

ghost use Rattle.std.specs.Prelude.{◌≡◌, ◌≤◌, [], true};
ghost use Rattle.rig_model.specs.FirstHalf.{happening_of, stopped_with};
ghost use Rattle.tenant_state.specs.cited.Standing.{IsBehind};
ghost use Rattle.tenant_state.specs.Standing.{most_released};
ghost use Rattle.tenant_state.specs.Tenants.{reason_of};

use crate::tenants::{Reason, State, Tenant};
use rig_model::trace::records::Happening;
use tenant_slots::actuators::reset_actuators;

impl Tenant {
    // Stops the tenant. Its actuators get their initial values, no task is active, and no program waits.
    pub(crate) fn stop_with(&mut self, reason: Reason)
        ensures step { IsBehind self.old (stopped_with (reason_of reason)) self.new }
        ensures active { self.new.row.active ≡ [] }
        ensures ended { self.new.ready.ended ≡ self.old.row.active }
        ensures room { self.old.ready.room ≤ self.new.ready.room }
        ensures shared { self.old.ready.shared ≡ true → self.new.ready.shared ≡ true }
        ensures fewer { most_released self.new.row ≡ 0 }
        ensures tenancy { self.new.tenancy ≡ self.old.tenancy }
        ensures program { self.new.row.program ≡ self.old.row.program }
        ensures offers { self.new.row.offers ≡ self.old.row.offers }
        ensures binds { self.new.row.binds ≡ self.old.row.binds }
        ensures next_tick { self.new.row.next_tick ≡ self.old.row.next_tick }
    {
        self.trace.note(self.next_tick, happening_of(&reason));
        self.state = State::Stopped(reason);
        self.active.end_all();
        self.waiting = None;
        if let Some(checked) = &self.program {
            reset_actuators(checked, self.values.as_mut_slice());
        }
    }
}

// What a trace records of a stop.
fn happening_of(reason: &Reason) -> Happening
    ensures { result ≡ happening_of (reason_of reason.now) }
{
    match reason {
        Reason::Asked => Happening::Asked,
        Reason::Overrun(task) => Happening::Overrun(task.copy()),
    }
}
