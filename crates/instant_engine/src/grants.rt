//! The values that tenants grant each other, taken between the halves of an instant.

ghost use Rattle.std.specs.Prelude.{◌≡◌, ◌<◌, ◌≤◌, ◌+◌, drop, length, map, slice_get, take};
ghost use Rattle.std.specs.Option.{option_and_then, option_map};
ghost use Rattle.rig_model.specs.Granted.{granted_by};
ghost use Rattle.instant_engine.specs.cited.Tenants.{HaveRoster, binds_of, roster_among, rows_of};
ghost use Rattle.instant_engine.specs.cited.Halves.{AreGranted};
ghost use Rattle.rig_model.specs.Row.{actuator_value};
ghost use Rattle.rig_model.specs.grants.Grants.{granted_value, offer_of};

use giotto_tasks::names::Name;
use rig_model::config::TenantId;
use rig_model::config::intervals::clamped;
use rig_model::grants::granted::{Granted, Hints};
use tenant_state::tenants::Tenant;

/// Writes what is granted through each bind, tenant by tenant, after the first half of an instant of all tenants. This is the value of
/// the actuator that the bind names, within the bounds of the offer. Nothing is granted if the other tenant doesn't offer that actuator
/// to this one, or its program doesn't have it. Takes no memory.
pub fn grant(tenants: &[Tenant], granted: &mut [Granted])
    requires rosters { HaveRoster tenants.now }
    requires places { binds_of tenants.now ≤ length granted.old }
    ensures granted { AreGranted tenants.now granted.new }
{
    let mut first = 0;
    for place in 0..tenants.len() {
        first = grant_to(tenants, place, first, granted);
    }
}

// Writes what is granted through each bind of the tenant at this place, from the place `first` on. Returns the place after them.
fn grant_to(tenants: &[Tenant], place: TenantId, first: usize, granted: &mut [Granted]) -> usize
    requires rosters { HaveRoster tenants.now }
    requires tenant { place < length tenants.now }
    requires places { first + length (rows_of tenants.now place).binds ≤ length granted.old }
    ensures behind { result ≡ first + length (rows_of tenants.now place).binds }
    ensures before { take first granted.new ≡ take first granted.old }
    ensures granted { take (length (rows_of tenants.now place).binds) (drop first granted.new)
        ≡ map (granted_by (roster_among tenants.now) (rows_of tenants.now) (rows_of tenants.now) place) (rows_of tenants.now place).binds }
{
    let binds = tenants[place].bind_count();
    for i in 0..binds {
        let mut hints = granted[first + i].hints();
        let value = granted_by(tenants, place, i, &mut hints);
        granted[first + i].note(value, hints);
    }
    first + binds
}

// What is granted through bind `i` of the tenant at this place.
#[inline(always)]
fn granted_by(tenants: &[Tenant], place: TenantId, i: usize, hints: &mut Hints) -> Option<i64>
    requires rosters { HaveRoster tenants.now }
    requires tenant { place < length tenants.now }
    ensures { result ≡ option_and_then (granted_by (roster_among tenants.now) (rows_of tenants.now) (rows_of tenants.now) place) (slice_get (rows_of tenants.now place).binds i) }
{
    let tenant = &tenants[place];
    let (_, supplier, actuator) = tenant.bind_at(i)?;
    granted_from(&tenants[supplier], actuator, &tenant.roster()[place], hints)
}

// What a supplier grants of this actuator to the tenant of this name: the actuator's value, within the bounds of the supplier's offer.
// Sets the hints to the places where the offer and the actuator were found.
#[inline(always)]
fn granted_from(supplier: &Tenant, actuator: &Name, tenant: &Name, hints: &mut Hints) -> Option<i64>
    ensures { result ≡ option_and_then (λ o. option_map (granted_value o) (actuator_value supplier.now.row actuator.now)) (offer_of supplier.now.row.offers actuator.now tenant.now) }
{
    let (place, offer) = supplier.offer_of(actuator, tenant, hints.offer)?;
    hints.offer = place;
    let (place, value) = supplier.actuator_from(actuator, hints.actuator)?;
    hints.actuator = place;
    Some(clamped(value, offer.bounds.low(), offer.bounds.high()))
}
