//! The tenants of a new host.

ghost use Rattle.std.specs.Prelude.{◌≡◌, ◌<◌, IfOk, length};
ghost use Rattle.host_core.specs.inner.HostStanding.{most_binds};
ghost use Rattle.rig_model.specs.Tenancies.{owner_at, roster_of};
ghost use Rattle.rig_model.specs.config.Roster.{budgets_at};
ghost use Rattle.rig_model.specs.grants.Grants.{no_rows};
ghost use Rattle.instant_engine.specs.state.Standing.{empty_standing};

use arrayvec::ArrayVec;
use giotto_tasks::names::Name;
use rig_model::config::{Config, TenantId};
use rig_model::grants::granted::Granted;
use rig_model::grants::grants::Grants;
use std::alloc::{AllocError, Global};
use tenant_state::tenants::Tenant;

/// Makes the tenant at this place of a configuration, without a program and without rows. `first_tick` is the number of its first
/// instant.
///
/// # Errors
/// Out of memory.
pub(crate) fn new_tenant(
    alloc: Global,
    config: &Config,
    place: TenantId,
    first_tick: u64,
) -> Result<Tenant, AllocError>
    requires { place < length config.now.tenants }
    ensures { IfOk result (λ tenant. tenant ≡ empty_standing (budgets_at config.now place) (no_rows (owner_at config.now place)) first_tick) }
{
    let budgets = config.tenants()[place].budgets.copy(alloc)?;
    let (offers, binds) = (budgets.offers, budgets.binds);
    let bounds = budgets.bounds.copy();
    let grants = Grants::new(alloc, place, roster(config), offers, binds)?;
    Tenant::new(alloc, budgets, grants.with_own_bounds(bounds), first_tick)
}

// The names of all tenants, in the order of their places.
fn roster(config: &Config) -> ArrayVec<Name, 16>
    ensures { result.items ≡ roster_of config.now }
{
    let mut names = ArrayVec::new();
    for tenant in config.tenants() {
        names.push(tenant.name.copy());
    }
    names
}

/// Makes a place for each bind that the tenants may have.
///
/// # Errors
/// Out of memory.
pub(crate) fn places(alloc: Global, config: &Config) -> Result<Vec<Granted>, AllocError>
    ensures { IfOk result (λ places. length places.items ≡ most_binds config.now) }
{
    let mut places = Vec::new(alloc);
    for tenant in config.tenants() {
        for _bind in 0..tenant.budgets.binds {
            places.push(Granted::nothing())?;
        }
    }
    Ok(places)
}
