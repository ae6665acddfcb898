//! What a report on retests is about.

ghost use Rattle.std.specs.Prelude.{◌≡◌, ◌≢◌, ◌<◌, ℕ, false, codes, length};
ghost use Rattle.rig_retests.specs.Named.{names_of};
ghost use Rattle.rig_retests.specs.Reached.{is_marked_in};

use crate::reaches::ReachTable;
use crate::tables::Retests;
use plant_couplings::couplings::Plant;
use rig_model::config::{Config, TenantId};

/// A rig, its plant, the sources of a script, and whose change can reach whom.
#[derive(Clone, Copy)]
pub struct Facts<'a> {
    pub config: &'a Config,
    pub plant: &'a Plant,
    pub retests: &'a Retests,
    pub reach: &'a ReachTable,
}

impl Facts<'_> {
    /// The number of tenants.
    pub fn tenants(&self) -> usize
        ensures { result ≡ length self.now.config.now.tenants }
    {
        self.config.tenants().len()
    }

    /// Whether the report names `tenant` for a retest after a change of `source`.
    ///
    /// If the plant is declared, it does if the change can reach it. Else it does if the tenant has the other one as a source, and isn't that one.
    pub fn is_named(&self, tenant: TenantId, source: TenantId) -> bool
        ensures { result ≡ names_of self.now tenant source }
    {
        if self.plant.is_declared() {
            self.reach.has(tenant, source)
        } else {
            self.retests.is_source(tenant, source)
        }
    }

    /// The words for a tenant that isn't named after a change of another one: `nobody else` only if no change of another can reach it.
    pub fn words_of_unnamed(&self, tenant: TenantId) -> &'static str
        ensures { result.now ≡ codes "nobody else" → (source : ℕ) → source < length self.now.reach.now → source ≢ tenant → is_marked_in self.now.reach.now tenant source ≡ false }
    {
        if self.reach.has_other(tenant) {
            "nobody through binds"
        } else {
            "nobody else"
        }
    }
}
