//! What a tenant reports of its offers and binds.

ghost use Rattle.std.specs.Prelude.{◌≡◌, ◌↔◌, ◌<◌, IsSome, is_some, length, option_map};
ghost use Rattle.rig_model.specs.grants.Grants.{bind_at, offer_of, offer_to};

use crate::tenants::Tenant;
use giotto_tasks::names::Name;
use rig_model::config::TenantId;
use rig_model::grants::rows::Offer;

impl Tenant {
    /// The tenant's offer of this actuator to the tenant of this name, and its place among the offers, from 0. `None` if there is
    /// no such offer. Looks at `hint` first, which may be a place where the offer was found before. Takes no memory.
    #[inline(always)]
    pub fn offer_of(&self, actuator: &Name, tenant: &Name, hint: usize) -> Option<(usize, &Offer)>
        ensures { option_map (λ o. o.1.now) result ≡ offer_of self.now.row.offers actuator.now tenant.now }
    {
        self.grants.offer_of(actuator, tenant, hint)
    }

    /// Whether the tenant offers the actuator to the tenant at this place of the roster. Takes no memory.
    pub fn offers(&self, actuator: &Name, tenant: TenantId) -> bool
        ensures { result ≡ is_some (offer_to self.now.tenancy.owner.roster self.now.row.offers actuator.now tenant) }
    {
        self.grants.offers(actuator, tenant)
    }

    /// The least and the greatest value of the tenant's offer of the actuator to the tenant at this place of the roster. `None`
    /// if there is no such offer. Takes no memory.
    pub fn bounds(&self, actuator: &Name, tenant: TenantId) -> Option<(i64, i64)>
        ensures { result ≡ option_map (λ o. (o.bounds.low, o.bounds.high)) (offer_to self.now.tenancy.owner.roster self.now.row.offers actuator.now tenant) }
    {
        self.grants.bounds(actuator, tenant)
    }

    /// The names of all tenants, by their places.
    #[inline(always)]
    pub fn roster(&self) -> &[Name]
        ensures { result.now ≡ self.now.tenancy.owner.roster }
    {
        self.grants.roster()
    }

    /// How many binds the tenant has.
    #[inline(always)]
    pub fn bind_count(&self) -> usize
        ensures { result ≡ length self.now.row.binds }
    {
        self.grants.bind_count()
    }

    /// The tenant's bind at a place, from 0: its sensor, the place of the tenant that it is bound to, and that tenant's actuator.
    /// `None` if the tenant has fewer binds. Takes no memory.
    #[inline(always)]
    pub fn bind_at(&self, i: usize) -> Option<(&Name, TenantId, &Name)>
        ensures bind { option_map (λ b. (b.0.now, b.1, b.2.now)) result ≡ bind_at self.now.tenancy.owner.roster self.now.row.binds i }
        ensures found { IsSome result ↔ (i < length self.now.row.binds) }
    {
        self.grants.bind_at(i)
    }
}
