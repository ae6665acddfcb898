//! The rows of one owner.

ghost use Rattle.std.specs.Prelude.{◌≡◌, ◌↔◌, ◌<◌, ◌≤◌, ◌+◌, [], ◌++◌, map, Err, Ok, IsErr, IsOk, IsSome, IsTrue, IfErr, IfOk, IfSome, OnErr, OnOk, Some, int_le, is_some, length, option_map, slice_get};
ghost use Rattle.std.specs.List.{IsDistinct, position};
ghost use Rattle.rig_config.specs.Intervals.{whole};
ghost use Rattle.tenant_grants.specs.Grants.{bind_at, bound, is_offer_of, no_rows, offer_of, offer_to, offered, other_side, place_in, rows_of, unbound, unoffered};
ghost use Rattle.tenant_grants.specs.Kept.{AreKept, same_offer};
ghost use Rattle.tenant_grants.specs.declared.rows.Row.TheVariants as row;
ghost use Rattle.tenant_grants.specs.inner.Tables.{bind_of};

use crate::faults::GrantFault;
use crate::rows::{Bind, Offer, Row};
use crate::tables::{
    BindTable, Sensor, Supplier, add, bind_of, copied_binds, entry_at, is_bound, same_binds,
    take_out,
};
use arrayvec::ArrayVec;
use giotto_tasks::lists::List;
use giotto_tasks::names::Name;
use giotto_tasks::same::{Same, all_same};
use indexmap::{IndexMap, IndexSet};
use rig_config::TenantId;
use rig_config::intervals::Bounds;
use std::alloc::{AllocError, Global};
use std::marker::Model;

/// The offers and binds of one owner, within its budgets, each in the order in which they were made. Contracts see it as the two lists,
/// with the owner's place, the roster and the budgets.
#[derive(Drop)]
pub struct Grants {
    alloc: Global,
    own: TenantId,
    // On the heap, so that the rows stay cheap to move.
    roster: Box<ArrayVec<Name, 16>>,
    most_offers: usize,
    most_binds: usize,
    bounds: Bounds,
    offers: IndexSet<Offer>,
    binds: BindTable,
}

impl Model for Grants {
    ghost use Rattle.std.specs.Prelude.{map};
    ghost use Rattle.tenant_grants.specs.Grants.{GrantRows};
    ghost use Rattle.tenant_grants.specs.inner.Tables.{bind_of};
    ghost use Rattle.tenant_grants.specs.inner.Held.{AreHeld};

    ghost Value = { GrantRows };

    ghost view = { λ g. record {
      owner = record { place = g.own; roster = g.roster.value.items; most_offers = g.most_offers; most_binds = g.most_binds; bounds = g.bounds };
      offers = g.offers.keys;
      binds = map bind_of g.binds.entries;
    } };

    ghost invariant = { λ g. AreHeld (record { place = g.own; roster = g.roster.value.items; most_offers = g.most_offers; most_binds = g.most_binds; bounds = g.bounds }) g.offers.keys g.binds.entries };
}

impl Grants {
    /// The rows of the tenant at this place of the roster, without any offer or bind. It may have at most `most_offers` offers and
    /// `most_binds` binds. An offer that names no bounds has the whole range of `i64`, until [`Grants::with_own_bounds`] sets others.
    ///
    /// # Errors
    /// Out of memory.
    pub fn new(
        alloc: Global,
        own: TenantId,
        roster: ArrayVec<Name, 16>,
        most_offers: usize,
        most_binds: usize,
    ) -> Result<Grants, AllocError>
        requires { own < length roster.items }
        ensures { IfOk result (λ grants. grants ≡ no_rows (record { place = own; roster = roster.items; most_offers = most_offers; most_binds = most_binds; bounds = whole })) }
    {
        Ok(Grants {
            alloc,
            own,
            roster: Box::new(alloc, roster)?,
            most_offers,
            most_binds,
            bounds: Bounds::whole(),
            offers: IndexSet::new(alloc),
            binds: IndexMap::new(alloc),
        })
    }

    /// The same rows, with these bounds for an offer that names none.
    pub fn with_own_bounds(self, bounds: Bounds) -> Grants
        ensures { result ≡ record self { owner = record self.owner { bounds = bounds } } }
    {
        let mut grants = self;
        grants.bounds = bounds;
        grants
    }

    /// The owner's place. Takes no memory. Of the calls that change nothing, only [`Grants::list`] and [`Grants::copy`] take memory.
    #[inline(always)]
    pub fn own(&self) -> TenantId
        ensures place { result ≡ self.now.owner.place }
        ensures kept { AreKept self.now }
    {
        self.own
    }

    /// The bounds of an offer that names none.
    pub fn own_bounds(&self) -> &Bounds
        ensures { result.now ≡ self.now.owner.bounds }
    {
        &self.bounds
    }

    /// Gives a proof what always holds of the type. Does nothing.
    #[inline(always)]
    pub fn known(&self)
        ensures { AreKept self.now }
    {
        let _own = self.own();
    }

    // The place of the tenant on the other side of a row.
    fn other_side(&self, tenant: &Name) -> Result<TenantId, GrantFault>
        ensures { result ≡ other_side self.now.owner tenant.now }
    {
        match place_in(self.roster.as_slice(), tenant) {
            None => Err(GrantFault::NoTenant),
            Some(place) if place == self.own => Err(GrantFault::Own),
            Some(place) => Ok(place),
        }
    }

    /// Offers an actuator to the tenant of this name, after the other offers. The values that the offer grants are from `low` to `high`.
    ///
    /// # Errors
    /// [`GrantFault::NoTenant`], [`GrantFault::Own`], [`GrantFault::Twice`] if the actuator is already offered to the tenant, whatever
    /// the bounds, [`GrantFault::Budget`], and last [`GrantFault::Memory`].
    pub fn offer(
        &mut self,
        actuator: Name,
        tenant: Name,
        low: i64,
        high: i64,
    ) -> Result<(), GrantFault>
        requires order { IsTrue (int_le low high) }
        ensures refused { IfErr (offered self.old.owner self.old.offers actuator tenant (record { low = low; high = high })) (λ fault. result ≡ Err fault) }
        ensures offered { IfOk (offered self.old.owner self.old.offers actuator tenant (record { low = low; high = high })) (λ os. OnOk result (self.new ≡ record self.old { offers = os })) }
        ensures memory { IfOk (offered self.old.owner self.old.offers actuator tenant (record { low = low; high = high })) (λ os. IfErr result (λ fault. fault ≡ GrantFault.Memory)) }
        ensures same { OnErr result (self.new ≡ self.old) }
    {
        self.other_side(&tenant)?;
        let Some(bounds) = Bounds::new(low, high) else {
            unreachable!()
        };
        let offer = Offer {
            actuator,
            tenant,
            bounds,
        };
        if self.offers.contains(&offer) {
            return Err(GrantFault::Twice);
        }
        if self.offers.len() >= self.most_offers {
            return Err(GrantFault::Budget);
        }
        self.offers.insert(offer)?;
        Ok(())
    }

    /// Removes the offer of an actuator to the tenant of this name. The others keep their order. Takes no memory.
    ///
    /// # Errors
    /// [`GrantFault::NoTenant`], [`GrantFault::Own`], and last [`GrantFault::NotThere`].
    #[tactic(auto, using(crate::proofs::BindTables::without_keys))]
    pub fn unoffer(&mut self, actuator: &Name, tenant: &Name) -> Result<(), GrantFault>
        ensures refused { IfErr (unoffered self.old.owner self.old.offers actuator.now tenant.now) (λ fault. result ≡ Err fault) }
        ensures unoffered { IfOk (unoffered self.old.owner self.old.offers actuator.now tenant.now) (λ os. IsOk result × (self.new ≡ record self.old { offers = os })) }
        ensures same { OnErr result (self.new ≡ self.old) }
    {
        self.other_side(tenant)?;
        let offer = whole_offer(actuator.copy(), tenant.copy());
        if !self.offers.shift_remove(&offer) {
            return Err(GrantFault::NotThere);
        }
        Ok(())
    }

    /// The offer of the actuator to the tenant of this name, if there is one, and its place among the offers, counted from 0. Looks at
    /// the place `hint` first, where the offer may have been found before. Takes no memory.
    #[inline(always)]
    pub fn offer_of(&self, actuator: &Name, tenant: &Name, hint: usize) -> Option<(usize, &Offer)>
        ensures offer { option_map (λ o. o.1.now) result ≡ offer_of self.now.offers actuator.now tenant.now }
        ensures place { IfSome result (λ o. slice_get self.now.offers o.0 ≡ Some o.1.now) }
    {
        match self.offers.get_index(hint) {
            Some(offer) if is_offer_of(offer, actuator, tenant) => Some((hint, offer)),
            _ => found_offer(&self.offers, actuator, tenant),
        }
    }

    /// Whether the actuator is offered to the tenant at this place of the roster. Takes no memory.
    pub fn offers(&self, actuator: &Name, tenant: TenantId) -> bool
        ensures { result ≡ is_some (offer_to self.now.owner.roster self.now.offers actuator.now tenant) }
    {
        self.bounds(actuator, tenant).is_some()
    }

    /// The least and the greatest value of the offer of the actuator to the tenant at this place of the roster, if there is one. Takes
    /// no memory.
    pub fn bounds(&self, actuator: &Name, tenant: TenantId) -> Option<(i64, i64)>
        ensures { result ≡ option_map (λ o. (o.bounds.low, o.bounds.high)) (offer_to self.now.owner.roster self.now.offers actuator.now tenant) }
    {
        let name = self.roster().get(tenant)?;
        let (_, offer) = self.offer_of(actuator, name, 0)?;
        Some((offer.bounds.low(), offer.bounds.high()))
    }

    /// The names of all tenants, by their places.
    #[inline(always)]
    pub fn roster(&self) -> &[Name]
        ensures { result.now ≡ self.now.owner.roster }
    {
        self.roster.as_slice()
    }

    /// Binds a sensor to an actuator of the tenant of this name, after the other binds.
    ///
    /// # Errors
    /// [`GrantFault::NoTenant`], [`GrantFault::Own`], [`GrantFault::Twice`] if the sensor is already bound, whatever it is bound to,
    /// [`GrantFault::Budget`], and last [`GrantFault::Memory`].
    #[tactic(auto, using(crate::proofs::BindTables::binds_push))]
    pub fn bind(&mut self, sensor: Name, tenant: Name, actuator: Name) -> Result<(), GrantFault>
        ensures refused { IfErr (bound self.old.owner self.old.binds sensor tenant actuator) (λ fault. result ≡ Err fault) }
        ensures bound { IfOk (bound self.old.owner self.old.binds sensor tenant actuator) (λ bs. OnOk result (self.new ≡ record self.old { binds = bs })) }
        ensures memory { IfOk (bound self.old.owner self.old.binds sensor tenant actuator) (λ bs. IfErr result (λ fault. fault ≡ GrantFault.Memory)) }
        ensures same { OnErr result (self.new ≡ self.old) }
    {
        let place = self.other_side(&tenant)?;
        if is_bound(&self.binds, &sensor) {
            return Err(GrantFault::Twice);
        }
        if self.binds.len() >= self.most_binds {
            return Err(GrantFault::Budget);
        }
        let supplier = Supplier {
            tenant,
            place,
            actuator,
        };
        add(&mut self.binds, Sensor { name: sensor }, supplier)
    }

    /// Removes the bind of a sensor. The others keep their order. Takes no memory.
    ///
    /// # Errors
    /// [`GrantFault::NotThere`].
    #[tactic(auto, using(crate::proofs::BindTables::without_entries))]
    pub fn unbind(&mut self, sensor: &Name) -> Result<(), GrantFault>
        ensures refused { IfErr (unbound self.old.binds sensor.now) (λ fault. result ≡ Err fault) }
        ensures unbound { IfOk (unbound self.old.binds sensor.now) (λ bs. IsOk result × (self.new ≡ record self.old { binds = bs })) }
        ensures same { OnErr result (self.new ≡ self.old) }
    {
        if !take_out(&mut self.binds, sensor) {
            return Err(GrantFault::NotThere);
        }
        Ok(())
    }

    /// The number of binds.
    #[inline(always)]
    pub fn bind_count(&self) -> usize
        ensures { result ≡ length self.now.binds }
    {
        self.binds.len()
    }

    /// The bind at a place of its list, counted from 0: its sensor, the place of the tenant that it is bound to, and that tenant's
    /// actuator. Takes no memory.
    #[inline(always)]
    pub fn bind_at(&self, i: usize) -> Option<(&Name, TenantId, &Name)>
        ensures bind { option_map (λ b. (b.0.now, b.1, b.2.now)) result ≡ bind_at self.now.owner.roster self.now.binds i }
        ensures found { IsSome result ↔ (i < length self.now.binds) }
    {
        entry_at(&self.binds, i)
    }

    /// All rows: the offers, then the binds, each in the order in which they were made.
    ///
    /// # Errors
    /// Out of memory. Never if there are no rows.
    pub fn list(&self) -> Result<List<Row>, AllocError>
        ensures rows { IfOk result (λ rows. rows ≡ rows_of self.now.offers self.now.binds) }
        ensures memory { IsErr result → 0 < length self.now.offers + length self.now.binds }
    {
        let mut rows = Vec::new(self.alloc);
        push_offers(&mut rows, &self.offers)?;
        push_binds(&mut rows, &self.binds)?;
        Ok(List::from_vec(rows))
    }

    /// Equal rows.
    ///
    /// # Errors
    /// Out of memory.
    pub fn copy(&self) -> Result<Grants, AllocError>
        ensures { IfOk result (λ grants. grants ≡ self.now) }
    {
        let roster = Box::new(self.alloc, copied_roster(&self.roster))?;
        let offers = copied_offers(self.alloc, &self.offers)?;
        let binds = copied_binds(self.alloc, &self.binds)?;
        Ok(Grants {
            alloc: self.alloc,
            own: self.own,
            roster,
            most_offers: self.most_offers,
            most_binds: self.most_binds,
            bounds: self.bounds.copy(),
            offers,
            binds,
        })
    }
}

impl Same for Grants {
    // The same owner, with the same budgets and bounds, and the same rows in the same order.
    fn is_same(&self, other: &Grants) -> bool {
        self.own == other.own
            && all_same(self.roster.as_slice(), other.roster.as_slice())
            && self.most_offers == other.most_offers
            && self.most_binds == other.most_binds
            && self.bounds.is_same(&other.bounds)
            && same_offers(&self.offers, &other.offers)
            && same_binds(&self.binds, &other.binds)
    }
}

fn same_offers(ones: &IndexSet<Offer>, others: &IndexSet<Offer>) -> bool
    ensures { IsTrue result ↔ ones.now.keys ≡ others.now.keys }
{
    if ones.len() != others.len() {
        return false;
    }
    for i in 0..ones.len() {
        if !is_same_offer(ones, others, i) {
            return false;
        }
    }
    true
}

// Whether the offers at this place are equal.
fn is_same_offer(ones: &IndexSet<Offer>, others: &IndexSet<Offer>, i: usize) -> bool
    requires one { i < length ones.now.keys }
    requires other { i < length others.now.keys }
    ensures { IsTrue result ↔ slice_get ones.now.keys i ≡ slice_get others.now.keys i }
{
    let (Some(one), Some(other)) = (ones.get_index(i), others.get_index(i)) else {
        unreachable!()
    };
    one.is_same(other)
}

// An equal roster.
fn copied_roster(roster: &ArrayVec<Name, 16>) -> ArrayVec<Name, 16>
    ensures { result.items ≡ roster.now.items }
{
    let mut copies = ArrayVec::new();
    for name in roster.as_slice() {
        copies.push(name.copy());
    }
    copies
}

// Equal offers, in the same order.
fn copied_offers(alloc: Global, offers: &IndexSet<Offer>) -> Result<IndexSet<Offer>, AllocError>
    requires { IsDistinct same_offer offers.now.keys }
    ensures { IfOk result (λ copies. copies.keys ≡ offers.now.keys) }
{
    let mut copies = IndexSet::new(alloc);
    for place in 0..offers.len() {
        let Some(offer) = offers.get_index(place) else {
            unreachable!()
        };
        copies.insert(offer.copy())?;
    }
    Ok(copies)
}

// An offer of this actuator to the tenant of this name, as the key of a lookup. Its bounds don't matter.
fn whole_offer(actuator: Name, tenant: Name) -> Offer
    ensures { result ≡ record { actuator = actuator; tenant = tenant; bounds = whole } }
{
    Offer {
        actuator,
        tenant,
        bounds: Bounds::whole(),
    }
}

// Whether an offer is of this actuator to the tenant of this name.
#[inline(always)]
fn is_offer_of(offer: &Offer, actuator: &Name, tenant: &Name) -> bool
    ensures { result ≡ is_offer_of actuator.now tenant.now offer.now }
{
    offer.actuator == *actuator && offer.tenant == *tenant
}

// The offer of this actuator to the tenant of this name, and its place.
#[inline(always)]
fn found_offer<'a>(
    offers: &'a IndexSet<Offer>,
    actuator: &Name,
    tenant: &Name,
) -> Option<(usize, &'a Offer)>
    ensures offer { option_map (λ o. o.1.now) result ≡ offer_of offers.now.keys actuator.now tenant.now }
    ensures place { IfSome result (λ o. slice_get offers.now.keys o.0 ≡ Some o.1.now) }
{
    let place = place_of(offers, actuator, tenant)?;
    Some((place, offers.get_index(place)?))
}

// The place of the offer of this actuator to the tenant of this name.
#[inline(never)]
fn place_of(offers: &IndexSet<Offer>, actuator: &Name, tenant: &Name) -> Option<usize>
    ensures { result ≡ position (is_offer_of actuator.now tenant.now) offers.now.keys }
{
    offers.get_index_of(&whole_offer(actuator.copy(), tenant.copy()))
}

// The place of the tenant with this name.
fn place_in(roster: &[Name], tenant: &Name) -> Option<TenantId>
    ensures { result ≡ place_in roster.now tenant.now }
{
    roster.iter().position(|name| *name == *tenant)
}

// Appends the offers to these rows.
fn push_offers(rows: &mut Vec<Row>, offers: &IndexSet<Offer>) -> Result<(), AllocError>
    ensures pushed { OnOk result (rows.new.items ≡ rows.old.items ++ map row.Offer offers.now.keys) }
    ensures memory { IsErr result → 0 < length offers.now.keys }
{
    for i in 0..offers.len() {
        let Some(offer) = offers.get_index(i) else {
            unreachable!()
        };
        rows.push(Row::Offer(offer.copy()))?;
    }
    Ok(())
}

// Appends the binds to these rows.
fn push_binds(rows: &mut Vec<Row>, binds: &BindTable) -> Result<(), AllocError>
    ensures pushed { OnOk result (rows.new.items ≡ rows.old.items ++ map (λ e. row.Bind (bind_of e)) binds.now.entries) }
    ensures memory { IsErr result → 0 < length (map bind_of binds.now.entries) }
{
    for i in 0..binds.len() {
        let Some((sensor, supplier)) = binds.get_index(i) else {
            unreachable!()
        };
        rows.push(Row::Bind(bind_of(sensor, supplier)))?;
    }
    Ok(())
}
