//! Laws about rows. Each is a function with an empty body, whose contract is the law.

ghost use Rattle.std.specs.Prelude.{◌≡◌, ℕ, ℤ, List, IsTrue, is_some, map};
ghost use Rattle.giotto_tasks.specs.declared.names.Name.{Name};
ghost use Rattle.rig_config.specs.Intervals.{is_in_order, is_within};
ghost use Rattle.rig_config.specs.Roster.{Rig, name_at, place_of};
ghost use Rattle.rig_config.specs.declared.TenantConfig.{TenantConfig};
ghost use Rattle.tenant_grants.specs.Grants.{granted_value, name_of_place, offer_of, offers, place_in};
ghost use Rattle.tenant_grants.specs.declared.rows.Offer.{Offer};

/// An actuator is offered if and only if there is an offer of it. An offer grants a value within its bounds. It grants the
/// actuator's value if that is within them.
pub fn granted_by_an_offer()
    ensures offered { (os : List Offer) (actuator tenant : Name) → offers os actuator tenant ≡ is_some (offer_of os actuator tenant) }
    ensures bounds { (o : Offer) (z : ℤ) → IsTrue (is_in_order o.bounds) → IsTrue (is_within o.bounds (granted_value o z)) }
    ensures value { (o : Offer) (z : ℤ) → IsTrue (is_within o.bounds z) → granted_value o z ≡ z }
{}

/// The roster of a rig's names has the rig's places and names.
pub fn roster_of_a_rig()
    ensures places { (rig : Rig) (x : Name) → place_in (map (λ (t : TenantConfig). t.name) rig.tenants) x ≡ place_of rig x }
    ensures names { (rig : Rig) (place : ℕ) → name_of_place (map (λ (t : TenantConfig). t.name) rig.tenants) place ≡ name_at rig place }
{}
