//! Offers and binds.

ghost use Rattle.std.specs.Prelude.{◌≡◌, ◌&&◌, ◌++◌};
ghost use Rattle.std.specs.Cmp.Rules.{comparing, hashing};
ghost use Rattle.std.specs.Hash as fed;
ghost use Rattle.std.proofs.Common.{rules};
ghost use Rattle.giotto_tasks.specs.Names.{same_name};

use giotto_tasks::names::Name;
use rig_config::intervals::Bounds;
use std::hash::{Hash, Hasher};

/// One of the owner's actuators, offered to another tenant within bounds. Two offers of one actuator to one tenant are the same row,
/// whatever their bounds.
#[derive(Drop)]
pub struct Offer {
    pub actuator: Name,
    /// The name of the tenant that may bind it.
    pub tenant: Name,
    /// The bounds of the values that it grants.
    pub bounds: Bounds,
}

/// One of the owner's sensors, bound to another tenant's actuator.
#[derive(Drop)]
pub struct Bind {
    pub sensor: Name,
    /// The name of the tenant whose actuator it is.
    pub tenant: Name,
    pub actuator: Name,
}

/// A row of a tenant.
#[derive(Drop)]
pub enum Row {
    Offer(Offer),
    Bind(Bind),
}

impl Offer {
    /// An equal offer. Takes no memory.
    pub fn copy(&self) -> Offer
        ensures { result ≡ self.now }
    {
        Offer {
            actuator: self.actuator.copy(),
            tenant: self.tenant.copy(),
            bounds: self.bounds.copy(),
        }
    }
}

impl Bind {
    /// An equal bind. Takes no memory.
    pub fn copy(&self) -> Bind
        ensures { result ≡ self.now }
    {
        let Bind {
            sensor,
            tenant,
            actuator,
        } = self;
        Bind {
            sensor: sensor.copy(),
            tenant: tenant.copy(),
            actuator: actuator.copy(),
        }
    }
}

impl Row {
    /// An equal row. Takes no memory.
    pub fn copy(&self) -> Row
        ensures { result ≡ self.now }
    {
        match self {
            Row::Offer(offer) => Row::Offer(offer.copy()),
            Row::Bind(bind) => Row::Bind(bind.copy()),
        }
    }
}

// Two offers are the same row if they offer the same actuator to the same tenant, whatever the bounds.
impl PartialEq for Offer {
    ghost eq = { λ o p. same_name p.actuator o.actuator && same_name p.tenant o.tenant };

    ghost laws = { Prim.search (comparing, rules) };

    fn eq(&self, other: &Offer) -> bool {
        other.actuator == self.actuator && other.tenant == self.tenant
    }
}

impl Eq for Offer {
    ghost laws = { Prim.search (comparing, rules) };
}

impl Hash for Offer {
    ghost hash_input = { λ o. fed.str o.actuator ++ fed.str o.tenant };

    ghost respects_eq = { Prim.search (hashing, rules) };

    fn hash<H: Hasher>(&self, state: &mut H) {
        self.actuator.as_str().hash(state);
        self.tenant.as_str().hash(state);
    }
}
