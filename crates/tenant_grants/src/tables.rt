//! The table of binds, with an entry for each bound sensor.

ghost use Rattle.std.specs.Prelude.{◌≡◌, ◌↔◌, ◌<◌, ◌++◌, [], ◌∷◌, IfErr, IfOk, IsSome, IsTrue, OnErr, OnOk, false, length, map, option_map, slice_get};
ghost use Rattle.std.specs.Bool.{OnFalse};
ghost use Rattle.std.specs.List.{IsDistinct, list_any};
ghost use Rattle.std.specs.Map.{keys_of, remove_entry};
ghost use Rattle.tenant_grants.specs.Grants.{is_bind_of};
ghost use Rattle.tenant_grants.specs.inner.Tables.{bind_of, placed};
ghost use Rattle.std.specs.Cmp.Rules.{comparing, hashing};
ghost use Rattle.std.specs.Hash as fed;
ghost use Rattle.std.proofs.Common.{rules};
ghost use Rattle.giotto_tasks.specs.Names.{same_name};

use crate::faults::GrantFault;
use crate::rows::Bind;
use giotto_tasks::names::Name;
use giotto_tasks::same::Same;
use indexmap::IndexMap;
use rig_config::TenantId;
use std::alloc::{AllocError, Global};
use std::hash::{Hash, Hasher};

/// The key of a bind.
#[derive(Drop)]
pub(crate) struct Sensor {
    pub name: Name,
}

/// What a sensor is bound to.
#[derive(Drop)]
pub(crate) struct Supplier {
    pub tenant: Name,
    /// The place of the tenant, so that no instant has to search for it.
    pub place: TenantId,
    pub actuator: Name,
}

impl Sensor {
    // An equal key.
    fn copy(&self) -> Sensor
        ensures { result ≡ self.now }
    {
        Sensor {
            name: self.name.copy(),
        }
    }
}

impl Supplier {
    // An equal supplier.
    fn copy(&self) -> Supplier
        ensures { result ≡ self.now }
    {
        Supplier {
            tenant: self.tenant.copy(),
            place: self.place,
            actuator: self.actuator.copy(),
        }
    }
}

/// The binds, in the order in which they were made.
pub(crate) type BindTable = IndexMap<Sensor, Supplier>;

/// Whether the sensor is bound.
#[tactic(auto, using(crate::proofs::BindTables::is_bound_entries))]
pub(crate) fn is_bound(binds: &BindTable, sensor: &Name) -> bool
    ensures { result ≡ list_any (is_bind_of sensor.now) (map bind_of binds.now.entries) }
{
    binds.contains_key(&Sensor {
        name: sensor.copy(),
    })
}

/// Adds a bind at the end.
pub(crate) fn add(
    binds: &mut BindTable,
    sensor: Sensor,
    supplier: Supplier,
) -> Result<(), GrantFault>
    requires { list_any (is_bind_of sensor.name) (map bind_of binds.old.entries) ≡ false }
    ensures added { OnOk result (binds.new.entries ≡ binds.old.entries ++ (sensor, supplier) ∷ []) }
    ensures memory { IfErr result (λ fault. fault ≡ GrantFault.Memory) }
    ensures same { OnErr result (binds.new.entries ≡ binds.old.entries) }
    ensures differ { IsDistinct (λ s t. same_name t.name s.name) (keys_of binds.new.entries) }
{
    binds.insert(sensor, supplier)?;
    Ok(())
}

/// Removes the bind of a sensor, and returns whether it was bound.
#[tactic(auto, using(crate::proofs::BindTables::is_bound_entries))]
pub(crate) fn take_out(binds: &mut BindTable, sensor: &Name) -> bool
    ensures found { result ≡ list_any (is_bind_of sensor.now) (map bind_of binds.old.entries) }
    ensures left { binds.new.entries ≡ remove_entry (λ s. same_name s.name sensor.now) binds.old.entries }
    ensures same { OnFalse result (binds.new.entries ≡ binds.old.entries) }
    ensures differ { IsDistinct (λ s t. same_name t.name s.name) (keys_of binds.new.entries) }
{
    let sensor = Sensor {
        name: sensor.copy(),
    };
    binds.shift_remove(&sensor).is_some()
}

/// The sensor of the bind at a place, the supplier's place and the supplier's actuator.
#[inline(always)]
pub(crate) fn entry_at(binds: &BindTable, i: usize) -> Option<(&Name, TenantId, &Name)>
    ensures entry { option_map (λ b. (b.0.now, b.1, b.2.now)) result ≡ option_map placed (slice_get binds.now.entries i) }
    ensures found { IsSome result ↔ (i < length binds.now.entries) }
{
    let (sensor, supplier) = binds.get_index(i)?;
    Some((&sensor.name, supplier.place, &supplier.actuator))
}

/// An equal table.
///
/// # Errors
/// Out of memory.
pub(crate) fn copied_binds(alloc: Global, binds: &BindTable) -> Result<BindTable, AllocError>
    requires { IsDistinct (λ s t. same_name t.name s.name) (keys_of binds.now.entries) }
    ensures { IfOk result (λ copies. copies.entries ≡ binds.now.entries) }
{
    let mut copies = IndexMap::new(alloc);
    for i in 0..binds.len() {
        let Some((sensor, supplier)) = binds.get_index(i) else {
            unreachable!()
        };
        copies.insert(sensor.copy(), supplier.copy())?;
    }
    Ok(copies)
}

/// Whether both tables have equal binds, in the same order.
pub(crate) fn same_binds(ones: &BindTable, others: &BindTable) -> bool
    ensures { IsTrue result ↔ map bind_of ones.now.entries ≡ map bind_of others.now.entries }
{
    if ones.len() != others.len() {
        return false;
    }
    for i in 0..ones.len() {
        if !is_same_at(ones, others, i) {
            return false;
        }
    }
    true
}

// Whether both tables have equal binds at this place.
fn is_same_at(ones: &BindTable, others: &BindTable, i: usize) -> bool
    requires one { i < length ones.now.entries }
    requires other { i < length others.now.entries }
    ensures { IsTrue result ↔ option_map bind_of (slice_get ones.now.entries i) ≡ option_map bind_of (slice_get others.now.entries i) }
{
    let (Some((one, its)), Some((other, others))) = (ones.get_index(i), others.get_index(i)) else {
        unreachable!()
    };
    bind_of(one, its).is_same(&bind_of(other, others))
}

/// The bind of an entry.
pub(crate) fn bind_of(sensor: &Sensor, supplier: &Supplier) -> Bind
    ensures { result ≡ bind_of (sensor.now, supplier.now) }
{
    Bind {
        sensor: sensor.name.copy(),
        tenant: supplier.tenant.copy(),
        actuator: supplier.actuator.copy(),
    }
}

impl PartialEq for Sensor {
    ghost eq = { λ s t. same_name t.name s.name };

    ghost laws = { Prim.search (comparing, rules) };

    fn eq(&self, other: &Sensor) -> bool {
        other.name == self.name
    }
}

impl Eq for Sensor {
    ghost laws = { Prim.search (comparing, rules) };
}

impl Hash for Sensor {
    ghost hash_input = { λ s. fed.str s.name };

    ghost respects_eq = { Prim.search (hashing, rules) };

    fn hash<H: Hasher>(&self, state: &mut H) {
        self.name.as_str().hash(state);
    }
}
