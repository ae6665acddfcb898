//! Reads a configuration from a text.

ghost use Rattle.std.specs.Prelude.{◌≡◌, ◌≢◌, Ok, Err, IfOk, IfErr, IsTrue, length, map};
ghost use Rattle.std.specs.List.{list_all, list_any};
ghost use Rattle.toml.specs.View.{array_view, items_view, table_view, view};
ghost use Rattle.toml.specs.Data.{as_integer};
ghost use Rattle.rig_config.specs.Fields.{is_in_range, rig_field, tenant_field};
ghost use Rattle.rig_config.specs.Intervals.{is_in_order};
ghost use Rattle.rig_config.specs.Ranges.{all_drive_apart, are_budgets, are_lines, drive_apart, is_key, is_tenant_config, is_tenant_name};
ghost use Rattle.rig_config.specs.Reading.{bounds_of, bounds_read, budgets_of, config_of, key_in, lines_in, tenant_name_in, number, read, rig_of, rig_with, tables_in, tenant_of, tenants_from, value_of};
ghost use Rattle.giotto_tasks.specs.Names.{is_among};
ghost use Rattle.giotto_tasks.specs.Sound.{all_different};
ghost use Rattle.rig_config.specs.Roster.{may_use};
ghost use Rattle.rig_config.specs.declared.TenantConfig.{TenantConfig};
ghost use Rattle.rig_config.specs.inner.Gives.{Gives};
ghost use Rattle.rig_config.specs.inner.Numbers.{are_in_range, numbers_of};
ghost use Rattle.rig_config.specs.declared.faults.Field.TheVariants as field;

use crate::faults::{ConfigFault, Field, FieldPlace};
use crate::intervals::Bounds;
use crate::values::{key_in, lines_in, name_in, number_in, tables_in};
use crate::{Budgets, Config, TenantConfig, TenantId};
use giotto_tasks::lists::List;
use giotto_tasks::names::Name;
use std::alloc::Global;
use toml::value::Array;
use toml::{Table, Value};

// The value of a field.
fn value_of(fields: &Table, at: FieldPlace) -> Result<&Value, ConfigFault>
    ensures found { IfOk result (λ value. value_of at (table_view fields.now) ≡ Ok (view value.now)) }
    ensures missing { IfErr result (λ fault. value_of at (table_view fields.now) ≡ Err fault) }
{
    match fields.get(at.field.word()) {
        Some(value) => Ok(value),
        None => Err(ConfigFault::Missing(at)),
    }
}

// A field that is a number.
fn number(fields: &Table, at: FieldPlace) -> Result<usize, ConfigFault>
    ensures value { result ≡ number at (table_view fields.now) }
    ensures range { IfOk result (λ n. IsTrue (is_in_range at.field n)) }
{
    let value = value_of(fields, at)?;
    number_in(at.field, value).ok_or(ConfigFault::Range(at))
}

// The tenant's name.
fn name(fields: &Table, tenant: TenantId) -> Result<Name, ConfigFault>
    ensures value { result ≡ read tenant_name_in (tenant_field tenant field.Name) (table_view fields.now) }
    ensures range { IfOk result (λ name. IsTrue (is_tenant_name name)) }
{
    let at = FieldPlace::of_tenant(tenant, Field::Name);
    let value = value_of(fields, at)?;
    name_in(value).ok_or(ConfigFault::Range(at))
}

// The tenant's key.
fn key(alloc: Global, fields: &Table, tenant: TenantId) -> Result<List<u8>, ConfigFault>
    ensures value { Gives result (read key_in (tenant_field tenant field.Key) (table_view fields.now)) }
    ensures range { IfOk result (λ key. IsTrue (is_key key)) }
{
    let at = FieldPlace::of_tenant(tenant, Field::Key);
    let value = value_of(fields, at)?;
    let key = key_in(value).ok_or(ConfigFault::Range(at))?;
    Ok(List::from_vec(Vec::from_slice(alloc, key.as_bytes())?))
}

// The lines of `reads` or `writes`, in a rig with this many lines.
fn line_set(
    alloc: Global,
    fields: &Table,
    at: FieldPlace,
    lines: usize,
) -> Result<List<usize>, ConfigFault>
    ensures value { Gives result (read (lines_in lines) at (table_view fields.now)) }
    ensures range { IfOk result (λ ks. IsTrue (are_lines lines ks)) }
{
    let value = value_of(fields, at)?;
    lines_in(alloc, value, lines)?.ok_or(ConfigFault::Range(at))
}

// The numbers among a tenant's budgets.
#[derive(Clone, Copy)]
struct Numbers {
    bytes: usize,
    ports: usize,
    tasks: usize,
    modes: usize,
    steps: usize,
    trace: usize,
    offers: usize,
    binds: usize,
}

#[tactic(auto, unfolding(crate::specs::inner::Numbers::numbers_of))]
fn numbers_of(fields: &Table, tenant: TenantId) -> Result<Numbers, ConfigFault>
    ensures value { result ≡ numbers_of tenant (table_view fields.now) }
    ensures ranges { IfOk result (λ n. IsTrue (are_in_range n)) }
{
    Ok(Numbers {
        bytes: number(fields, FieldPlace::of_tenant(tenant, Field::Bytes))?,
        ports: number(fields, FieldPlace::of_tenant(tenant, Field::Ports))?,
        tasks: number(fields, FieldPlace::of_tenant(tenant, Field::Tasks))?,
        modes: number(fields, FieldPlace::of_tenant(tenant, Field::Modes))?,
        steps: number(fields, FieldPlace::of_tenant(tenant, Field::Steps))?,
        trace: number(fields, FieldPlace::of_tenant(tenant, Field::Trace))?,
        offers: number(fields, FieldPlace::of_tenant(tenant, Field::Offers))?,
        binds: number(fields, FieldPlace::of_tenant(tenant, Field::Binds))?,
    })
}

// A field that is a value of ports.
fn port_value(fields: &Table, at: FieldPlace) -> Result<i64, ConfigFault>
    ensures { result ≡ read as_integer at (table_view fields.now) }
{
    let value = value_of(fields, at)?;
    value.as_integer().ok_or(ConfigFault::Range(at))
}

// The bounds in the fields of the tenant at a place.
fn bounds_read(fields: &Table, tenant: TenantId) -> Result<Bounds, ConfigFault>
    ensures { result ≡ bounds_read tenant (table_view fields.now) }
{
    let low = port_value(fields, FieldPlace::of_tenant(tenant, Field::Low))?;
    let at = FieldPlace::of_tenant(tenant, Field::High);
    let high = port_value(fields, at)?;
    Bounds::new(low, high).ok_or(ConfigFault::Range(at))
}

// The bounds of the tenant at a place, in this version of the format.
fn bounds_of(fields: &Table, version: usize, tenant: TenantId) -> Result<Bounds, ConfigFault>
    ensures value { result ≡ bounds_of version tenant (table_view fields.now) }
    ensures order { IfOk result (λ bounds. IsTrue (is_in_order bounds)) }
{
    let bounds = if version == 1 {
        Bounds::whole()
    } else {
        bounds_read(fields, tenant)?
    };
    // For the proof: the least value isn't above the greatest.
    let _ = bounds.low();
    Ok(bounds)
}

// The budgets of the tenant at a place of a rig with this many lines, in this version of the format.
#[tactic(auto, using(crate::proofs::NumbersOf::budgets_by_parts))]
fn budgets_of(
    alloc: Global,
    fields: &Table,
    version: usize,
    lines: usize,
    tenant: TenantId,
) -> Result<Budgets, ConfigFault>
    ensures value { Gives result (budgets_of version lines tenant (table_view fields.now)) }
    ensures ranges { IfOk result (λ budgets. IsTrue (are_budgets lines budgets)) }
{
    let reads = line_set(
        alloc,
        fields,
        FieldPlace::of_tenant(tenant, Field::Reads),
        lines,
    )?;
    let writes = line_set(
        alloc,
        fields,
        FieldPlace::of_tenant(tenant, Field::Writes),
        lines,
    )?;
    let numbers = numbers_of(fields, tenant)?;
    let bounds = bounds_of(fields, version, tenant)?;
    Ok(Budgets {
        reads,
        writes,
        bytes: numbers.bytes,
        ports: numbers.ports,
        tasks: numbers.tasks,
        modes: numbers.modes,
        steps: numbers.steps as u64,
        trace: numbers.trace,
        offers: numbers.offers,
        binds: numbers.binds,
        bounds,
    })
}

// The tenant at a place of a rig with this many lines, in this version of the format.
#[tactic(auto, unfolding(crate::specs::Reading::tenant_of))]
fn tenant(
    alloc: Global,
    fields: &Table,
    version: usize,
    lines: usize,
    place: TenantId,
) -> Result<TenantConfig, ConfigFault>
    ensures value { Gives result (tenant_of version lines place (table_view fields.now)) }
    ensures ranges { IfOk result (λ tenant. IsTrue (is_tenant_config lines tenant)) }
{
    let name = name(fields, place)?;
    let key = key(alloc, fields, place)?;
    let budgets = budgets_of(alloc, fields, version, lines, place)?;
    Ok(TenantConfig { name, key, budgets })
}

// The tenants of these tables, one after the other.
fn tenants(
    alloc: Global,
    tables: &[Value],
    version: usize,
    lines: usize,
) -> Result<List<TenantConfig>, ConfigFault>
    ensures value { Gives result (tenants_from version lines 0 (items_view tables.now)) }
    ensures ranges { IfOk result (λ tenants. IsTrue (list_all (is_tenant_config lines) tenants)) }
    ensures many { IfOk result (λ tenants. length tenants ≡ length tables.now) }
{
    let mut tenants = Vec::new(alloc);
    for (place, table) in tables.iter().enumerate() {
        let Some(fields) = table.as_table() else {
            return Err(ConfigFault::Range(FieldPlace::of_rig(Field::Tenant)));
        };
        tenants.push(tenant(alloc, fields, version, lines, place)?)?;
    }
    Ok(List::from_vec(tenants))
}

// Whether one of the tenants has this name.
fn has_name(tenants: &[TenantConfig], name: &Name) -> bool
    ensures { result ≡ is_among (map (λ (t : TenantConfig). t.name) tenants.now) name.now }
{
    match tenants {
        [] => false,
        [first, rest @ ..] => first.name == *name || has_name(rest, name),
    }
}

// Whether no two of the tenants have the same name.
fn have_different_names(tenants: &[TenantConfig]) -> bool
    ensures { result ≡ all_different (map (λ (t : TenantConfig). t.name) tenants.now) }
{
    match tenants {
        [] => true,
        [first, rest @ ..] => !has_name(rest, &first.name) && have_different_names(rest),
    }
}

// Whether a line is among these.
fn may_use(lines: &[usize], line: usize) -> bool
    ensures { result ≡ may_use lines.now line }
{
    lines.iter().any(|&other| line == other)
}

// Whether a line is among both.
fn share_a_line(lines: &[usize], others: &[usize]) -> bool
    ensures { result ≡ list_any (may_use others.now) lines.now }
{
    lines.iter().any(|&line| may_use(others, line))
}

// Whether no line may be driven by both.
fn drive_apart(one: &TenantConfig, other: &TenantConfig) -> bool
    ensures { result ≡ drive_apart one.now other.now }
{
    !share_a_line(
        one.budgets.writes.as_slice(),
        other.budgets.writes.as_slice(),
    )
}

// Whether no line may be driven by the one and by one of the others.
fn drives_apart(one: &TenantConfig, others: &[TenantConfig]) -> bool
    ensures { result ≡ list_all (drive_apart one.now) others.now }
{
    others.iter().all(|other| drive_apart(one, other))
}

// Whether no line may be driven by two of the tenants.
fn all_drive_apart(tenants: &[TenantConfig]) -> bool
    ensures { result ≡ all_drive_apart tenants.now }
{
    match tenants {
        [] => true,
        [first, rest @ ..] => drives_apart(first, rest) && all_drive_apart(rest),
    }
}

// The configuration of these tenants, if their names are different and no line may be driven by two of them.
fn configured(lines: usize, tenants: List<TenantConfig>) -> Result<Config, ConfigFault>
    requires lines { IsTrue (is_in_range field.Lines lines) }
    requires roster { IsTrue (is_in_range field.Tenant (length tenants)) }
    requires tenants { IsTrue (list_all (is_tenant_config lines) tenants) }
    ensures { result ≡ rig_with lines tenants }
{
    if !have_different_names(tenants.as_slice()) {
        return Err(ConfigFault::Twice(Field::Name));
    }
    if !all_drive_apart(tenants.as_slice()) {
        return Err(ConfigFault::Twice(Field::Writes));
    }
    Ok(Config { lines, tenants })
}

// The tables of the tenants.
fn roster(fields: &Table) -> Result<&Array, ConfigFault>
    ensures found { IfOk result (λ tables. read tables_in (rig_field field.Tenant) (table_view fields.now) ≡ Ok (array_view tables.now)) }
    ensures refused { IfErr result (λ fault. read tables_in (rig_field field.Tenant) (table_view fields.now) ≡ Err fault) }
    ensures range { IfOk result (λ tables. IsTrue (is_in_range field.Tenant (length tables.now.items))) }
{
    let at = FieldPlace::of_rig(Field::Tenant);
    let value = value_of(fields, at)?;
    tables_in(value).ok_or(ConfigFault::Range(at))
}

// The configuration that a document's fields describe.
#[tactic(auto, unfolding(crate::specs::Reading::rig_of))]
fn rig(alloc: Global, fields: &Table) -> Result<Config, ConfigFault>
    ensures { Gives result (rig_of (table_view fields.now)) }
{
    let version = number(fields, FieldPlace::of_rig(Field::Version))?;
    let lines = number(fields, FieldPlace::of_rig(Field::Lines))?;
    let tables = roster(fields)?;
    let tenants = tenants(alloc, tables, version, lines)?;
    configured(lines, tenants)
}

/// The configuration that a TOML text describes.
///
/// The text has `version`, which is 1 or 2, `lines`, and an array `tenant` of tables, each with the fields of [`Field`]. Version 1 has
/// no `low` and `high`: all values are within the bounds of its tenants. Fields with other names are ignored.
///
/// # Errors
/// The first fault in this order: `NotToml`; faults of the rig's fields, then of each tenant's, in the order of [`Field`], `Missing`
/// before `Range`; `Twice(Name)`; `Twice(Writes)`. Or `Memory`, if memory runs out.
pub fn read_config(alloc: Global, text: &str) -> Result<Config, ConfigFault>
    ensures { result ≢ Err ConfigFault.Memory → result ≡ config_of text.now }
{
    match toml::table_from_str(alloc, text) {
        Ok(table) => rig(alloc, &table),
        Err(error) if error.is_memory() => Err(ConfigFault::Memory),
        Err(_) => Err(ConfigFault::NotToml),
    }
}
