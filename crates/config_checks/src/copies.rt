//! The configuration of a rig as one supplier may have it: all fields, but only the supplier's own key.

ghost use Rattle.std.specs.Prelude.{◌≡◌, ◌++◌, IfOk, OnOk, codes, string_bytes};
ghost use Rattle.std.specs.Fmt.{signed_decimal};
ghost use Rattle.std.specs.List.{flat_map};
ghost use Rattle.config_checks.specs.Copies.{array_of, bounds_of, budgets_in_toml, configuration_for, coupling_in_toml, couplings_in_toml, escaped, grants_of, head_for, in_quotes, limits_of, lines_of, names_for, plant_in_toml, shown_key, table_for, table_of};

use crate::notes::name_at;
use plant_couplings::couplings::{Coupling, Plant};
use program_checks::numbers::text_of_numbers;
use rig_model::config::intervals::Bounds;
use rig_model::config::{Budgets, Config, TenantConfig, TenantId};
use std::alloc::{AllocError, Global};

/// What a copy has in place of the key of another tenant.
pub(crate) const HIDDEN: &[u8] = b"hidden";

/// The configuration as the tenant at this place may have it, in TOML: all fields of version 2, but the keys of all other tenants are
/// `hidden`. If there is no such place, all keys are.
///
/// # Errors
/// Out of memory.
pub fn configuration_for(
    alloc: Global,
    config: &Config,
    tenant: TenantId,
) -> Result<String, AllocError>
    ensures { IfOk result (λ text. string_bytes text ≡ configuration_for config.now tenant) }
{
    let supplier = name_at(config, tenant);
    let mut text = head_for(alloc, supplier, config.lines())?;
    add_tables(alloc, &mut text, supplier, config.tenants())?;
    Ok(text)
}

/// The plant of a configuration, as tables `[[plant]]` in TOML, each after an empty line. A plant that is declared and couples nothing is a table
/// without lines; one that isn't declared is the empty text.
///
/// # Errors
/// Out of memory.
pub fn plant_in_toml(alloc: Global, plant: &Plant) -> Result<String, AllocError>
    ensures { IfOk result (λ text. string_bytes text ≡ plant_in_toml plant.now.couplings) }
{
    match &plant.couplings {
        Some(couplings) => couplings_in_toml(alloc, couplings.as_slice()),
        None => Ok(String::new(alloc)),
    }
}

fn couplings_in_toml(alloc: Global, couplings: &[Coupling]) -> Result<String, AllocError>
    ensures { IfOk result (λ text. string_bytes text ≡ couplings_in_toml couplings.now) }
{
    if couplings.is_empty() {
        return coupling_in_toml(alloc, &[], &[]);
    }
    let mut text = String::new(alloc);
    add_couplings(alloc, &mut text, couplings)?;
    Ok(text)
}

fn add_couplings(alloc: Global, text: &mut String, couplings: &[Coupling]) -> Result<(), AllocError>
    ensures { OnOk result (string_bytes text.new ≡ string_bytes text.old ++ flat_map table_of couplings.now) }
{
    for coupling in couplings {
        let table = table_of(alloc, coupling)?;
        text.push_str(table.as_str())?;
    }
    Ok(())
}

// One table of a plant.
fn table_of(alloc: Global, coupling: &Coupling) -> Result<String, AllocError>
    ensures { IfOk result (λ table. string_bytes table ≡ table_of coupling.now) }
{
    coupling_in_toml(alloc, coupling.from.as_slice(), coupling.to.as_slice())
}

// The table that couples these lines.
fn coupling_in_toml(alloc: Global, from: &[usize], to: &[usize]) -> Result<String, AllocError>
    ensures { IfOk result (λ table. string_bytes table ≡ coupling_in_toml from.now to.now) }
{
    let driven = array_of(alloc, from)?;
    let read = array_of(alloc, to)?;
    format!(in alloc;
        "\n[[plant]]\nfrom = {}\nto = {}\n",
        driven.as_str(),
        read.as_str()
    )
}

fn head_for(alloc: Global, supplier: &str, lines: usize) -> Result<String, AllocError>
    ensures { IfOk result (λ head. string_bytes head ≡ head_for supplier.now lines) }
{
    format!(in alloc;
        "# For {supplier}, made by `rig_host config`: the keys of the other tenants are hidden.\nversion = 2\nlines = {lines}\n"
    )
}

fn add_tables(
    alloc: Global,
    text: &mut String,
    supplier: &str,
    tenants: &[TenantConfig],
) -> Result<(), AllocError>
    ensures { OnOk result (string_bytes text.new ≡ string_bytes text.old ++ flat_map (table_for supplier.now) tenants.now) }
{
    for tenant in tenants {
        let table = table_for(alloc, supplier, tenant)?;
        text.push_str(table.as_str())?;
    }
    Ok(())
}

// The table of a tenant, as the supplier may have it.
fn table_for(alloc: Global, supplier: &str, tenant: &TenantConfig) -> Result<String, AllocError>
    ensures { IfOk result (λ table. string_bytes table ≡ table_for supplier.now tenant.now) }
{
    let names = names_for(alloc, supplier, tenant)?;
    let budgets = budgets_in_toml(alloc, &tenant.budgets)?;
    format!(in alloc; "{}{}", names.as_str(), budgets.as_str())
}

fn names_for(alloc: Global, supplier: &str, tenant: &TenantConfig) -> Result<String, AllocError>
    ensures { IfOk result (λ rows. string_bytes rows ≡ names_for supplier.now tenant.now) }
{
    let name = tenant.name.as_str();
    let key = in_quotes(alloc, shown_key(supplier, tenant))?;
    format!(in alloc; "\n[[tenant]]\nname = \"{name}\"\nkey = {}\n", key.as_str())
}

// The key that the supplier is shown.
fn shown_key<'a>(supplier: &str, tenant: &'a TenantConfig) -> &'a [u8]
    ensures { result.now ≡ shown_key supplier.now tenant.now }
{
    if tenant.name.as_str() == supplier {
        tenant.key.as_slice()
    } else {
        HIDDEN
    }
}

// A TOML string of these characters, which are ASCII.
fn in_quotes(alloc: Global, characters: &[u8]) -> Result<String, AllocError>
    ensures { IfOk result (λ text. string_bytes text ≡ in_quotes characters.now) }
{
    let mut inner = String::new(alloc);
    for character in characters {
        push_escaped(&mut inner, *character)?;
    }
    format!(in alloc; "\"{}\"", inner.as_str())
}

fn push_escaped(text: &mut String, character: u8) -> Result<(), AllocError>
    ensures { OnOk result (string_bytes text.new ≡ string_bytes text.old ++ escaped character) }
{
    match character {
        b'"' => text.push_str("\\\""),
        b'\\' => text.push_str("\\\\"),
        _ => text.push(char::from(character)),
    }
}

fn budgets_in_toml(alloc: Global, budgets: &Budgets) -> Result<String, AllocError>
    ensures { IfOk result (λ rows. string_bytes rows ≡ budgets_in_toml budgets.now) }
{
    let lines = lines_of(alloc, budgets)?;
    let limits = limits_of(alloc, budgets)?;
    let grants = grants_of(alloc, budgets)?;
    let bounds = bounds_of(alloc, &budgets.bounds)?;
    format!(in alloc;
        "{}{}{}{}",
        lines.as_str(),
        limits.as_str(),
        grants.as_str(),
        bounds.as_str()
    )
}

fn lines_of(alloc: Global, budgets: &Budgets) -> Result<String, AllocError>
    ensures { IfOk result (λ rows. string_bytes rows ≡ lines_of budgets.now) }
{
    let reads = array_of(alloc, budgets.reads.as_slice())?;
    let writes = array_of(alloc, budgets.writes.as_slice())?;
    format!(in alloc;
        "reads = {}\nwrites = {}\n",
        reads.as_str(),
        writes.as_str()
    )
}

// A TOML array of these numbers.
fn array_of(alloc: Global, numbers: &[usize]) -> Result<String, AllocError>
    ensures { IfOk result (λ text. string_bytes text ≡ array_of numbers.now) }
{
    if numbers.is_empty() {
        return String::from_str(alloc, "[]");
    }
    let inner = text_of_numbers(alloc, numbers)?;
    format!(in alloc; "[{}]", inner.as_str())
}

fn limits_of(alloc: Global, budgets: &Budgets) -> Result<String, AllocError>
    ensures { IfOk result (λ rows. string_bytes rows ≡ limits_of budgets.now) }
{
    format!(in alloc;
        "bytes = {}\nports = {}\ntasks = {}\nmodes = {}\nsteps = {}\n",
        budgets.bytes, budgets.ports, budgets.tasks, budgets.modes, budgets.steps
    )
}

fn grants_of(alloc: Global, budgets: &Budgets) -> Result<String, AllocError>
    ensures { IfOk result (λ rows. string_bytes rows ≡ grants_of budgets.now) }
{
    format!(in alloc;
        "trace = {}\noffers = {}\nbinds = {}\n",
        budgets.trace, budgets.offers, budgets.binds
    )
}

fn bounds_of(alloc: Global, bounds: &Bounds) -> Result<String, AllocError>
    ensures { IfOk result (λ rows. string_bytes rows ≡ bounds_of bounds.now) }
{
    rows_between(alloc, bounds.low(), bounds.high())
}

fn rows_between(alloc: Global, low: i64, high: i64) -> Result<String, AllocError>
    ensures { IfOk result (λ rows. string_bytes rows ≡ codes "low = " ++ (signed_decimal low ++ (codes "\nhigh = " ++ (signed_decimal high ++ codes "\n")))) }
{
    format!(in alloc; "low = {low}\nhigh = {high}\n")
}
