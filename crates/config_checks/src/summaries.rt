//! What a configuration has: the lines of the rig, and the tenants with their budgets.

ghost use Rattle.std.specs.Prelude.{◌≡◌, ◌++◌, IfOk, OnOk, codes, string_bytes};
ghost use Rattle.std.specs.List.{flat_map};
ghost use Rattle.std.specs.Fmt.{signed_decimal};
ghost use Rattle.config_checks.specs.Summaries.{heading_of, row_of_grants, row_of_lines, row_of_programs, rows_of_tenant, summary_of, words_of_bounds};

use program_checks::numbers::text_of_numbers;
use rig_model::config::intervals::Bounds;
use rig_model::config::{Budgets, Config, TenantConfig};
use std::alloc::{AllocError, Global};

/// The lines of a rig, and its tenants with three rows for each.
///
/// # Errors
/// Out of memory.
pub(crate) fn summary_of(alloc: Global, file: &str, config: &Config) -> Result<String, AllocError>
    ensures { IfOk result (λ told. string_bytes told ≡ summary_of file.now config.now) }
{
    let mut told = heading_of(alloc, file, config)?;
    add_tenants(alloc, &mut told, config.tenants())?;
    Ok(told)
}

fn add_tenants(alloc: Global, told: &mut String, tenants: &[TenantConfig]) -> Result<(), AllocError>
    ensures { OnOk result (string_bytes told.new ≡ string_bytes told.old ++ flat_map rows_of_tenant tenants.now) }
{
    for tenant in tenants {
        let rows = rows_of_tenant(alloc, tenant)?;
        told.push_str(rows.as_str())?;
    }
    Ok(())
}

fn heading_of(alloc: Global, file: &str, config: &Config) -> Result<String, AllocError>
    ensures { IfOk result (λ told. string_bytes told ≡ heading_of file.now config.now) }
{
    let (lines, count) = (config.lines(), config.tenants().len());
    format!(in alloc; "{file}: rig lines {lines}, tenants {count}\n")
}

// What a tenant may use.
fn rows_of_tenant(alloc: Global, tenant: &TenantConfig) -> Result<String, AllocError>
    ensures { IfOk result (λ rows. string_bytes rows ≡ rows_of_tenant tenant.now) }
{
    let lines = row_of_lines(alloc, tenant)?;
    let programs = row_of_programs(alloc, &tenant.budgets)?;
    let grants = row_of_grants(alloc, &tenant.budgets)?;
    format!(in alloc;
        "{}{}{}",
        lines.as_str(),
        programs.as_str(),
        grants.as_str()
    )
}

fn row_of_lines(alloc: Global, tenant: &TenantConfig) -> Result<String, AllocError>
    ensures { IfOk result (λ row. string_bytes row ≡ row_of_lines tenant.now) }
{
    let name = tenant.name.as_str();
    let reads = text_of_numbers(alloc, tenant.budgets.reads.as_slice())?;
    let writes = text_of_numbers(alloc, tenant.budgets.writes.as_slice())?;
    format!(in alloc;
        "tenant {name}: may read {}; may drive {}\n",
        reads.as_str(),
        writes.as_str()
    )
}

fn row_of_programs(alloc: Global, budgets: &Budgets) -> Result<String, AllocError>
    ensures { IfOk result (λ row. string_bytes row ≡ row_of_programs budgets.now) }
{
    format!(in alloc;
        "  bytes {}, ports {}, tasks {}, modes {}, steps {}\n",
        budgets.bytes, budgets.ports, budgets.tasks, budgets.modes, budgets.steps
    )
}

fn row_of_grants(alloc: Global, budgets: &Budgets) -> Result<String, AllocError>
    ensures { IfOk result (λ row. string_bytes row ≡ row_of_grants budgets.now) }
{
    let bounds = words_of_bounds(alloc, &budgets.bounds)?;
    format!(in alloc;
        "  trace {}, offers {}, binds {}, offers go from {}\n",
        budgets.trace,
        budgets.offers,
        budgets.binds,
        bounds.as_str()
    )
}

fn words_of_bounds(alloc: Global, bounds: &Bounds) -> Result<String, AllocError>
    ensures { IfOk result (λ words. string_bytes words ≡ words_of_bounds bounds.now) }
{
    words_between(alloc, bounds.low(), bounds.high())
}

fn words_between(alloc: Global, low: i64, high: i64) -> Result<String, AllocError>
    ensures { IfOk result (λ words. string_bytes words ≡ signed_decimal low ++ (codes " to " ++ signed_decimal high)) }
{
    format!(in alloc; "{low} to {high}")
}
