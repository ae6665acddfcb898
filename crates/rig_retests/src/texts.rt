//! The table of retests as text.

ghost use Rattle.std.specs.Prelude.{◌≡◌, IfOk, string_bytes};
ghost use Rattle.rig_retests.specs.inner.Texts.{text_of_bind, text_of_place};

use crate::columns::Columns;
use crate::facts::Facts;
use crate::reaches::ReachTable;
use crate::routes::text_through_plant;
use crate::tables::Retests;
use plant_couplings::couplings::Plant;
use rig_model::config::{Config, TenantId};
use std::alloc::{AllocError, Global};
use tenant_sources::tables::Link;

// The remark on binds.
const BINDS: &str = "
A bind counts from the first tick after it, whether its value is offered or not.
";

// The remark on a plant that is declared.
const DECLARED: &str = "\
The plant is as `[[plant]]` of the configuration declares it. A tenant counts with all lines that it may drive or read, used here or not.
";

// The remark on a plant that isn't.
const UNDECLARED: &str = "\
The plant is not declared: what a tenant may drive can change what any tenant may read. `[[plant]]` of the configuration declares it.

";

/// Returns the table of retests.
///
/// Each tenant, in the order of the roster, has a row for each other tenant whose change calls for its retest, or one row if there is
/// none. Below it is the same by the tenant that changes. If the plant isn't declared, both know binds alone, and it is said whom that doesn't
/// clear.
///
/// # Errors
/// Out of memory.
pub fn text_of_retests(
    alloc: Global,
    config: &Config,
    plant: &Plant,
    retests: &Retests,
) -> Result<String, AllocError> {
    let reach = ReachTable::new(alloc, config, plant, retests)?;
    let facts = Facts {
        config,
        plant,
        retests,
        reach: &reach,
    };
    let mut text = text_of_rows(alloc, &facts)?;
    text.push('\n')?;
    let changes = text_of_changes(alloc, &facts)?;
    text.push_str(changes.as_str())?;
    text.push_str(BINDS)?;
    if plant.is_declared() {
        text.push_str(DECLARED)?;
    } else {
        text.push_str(UNDECLARED)?;
        let uncleared = text_of_uncleared(alloc, &facts)?;
        text.push_str(uncleared.as_str())?;
    }
    Ok(text)
}

// The rows by the tenant that is to be tested again.
fn text_of_rows(alloc: Global, facts: &Facts<'_>) -> Result<String, AllocError> {
    let mut columns = Columns::new(alloc);
    let titles = ["retest", "after a change of", "from", "through binds"];
    let mut titles = cells(alloc, &titles)?;
    if facts.plant.is_declared() {
        titles.push(String::from_str(alloc, "through the plant")?)?;
    }
    columns.add(titles)?;
    for tenant in 0..facts.tenants() {
        add_rows(alloc, &mut columns, facts, tenant)?;
    }
    columns.text(alloc)
}

// The rows by the tenant that changes. Each, in the order of the roster, has the tenants that need a retest then.
fn text_of_changes(alloc: Global, facts: &Facts<'_>) -> Result<String, AllocError> {
    let mut columns = Columns::new(alloc);
    columns.add(cells(alloc, &["a change of", "calls for a retest of"])?)?;
    for source in 0..facts.tenants() {
        let mut row = cells(alloc, &[name_of(facts.config, source)])?;
        row.push(retested_after(alloc, facts, source)?)?;
        columns.add(row)?;
    }
    columns.text(alloc)
}

// The tenants that need a retest after a change of this one: itself, and each that is named.
fn retested_after(
    alloc: Global,
    facts: &Facts<'_>,
    source: TenantId,
) -> Result<String, AllocError> {
    let mut text = String::from_str(alloc, name_of(facts.config, source))?;
    for tenant in 0..facts.tenants() {
        if tenant != source && facts.is_named(tenant, source) {
            let name = name_of(facts.config, tenant);
            write!(text, ", {name}")?;
        }
    }
    Ok(text)
}

// If the plant isn't declared: what each tenant may drive and read, and whom a change of it can reach though no bind leads there.
fn text_of_uncleared(alloc: Global, facts: &Facts<'_>) -> Result<String, AllocError> {
    let mut columns = Columns::new(alloc);
    columns.add(cells(
        alloc,
        &["a change of", "may drive", "may read", "not cleared"],
    )?)?;
    for source in 0..facts.tenants() {
        let Some(tenant) = facts.config.tenants().get(source) else {
            return columns.text(alloc);
        };
        let mut row = cells(alloc, &[tenant.name.as_str()])?;
        row.push(text_of_lines(alloc, tenant.budgets.writes.as_slice())?)?;
        row.push(text_of_lines(alloc, tenant.budgets.reads.as_slice())?)?;
        row.push(uncleared_after(alloc, facts, source)?)?;
        columns.add(row)?;
    }
    columns.text(alloc)
}

// The tenants that a change of this one can reach, but that aren't named.
fn uncleared_after(
    alloc: Global,
    facts: &Facts<'_>,
    source: TenantId,
) -> Result<String, AllocError> {
    let mut text = String::new(alloc);
    for tenant in 0..facts.tenants() {
        let is_uncleared = facts.reach.has(tenant, source) && !facts.is_named(tenant, source);
        if tenant != source && is_uncleared {
            let name = name_of(facts.config, tenant);
            let comma = if text.is_empty() { "" } else { ", " };
            write!(text, "{comma}{name}")?;
        }
    }
    if text.is_empty() {
        text.push('-')?;
    }
    Ok(text)
}

// The numbers of lines, as `0, 2`; `-` if there is none.
fn text_of_lines(alloc: Global, lines: &[usize]) -> Result<String, AllocError> {
    let mut text = String::new(alloc);
    for line in lines {
        let comma = if text.is_empty() { "" } else { ", " };
        write!(text, "{comma}{line}")?;
    }
    if text.is_empty() {
        text.push('-')?;
    }
    Ok(text)
}

// The rows of a tenant.
fn add_rows(
    alloc: Global,
    columns: &mut Columns,
    facts: &Facts<'_>,
    tenant: TenantId,
) -> Result<(), AllocError> {
    let mut is_alone = true;
    for source in 0..facts.tenants() {
        if tenant != source && facts.is_named(tenant, source) {
            columns.add(row_of(alloc, facts, tenant, source)?)?;
            is_alone = false;
        }
    }
    if is_alone {
        let mut row = cells(alloc, &[name_of(facts.config, tenant)])?;
        row.push(String::from_str(alloc, facts.words_of_unnamed(tenant))?)?;
        columns.add(row)?;
    }
    Ok(())
}

// The row of a tenant and one whose change calls for its retest.
fn row_of(
    alloc: Global,
    facts: &Facts<'_>,
    tenant: TenantId,
    source: TenantId,
) -> Result<Vec<String>, AllocError> {
    let Facts {
        config,
        plant,
        retests,
        reach: _,
    } = *facts;
    let chain = retests.chain(alloc, tenant, source)?;
    let mut row = cells(alloc, &[name_of(config, tenant), name_of(config, source)])?;
    let from = match chain.first() {
        Some(link) => place_of_link(alloc, retests, link)?,
        None => String::from_str(alloc, "-")?,
    };
    row.push(from)?;
    row.push(text_of_chain(alloc, config, retests, chain.as_slice())?)?;
    if plant.is_declared() {
        row.push(text_through_plant(alloc, facts, tenant, source)?)?;
    }
    Ok(row)
}

/// The binds of a chain. If there are several, each has its place. `-` if there is none.
///
/// # Errors
/// Out of memory.
pub fn text_of_chain(
    alloc: Global,
    config: &Config,
    retests: &Retests,
    chain: &[Link],
) -> Result<String, AllocError> {
    let mut text = String::new(alloc);
    for (i, link) in chain.iter().enumerate() {
        if i > 0 {
            text.push_str(", ")?;
        }
        let bind = bind_of_link(alloc, config, link)?;
        text.push_str(bind.as_str())?;
        if chain.len() > 1 {
            let place = place_of_link(alloc, retests, link)?;
            write!(text, " ({place})")?;
        }
    }
    if text.is_empty() {
        text.push('-')?;
    }
    Ok(text)
}

/// The bind of a link, as `g from alpha.a`.
///
/// # Errors
/// Out of memory.
pub fn bind_of_link(alloc: Global, config: &Config, link: &Link) -> Result<String, AllocError> {
    let supplier = name_of(config, link.supplier);
    text_of_bind(
        alloc,
        link.sensor.as_str(),
        supplier,
        link.actuator.as_str(),
    )
}

/// Returns the place in the script of a link's tick, as `line 7 tick 0`.
///
/// # Errors
/// Out of memory.
pub fn place_of_link(alloc: Global, retests: &Retests, link: &Link) -> Result<String, AllocError> {
    text_of_place(alloc, retests.line_of(link.tick), link.tick)
}

// A bind of this sensor to this actuator of a supplier.
fn text_of_bind(
    alloc: Global,
    sensor: &str,
    supplier: &str,
    actuator: &str,
) -> Result<String, AllocError>
    ensures { IfOk result (λ text. string_bytes text ≡ text_of_bind sensor.now supplier.now actuator.now) }
{
    format!(in alloc; "{sensor} from {supplier}.{actuator}")
}

// A tick, with its line if that is known.
fn text_of_place(alloc: Global, line: Option<u64>, tick: u64) -> Result<String, AllocError>
    ensures { IfOk result (λ text. string_bytes text ≡ text_of_place line tick) }
{
    match line {
        Some(line) => format!(in alloc; "line {line} tick {tick}"),
        None => format!(in alloc; "tick {tick}"),
    }
}

/// The name of the tenant at this place; empty if there is none.
pub fn name_of(config: &Config, tenant: TenantId) -> &str {
    match config.tenants().get(tenant) {
        Some(tenant) => tenant.name.as_str(),
        None => "",
    }
}

/// Cells of these texts.
///
/// # Errors
/// Out of memory.
pub fn cells(alloc: Global, texts: &[&str]) -> Result<Vec<String>, AllocError> {
    let mut cells = Vec::new(alloc);
    for text in texts {
        cells.push(String::from_str(alloc, text)?)?;
    }
    Ok(cells)
}

/// Shortens a text to at most `most` characters. A longer text is cut, and ends with ` ..`; a tab becomes a blank.
///
/// # Errors
/// Out of memory.
pub fn shortened(alloc: Global, text: &str, most: usize) -> Result<String, AllocError> {
    if text.chars().count() <= most {
        return beginning(alloc, text, most);
    }
    let first = beginning(alloc, text, most.saturating_sub(3))?;
    let first = first.as_str().trim_end();
    format!(in alloc; "{first} ..")
}

// The first `length` characters of a text, with a blank for each control character.
fn beginning(alloc: Global, text: &str, length: usize) -> Result<String, AllocError> {
    let mut shown = String::new(alloc);
    for c in text.chars().take(length) {
        shown.push(if c < ' ' { ' ' } else { c })?;
    }
    Ok(shown)
}
