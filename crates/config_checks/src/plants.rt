//! The finding about a plant that is declared wrong, and notes on lines to which a plant couples nothing.

ghost use Rattle.std.specs.Prelude.{◌≡◌, ◌++◌, IfOk, OnOk, map, string_bytes};
ghost use Rattle.std.specs.List.{flat_map, list_any};
ghost use Rattle.config_checks.specs.Notes.{as_note, told_of};
ghost use Rattle.config_checks.specs.Plants.{TellsPlantFault, is_fed, note_of_unfed, unfed_of, unfed_on, words_of_fault, words_of_place, words_of_table, words_of_unfed};
ghost use Rattle.rig_model.specs.config.Roster.{may_use};

use crate::faults::finding;
use crate::helps::misspelled_in;
use crate::places::{offset_of, offset_of_table, place_of};
use giotto_faults::findings::{Finding, Severity};
use plant_couplings::couplings::{Coupling, Plant};
use plant_couplings::faults::{PlantFault, PlantField, PlantPlace};
use rig_model::config::faults::Field;
use rig_model::config::{Config, TenantConfig, TenantId};
use std::alloc::{AllocError, Global};
use toml::Value;

// The header of a table of a plant.
const HEADER: &str = "[[plant]]";

/// The finding that reports the fault of the plant in this text, for a rig with this many lines.
///
/// # Errors
/// Out of memory.
pub(crate) fn finding_of_plant(
    alloc: Global,
    text: &str,
    lines: usize,
    fault: PlantFault,
) -> Result<Finding, AllocError>
    ensures { IfOk result (TellsPlantFault fault) }
{
    let (offset, len) = span_of(text, fault);
    Ok(Finding {
        severity: Severity::Error,
        offset,
        len,
        message: words_of_fault(alloc, fault)?,
        rule: None,
        help: help_on(alloc, text, lines, fault)?,
    })
}

// What is wrong.
fn words_of_fault(alloc: Global, fault: PlantFault) -> Result<String, AllocError>
    ensures { IfOk result (λ words. string_bytes words ≡ words_of_fault fault) }
{
    match fault {
        PlantFault::NotToml | PlantFault::Memory => String::from_str(alloc, "invalid TOML"),
        PlantFault::Tables => String::from_str(alloc, "`plant` is no array of tables"),
        PlantFault::Missing(at) => words_of_missing(alloc, at),
        PlantFault::Numbers(at) => words_of_place(alloc, at, " is no array of whole numbers"),
        PlantFault::NoLine(at) => words_of_place(alloc, at, " has a line that isn't there"),
    }
}

// That a table has no such field.
fn words_of_missing(alloc: Global, at: PlantPlace) -> Result<String, AllocError>
    ensures { IfOk result (λ words. string_bytes words ≡ words_of_fault (PlantFault.Missing at)) }
{
    let table = words_of_table(alloc, at.table)?;
    let word = at.field.word();
    format!(in alloc; "{table} has no `{word}`")
}

// What a field of a table is or has.
fn words_of_place(alloc: Global, at: PlantPlace, what: &str) -> Result<String, AllocError>
    ensures { IfOk result (λ words. string_bytes words ≡ words_of_place at ++ what.now) }
{
    let table = words_of_table(alloc, at.table)?;
    let word = at.field.word();
    format!(in alloc; "`{word}` of {table}{what}")
}

// A table by its number.
fn words_of_table(alloc: Global, table: usize) -> Result<String, AllocError>
    ensures { IfOk result (λ words. string_bytes words ≡ words_of_table table) }
{
    let number = table as u128 + 1;
    format!(in alloc; "table {number} of the plant, counted from 1,")
}

// Where the fault is in the text, and how many bytes it is about.
fn span_of(text: &str, fault: PlantFault) -> (usize, usize) {
    match fault {
        PlantFault::Missing(at) => (offset_of_table(text, HEADER, at.table, ""), HEADER.len()),
        PlantFault::Numbers(at) | PlantFault::NoLine(at) => {
            let word = at.field.word();
            (offset_of_table(text, HEADER, at.table, word), word.len())
        }
        PlantFault::Tables | PlantFault::NotToml | PlantFault::Memory => (0, 0),
    }
}

// How to fix it.
fn help_on(
    alloc: Global,
    text: &str,
    lines: usize,
    fault: PlantFault,
) -> Result<Option<String>, AllocError> {
    let help = match fault {
        PlantFault::Tables => {
            String::from_str(
                alloc,
                "write each table as `[[plant]]`, with `from` and `to`",
            )?
        }
        PlantFault::Missing(at) => help_on_missing(alloc, text, at)?,
        PlantFault::Numbers(at) => help_on_field(alloc, at.field)?,
        PlantFault::NoLine(_) => {
            let last = lines.saturating_sub(1);
            format!(in alloc; "`lines` is {lines}: the last line is {last}")?
        }
        PlantFault::NotToml | PlantFault::Memory => return Ok(None),
    };
    Ok(Some(help))
}

// The key that may be meant for a missing field, or else what the field is.
fn help_on_missing(alloc: Global, text: &str, at: PlantPlace) -> Result<String, AllocError> {
    let word = at.field.word();
    if let Ok(document) = toml::table_from_str(alloc, text)
        && let Some(tables) = document.get("plant").and_then(Value::as_array)
        && let Some(fields) = tables.get(at.table).and_then(Value::as_table)
        && let Some(key) = misspelled_in(alloc, fields, word)?
    {
        return format!(in alloc; "unknown field `{key}`: did you mean `{word}`?");
    }
    help_on_field(alloc, at.field)
}

// What a field is.
fn help_on_field(alloc: Global, field: PlantField) -> Result<String, AllocError> {
    let help = match field {
        PlantField::From => "`from` has the lines that are driven, as `from = [3]`",
        PlantField::To => "`to` has the lines that are read, as `to = [0]`",
    };
    String::from_str(alloc, help)
}

/// Adds a note on each line that a tenant may read and to which the plant couples nothing, at the `reads` of the tenant.
///
/// # Errors
/// Out of memory.
pub(crate) fn add_plant_notes(
    alloc: Global,
    notes: &mut Vec<Finding>,
    text: &str,
    config: &Config,
    plant: &Plant,
) -> Result<(), AllocError>
    ensures { OnOk result (map told_of notes.new.items ≡ map told_of notes.old.items ++ map as_note (unfed_on config.now plant.now)) }
{
    for (place, tenant) in config.tenants().iter().enumerate() {
        add_unfed_of(alloc, notes, text, plant, place, tenant)?;
    }
    Ok(())
}

// Adds the notes on the tenant at this place.
fn add_unfed_of(
    alloc: Global,
    notes: &mut Vec<Finding>,
    text: &str,
    plant: &Plant,
    place: TenantId,
    tenant: &TenantConfig,
) -> Result<(), AllocError>
    ensures { OnOk result (map told_of notes.new.items ≡ map told_of notes.old.items ++ map as_note (unfed_of plant.now tenant.now)) }
{
    for &line in tenant.budgets.reads.as_slice() {
        add_unfed(alloc, notes, text, plant, place, tenant, line)?;
    }
    Ok(())
}

// Adds the note on a line that the tenant at this place may read, if the plant couples nothing to it.
fn add_unfed(
    alloc: Global,
    notes: &mut Vec<Finding>,
    text: &str,
    plant: &Plant,
    place: TenantId,
    tenant: &TenantConfig,
    line: usize,
) -> Result<(), AllocError>
    ensures { OnOk result (map told_of notes.new.items ≡ map told_of notes.old.items ++ map as_note (note_of_unfed plant.now tenant.now.name line)) }
{
    if is_fed(plant, line) {
        return Ok(());
    }
    let message = words_of_unfed(alloc, line, tenant.name.as_str())?;
    let offset = offset_of(text, place_of(place, Field::Reads));
    notes.push(finding(Severity::Note, offset, Field::Reads, message))?;
    Ok(())
}

fn words_of_unfed(alloc: Global, line: usize, reader: &str) -> Result<String, AllocError>
    ensures { IfOk result (λ words. string_bytes words ≡ words_of_unfed line reader.now) }
{
    format!(in alloc; "line {line} may be read by `{reader}`, but the plant couples nothing to it")
}

// Whether the plant couples something to a line, or isn't declared.
fn is_fed(plant: &Plant, line: usize) -> bool
    ensures { result ≡ is_fed plant.now line }
{
    match &plant.couplings {
        Some(couplings) => one_feeds(couplings.as_slice(), line),
        None => true,
    }
}

// Whether one of these couples something to a line.
fn one_feeds(couplings: &[Coupling], line: usize) -> bool
    ensures { result ≡ list_any (λ c. may_use c.to line) couplings.now }
{
    couplings
        .iter()
        .any(|coupling| has_line(coupling.to.as_slice(), line))
}

// Whether a line is among these.
fn has_line(lines: &[usize], line: usize) -> bool
    ensures { result ≡ may_use lines.now line }
{
    lines.iter().any(|&other| line == other)
}
