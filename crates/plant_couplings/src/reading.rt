//! Reads the plant from the text of a configuration.

ghost use Rattle.std.specs.Prelude.{◌≡◌, ◌≢◌, Ok, Err, IfOk, IfErr, option_map};
ghost use Rattle.toml.specs.Data.{get_member};
ghost use Rattle.toml.specs.View.{items_view, table_view, view};
ghost use Rattle.plant_couplings.specs.Reading.{are_lines, coupling_of, couplings_from, lines_of, numbers_in, plant_in, plant_of, value_of};
ghost use Rattle.plant_couplings.specs.inner.Gives.{Gives};
ghost use Rattle.rig_model.specs.config.Reading.{whole_in};

use crate::couplings::{Coupling, Plant};
use crate::faults::{PlantFault, PlantField, PlantPlace};
use giotto_tasks::lists::List;
use std::alloc::{AllocError, Global};
use toml::{Table, Value};

// The value with this key.
fn member<'a>(fields: &'a Table, word: &str) -> Option<&'a Value>
    ensures { option_map (λ value. view value.now) result ≡ get_member word.now (table_view fields.now) }
{
    fields.get(word)
}

// The value of a field.
fn value_of(fields: &Table, at: PlantPlace) -> Result<&Value, PlantFault>
    ensures found { IfOk result (λ value. value_of at (table_view fields.now) ≡ Ok (view value.now)) }
    ensures missing { IfErr result (λ fault. value_of at (table_view fields.now) ≡ Err fault) }
{
    match member(fields, at.field.word()) {
        Some(value) => Ok(value),
        None => Err(PlantFault::Missing(at)),
    }
}

// A value as a whole number.
fn whole_in(value: &Value) -> Option<usize>
    ensures { result ≡ whole_in (view value.now) }
{
    usize::try_from(value.as_integer()?).ok()
}

// A value as an array of whole numbers.
fn numbers_in(alloc: Global, value: &Value) -> Result<Option<List<usize>>, AllocError>
    ensures { IfOk result (λ found. found ≡ numbers_in (view value.now)) }
{
    let Some(values) = value.as_array() else {
        return Ok(None);
    };
    let mut numbers = Vec::new(alloc);
    for value in values {
        let Some(number) = whole_in(value) else {
            return Ok(None);
        };
        numbers.push(number)?;
    }
    Ok(Some(List::from_vec(numbers)))
}

// Whether a rig with this many lines has each of these.
fn are_lines(lines: usize, numbers: &[usize]) -> bool
    ensures { result ≡ are_lines lines numbers.now }
{
    numbers.iter().all(|&number| number < lines)
}

// The lines of a field, in a rig with this many lines.
fn lines_of(
    alloc: Global,
    fields: &Table,
    at: PlantPlace,
    lines: usize,
) -> Result<List<usize>, PlantFault>
    ensures { Gives result (lines_of lines at (table_view fields.now)) }
{
    let value = value_of(fields, at)?;
    let numbers = numbers_in(alloc, value)?.ok_or(PlantFault::Numbers(at))?;
    if !are_lines(lines, numbers.as_slice()) {
        return Err(PlantFault::NoLine(at));
    }
    Ok(numbers)
}

// The coupling of the table at a place, in a rig with this many lines.
#[tactic(auto, unfolding(crate::specs::Reading::coupling_of))]
fn coupling(
    alloc: Global,
    fields: &Table,
    lines: usize,
    place: usize,
) -> Result<Coupling, PlantFault>
    ensures { Gives result (coupling_of lines place (table_view fields.now)) }
{
    let from = lines_of(
        alloc,
        fields,
        PlantPlace::new(place, PlantField::From),
        lines,
    )?;
    let to = lines_of(alloc, fields, PlantPlace::new(place, PlantField::To), lines)?;
    Ok(Coupling { from, to })
}

// The couplings of these tables, one after the other.
fn couplings(alloc: Global, tables: &[Value], lines: usize) -> Result<List<Coupling>, PlantFault>
    ensures { Gives result (couplings_from lines 0 (items_view tables.now)) }
{
    let mut couplings = Vec::new(alloc);
    for (place, table) in tables.iter().enumerate() {
        let Some(fields) = table.as_table() else {
            return Err(PlantFault::Tables);
        };
        couplings.push(coupling(alloc, fields, lines, place)?)?;
    }
    Ok(List::from_vec(couplings))
}

// The plant that a document's fields declare.
#[tactic(auto, unfolding(crate::specs::Reading::plant_in))]
fn plant(alloc: Global, fields: &Table, lines: usize) -> Result<Plant, PlantFault>
    ensures { Gives result (plant_in lines (table_view fields.now)) }
{
    let Some(value) = member(fields, "plant") else {
        return Ok(Plant::undeclared());
    };
    let tables = value.as_array().ok_or(PlantFault::Tables)?;
    let couplings = couplings(alloc, tables.as_slice(), lines)?;
    Ok(Plant {
        couplings: Some(couplings),
    })
}

/// The plant that the TOML text of a configuration declares, for a rig with this many lines.
///
/// `plant` is an array of tables, each with two fields: `from`, the lines that are driven, and `to`, the lines that are read. Fields with
/// other names are ignored. Without `plant`, the plant isn't declared.
///
/// # Errors
/// The first fault in this order: `NotToml`; `Tables`; then, table by table, `from` before `to`: `Missing`, `Numbers`, `NoLine`. Or
/// `Memory`, if memory runs out.
pub fn read_plant(alloc: Global, text: &str, lines: usize) -> Result<Plant, PlantFault>
    ensures { result ≢ Err PlantFault.Memory → result ≡ plant_of lines text.now }
{
    match toml::table_from_str(alloc, text) {
        Ok(table) => plant(alloc, &table, lines),
        Err(error) if error.is_memory() => Err(PlantFault::Memory),
        Err(_) => Err(PlantFault::NotToml),
    }
}
