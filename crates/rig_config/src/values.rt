//! What a field's value has to be.

ghost use Rattle.std.specs.Prelude.{◌≡◌, length, option_map, IfOk, IfSome, IsTrue};
ghost use Rattle.std.specs.List.{list_all};
ghost use Rattle.std.specs.Option.{option_copied};
ghost use Rattle.toml.specs.View.{array_view, items_view, view};
ghost use Rattle.rig_config.specs.Fields.{from_to, is_in_range};
ghost use Rattle.rig_config.specs.Ranges.{are_lines, is_key, is_lower, is_byte_of_tenant_name, is_tenant_name};
ghost use Rattle.rig_config.specs.Reading.{are_tables, key_in, line_in, lines_in, tenant_name_in, number_in, tables_in, whole_in};
ghost use Rattle.rig_config.specs.declared.faults.Field.TheVariants as field;

use crate::faults::Field;
use giotto_tasks::lists::List;
use giotto_tasks::names::Name;
use std::alloc::{AllocError, Global};
use toml::Value;
use toml::value::Array;

// A value as a whole number.
fn whole_in(value: &Value) -> Option<usize>
    ensures { result ≡ whole_in (view value.now) }
{
    usize::try_from(value.as_integer()?).ok()
}

// A field's value as a number within the field's range.
pub(crate) fn number_in(field: Field, value: &Value) -> Option<usize>
    ensures value { result ≡ number_in field (view value.now) }
    ensures range { IfSome result (λ n. IsTrue (is_in_range field n)) }
{
    let number = whole_in(value)?;
    if field.allows(number) {
        Some(number)
    } else {
        None
    }
}

// A value as a tenant's name.
pub(crate) fn name_in(value: &Value) -> Option<Name>
    ensures value { result ≡ tenant_name_in (view value.now) }
    ensures range { IfSome result (λ name. IsTrue (is_tenant_name name)) }
{
    let text = value.as_str()?;
    if is_tenant_name(text) {
        Name::new(text)
    } else {
        None
    }
}

fn is_tenant_name(text: &str) -> bool
    ensures { result ≡ is_tenant_name text.now }
{
    let [first, rest @ ..] = text.as_bytes() else {
        return false;
    };
    Field::Name.allows(text.len())
        && is_lower(*first)
        && are_name_bytes(rest)
        && text != "op"
        && text != "host"
}

fn is_lower(byte: u8) -> bool
    ensures { result ≡ is_lower byte }
{
    b'a' <= byte && byte <= b'z'
}

fn are_name_bytes(bytes: &[u8]) -> bool
    ensures { result ≡ list_all is_byte_of_tenant_name bytes.now }
{
    bytes.iter().all(|&byte| is_lower(byte) || (b'0' <= byte && byte <= b'9') || byte == b'_')
}

// A value as a key.
pub(crate) fn key_in(value: &Value) -> Option<&str>
    ensures value { option_copied result ≡ key_in (view value.now) }
    ensures range { IfSome result (λ key. IsTrue (is_key key.now)) }
{
    let key = value.as_str()?;
    if Field::Key.allows(key.len()) && are_key_bytes(key.as_bytes()) {
        Some(key)
    } else {
        None
    }
}

fn are_key_bytes(bytes: &[u8]) -> bool
    ensures { result ≡ list_all (from_to 33 126) bytes.now }
{
    bytes.iter().all(|&byte| 0x21 <= byte && byte <= 0x7e)
}

// A value as the number of a line, in a rig with this many lines.
fn line_in(value: &Value, lines: usize) -> Option<usize>
    ensures { result ≡ line_in lines (view value.now) }
{
    let line = whole_in(value)?;
    if line < lines { Some(line) } else { None }
}

// A value as an array of numbers of lines, in a rig with this many lines.
pub(crate) fn lines_in(
    alloc: Global,
    value: &Value,
    lines: usize,
) -> Result<Option<List<usize>>, AllocError>
    ensures value { IfOk result (λ found. found ≡ lines_in lines (view value.now)) }
    ensures range { IfOk result (λ found. IfSome found (λ ks. IsTrue (are_lines lines ks))) }
{
    let Some(values) = value.as_array() else {
        return Ok(None);
    };
    let mut numbers = Vec::new(alloc);
    for value in values {
        let Some(line) = line_in(value, lines) else {
            return Ok(None);
        };
        numbers.push(line)?;
    }
    Ok(Some(List::from_vec(numbers)))
}

// A value as the array of the tenants' tables.
#[tactic(auto, using(crate::proofs::ArrayValues::count_of_values))]
pub(crate) fn tables_in(value: &Value) -> Option<&Array>
    ensures value { option_map (λ tables. array_view tables.now) result ≡ tables_in (view value.now) }
    ensures range { IfSome result (λ tables. IsTrue (is_in_range field.Tenant (length tables.now.items))) }
{
    let tables = value.as_array()?;
    if Field::Tenant.allows(tables.len()) && are_tables(tables) {
        Some(tables)
    } else {
        None
    }
}

fn are_tables(values: &[Value]) -> bool
    ensures { result ≡ are_tables (items_view values.now) }
{
    for value in values {
        if !value.is_table() {
            return false;
        }
    }
    true
}
