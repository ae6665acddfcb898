//! Help on the fault of a configuration: what a field may be, a misspelled or misplaced key, or which two tenants share a line.

use crate::faults::{is_among, name_of, shared_in, tenant_at, tenants_in, values_in};
use rig_model::config::faults::{ConfigFault, Field, FieldPlace};
use similar_words::is_near;
use std::alloc::{AllocError, Global};
use toml::{Table, Value};

/// The help on the fault of a document, if there is any.
///
/// # Errors
/// Out of memory.
pub(crate) fn help_on(
    alloc: Global,
    document: &Value,
    fault: ConfigFault,
) -> Result<Option<String>, AllocError> {
    match fault {
        ConfigFault::Missing(at) => Ok(Some(help_on_missing(alloc, document, at)?)),
        ConfigFault::Range(at) => Ok(Some(help_on_field(alloc, document, at.field)?)),
        ConfigFault::Twice(field) => help_on_twice(alloc, document, field),
        ConfigFault::NotToml | ConfigFault::Memory => Ok(None),
    }
}

// Says which key of the table may be meant for the missing field, or else what the field may be.
fn help_on_missing(alloc: Global, document: &Value, at: FieldPlace) -> Result<String, AllocError> {
    let word = at.field.word();
    if let Some(fields) = fields_of(document, at)
        && let Some(key) = misspelled_in(alloc, fields, word)?
    {
        return format!(in alloc; "unknown field `{key}`: did you mean `{word}`?");
    }
    match at.field {
        Field::Version | Field::Lines if is_below_tenant(document, word) => format!(in alloc;
            "move `{word}` above the first `[[tenant]]`: below it, it is an unknown field of a tenant"
        ),
        Field::Low | Field::High => format!(in alloc;
            "version 2 needs `low` and `high` of each tenant; {} and {} allow all values",
            i64::MIN,
            i64::MAX
        ),
        field => help_on_field(alloc, document, field),
    }
}

// Whether a tenant has a key with this word.
fn is_below_tenant(document: &Value, word: &str) -> bool {
    tenants_in(document)
        .iter()
        .any(|tenant| tenant.get(word).is_some())
}

/// The help on a text that is not TOML, if it has a table `[tenant]`.
///
/// # Errors
/// Out of memory.
pub(crate) fn help_on_no_toml(alloc: Global, text: &str) -> Result<Option<String>, AllocError> {
    let has_table = text
        .lines()
        .any(|line| line.trim_start().starts_with("[tenant]"));
    if !has_table {
        return Ok(None);
    }
    Ok(Some(String::from_str(alloc, "each tenant is written as `[[tenant]]`")?))
}

// The table that the field belongs to.
fn fields_of(document: &Value, at: FieldPlace) -> Option<&Table> {
    match at.tenant {
        None => document.as_table(),
        Some(tenant) => match tenant_at(document, tenant) {
            Some(fields) => fields.as_table(),
            None => None,
        },
    }
}

/// A key of the table that is near the word of a missing field. The key can't be another field: the words of any two fields are
/// further apart.
///
/// # Errors
/// Out of memory.
pub(crate) fn misspelled_in<'a>(
    alloc: Global,
    fields: &'a Table,
    word: &str,
) -> Result<Option<&'a str>, AllocError> {
    for key in fields.keys() {
        if is_near(alloc, key.as_str(), word)? {
            return Ok(Some(key.as_str()));
        }
    }
    Ok(None)
}

// Says what a field may be.
fn help_on_field(alloc: Global, document: &Value, field: Field) -> Result<String, AllocError> {
    let (word, may) = (field.word(), words_of_field(field));
    match (field, document.get("lines")) {
        (Field::Reads | Field::Writes, Some(Value::Integer(lines))) => format!(in alloc;
            "`{word}` is {may}, which is {lines}"
        ),
        _ => format!(in alloc; "`{word}` is {may}"),
    }
}

fn words_of_field(field: Field) -> &'static str {
    match field {
        Field::Version => "the number 1 or 2",
        Field::Lines => "a number from 1 to 64",
        Field::Tenant => "an array of 1 to 16 tables, each written as `[[tenant]]`",
        Field::Name =>
            "a text of 1 to 32 of a to z, 0 to 9 and `_`, a letter first; not `op` or `host`",
        Field::Key => "a text of 1 to 64 ASCII characters without blanks",
        Field::Reads | Field::Writes => "an array of numbers of lines, each below `lines`",
        Field::Bytes => "a number from 1 to 16000",
        Field::Ports => "a number from 1 to 1024",
        Field::Tasks | Field::Modes | Field::Offers | Field::Binds => "a number from 1 to 64",
        Field::Steps => "a number from 1 to 1000000",
        Field::Trace => "a number from 1 to 4096",
        Field::Low => "a whole number",
        Field::High => "a whole number that isn't below `low`",
    }
}

// Says which two tenants may drive the same line. There is no help on two tenants with the same name.
fn help_on_twice(
    alloc: Global,
    document: &Value,
    field: Field,
) -> Result<Option<String>, AllocError> {
    let (Field::Writes, Some(shared)) = (field, shared_in(document, field)) else {
        return Ok(None);
    };
    let first = tenants_in(document)
        .iter()
        .position(|tenant| is_among(values_in(tenant, field), shared.value));
    let Some(first) = first else {
        return Ok(None);
    };
    match (name_of(document, first), name_of(document, shared.tenant)) {
        (Some(one), Some(other)) => Ok(Some(format!(in alloc;
            "the tenants `{one}` and `{other}` list it in their `writes`"
        )?)),
        _ => Ok(None),
    }
}
