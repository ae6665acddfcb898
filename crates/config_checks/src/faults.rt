//! The finding about the fault of a configuration, with the tenant and the value.

ghost use Rattle.std.specs.Prelude.{◌≡◌, ◌+◌, ◌++◌, IfOk, IfSome, codes, None, map, option_map, string_bytes};
ghost use Rattle.std.specs.Fmt.{decimal};
ghost use Rattle.std.specs.List.{find, list_any};
ghost use Rattle.std.specs.Option.{option_copied};
ghost use Rattle.toml.specs.View.{items_view, view};
ghost use Rattle.rig_model.specs.config.Reading.{count_of};
ghost use Rattle.program_checks.specs.faults.Findings.{BeginsWith};
ghost use Rattle.config_checks.specs.Faults.{AreCounted, IsFaultTold, IsValueOf, TellsFault, has_one, is_same, items_in, name_of, owner_of, shared_in, tenant_at, tenants_in, value_at, values_in, values_of, words_of_shared};

use crate::helps::{help_on, help_on_no_toml};
use crate::places::{offset_of, place_of};
use crate::values::text_of_value;
use giotto_faults::findings::{Finding, Severity};
use rig_model::config::TenantId;
use rig_model::config::faults::{ConfigFault, Field, FieldPlace};
use std::alloc::{AllocError, Global};
use toml::Value;

/// A finding about a field at this offset.
pub(crate) fn finding(severity: Severity, offset: usize, field: Field, message: String) -> Finding
    ensures severity { result.severity ≡ severity }
    ensures message { result.message ≡ message }
{
    Finding {
        severity,
        offset,
        len: field.word().len(),
        message,
        rule: None,
        help: None,
    }
}

/// The finding that reports the fault of this text of a file.
///
/// # Errors
/// Out of memory.
pub(crate) fn finding_of(
    alloc: Global,
    text: &str,
    fault: ConfigFault,
) -> Result<Finding, AllocError>
    ensures { IfOk result (TellsFault text.now fault) }
{
    match toml::table_from_str(alloc, text) {
        Ok(table) => finding_in(alloc, text, &Value::Table(table), fault),
        Err(error) if error.is_memory() => Err(AllocError),
        Err(error) => not_toml(alloc, text, &error),
    }
}

// The finding about a text that is not TOML.
fn not_toml(alloc: Global, text: &str, error: &toml::de::Error) -> Result<Finding, AllocError>
    ensures severity { IfOk result (λ f. f.severity ≡ Severity.Error) }
    ensures message { IfOk result (λ f. BeginsWith (codes "invalid TOML: ") (string_bytes f.message)) }
{
    Ok(Finding {
        severity: Severity::Error,
        offset: start_of(error),
        len: 0,
        message: words_of_no_toml(alloc, error.message())?,
        rule: None,
        help: help_on_no_toml(alloc, text)?,
    })
}

fn words_of_no_toml(alloc: Global, why: &str) -> Result<String, AllocError>
    ensures { IfOk result (λ words. string_bytes words ≡ codes "invalid TOML: " ++ why.now) }
{
    format!(in alloc; "invalid TOML: {why}")
}

// The offset of the fault in a text that is not TOML, or 0 if it isn't known.
fn start_of(error: &toml::de::Error) -> usize {
    match error.span() {
        Some(span) => span.start,
        None => 0,
    }
}

// The finding about the fault of a document.
fn finding_in(
    alloc: Global,
    text: &str,
    document: &Value,
    fault: ConfigFault,
) -> Result<Finding, AllocError>
    ensures severity { IfOk result (λ f. f.severity ≡ Severity.Error) }
    ensures words { IfOk result (λ f. IsFaultTold (view document.now) fault (string_bytes f.message)) }
{
    let message = words_of_fault(alloc, document, fault)?;
    let help = help_on(alloc, document, fault)?;
    Ok(Finding {
        severity: Severity::Error,
        offset: offset_of_fault(text, document, fault),
        len: len_of_fault(fault),
        message,
        rule: None,
        help,
    })
}

// The message about the fault of a document.
fn words_of_fault(alloc: Global, document: &Value, fault: ConfigFault) -> Result<String, AllocError>
    ensures { IfOk result (λ words. IsFaultTold (view document.now) fault (string_bytes words)) }
{
    match fault {
        ConfigFault::Missing(at) => words_of_missing(alloc, document, at),
        ConfigFault::Range(at) => words_of_range(alloc, document, at),
        ConfigFault::Twice(field) => words_of_twice(alloc, document, field),
        ConfigFault::NotToml | ConfigFault::Memory => String::from_str(alloc, "invalid TOML"),
    }
}

// The message if a field is missing.
fn words_of_missing(alloc: Global, document: &Value, at: FieldPlace) -> Result<String, AllocError>
    ensures { IfOk result (λ words. IsFaultTold (view document.now) (ConfigFault.Missing at) (string_bytes words)) }
{
    let word = at.field.word();
    let owner = owner_of(alloc, document, at.tenant)?;
    format!(in alloc; "{} has no `{word}`", owner.as_str())
}

// The message if a field has a value that it may not have.
fn words_of_range(alloc: Global, document: &Value, at: FieldPlace) -> Result<String, AllocError>
    ensures { IfOk result (λ words. IsFaultTold (view document.now) (ConfigFault.Range at) (string_bytes words)) }
{
    let word = at.field.word();
    let owner = owner_of(alloc, document, at.tenant)?;
    let value = text_at(alloc, document, at)?;
    format!(in alloc; "`{word}` of {} is {}", owner.as_str(), value.as_str())
}

// Whose field it is: the rig's or a tenant's. A tenant is named if it has a name.
fn owner_of(alloc: Global, document: &Value, tenant: Option<TenantId>) -> Result<String, AllocError>
    ensures { IfOk result (λ owner. string_bytes owner ≡ owner_of (view document.now) tenant) }
{
    let Some(tenant) = tenant else {
        return String::from_str(alloc, "the rig");
    };
    match name_of(document, tenant) {
        Some(name) => format!(in alloc; "the tenant `{name}`"),
        None => counted(alloc, tenant),
    }
}

// The words for a tenant that has no name.
fn counted(alloc: Global, tenant: TenantId) -> Result<String, AllocError>
    ensures { IfOk result (λ owner. string_bytes owner ≡ codes "tenant " ++ (decimal (tenant + 1) ++ codes ", counted from 1,")) }
{
    let number = tenant as u128 + 1;
    format!(in alloc; "tenant {number}, counted from 1,")
}

/// The name of the tenant at a place, if it has one.
pub(crate) fn name_of(document: &Value, tenant: TenantId) -> Option<&str>
    ensures { option_copied result ≡ name_of (view document.now) tenant }
{
    match tenant_at(document, tenant) {
        Some(fields) => match fields.get("name") {
            Some(name) => name.as_str(),
            None => None,
        },
        None => None,
    }
}

/// The tenant at a place of a document.
pub(crate) fn tenant_at(document: &Value, tenant: TenantId) -> Option<&Value>
    ensures { option_map (λ fields. view fields.now) result ≡ tenant_at (view document.now) tenant }
{
    match document.get("tenant") {
        Some(tenants) => tenants.get(tenant),
        None => None,
    }
}

// The value of a field.
fn value_at(document: &Value, at: FieldPlace) -> Option<&Value>
    ensures { option_map (λ value. view value.now) result ≡ value_at (view document.now) at }
{
    let word = at.field.word();
    match at.tenant {
        None => document.get(word),
        Some(tenant) => match tenant_at(document, tenant) {
            Some(fields) => fields.get(word),
            None => None,
        },
    }
}

// The value of a field as it is written. For the field that has the tenants, it is how many there are.
fn text_at(alloc: Global, document: &Value, at: FieldPlace) -> Result<String, AllocError>
    ensures { IfOk result (λ text. IfSome (value_at (view document.now) at) (λ value. IsValueOf at.field value (string_bytes text))) }
{
    match value_at(document, at) {
        Some(value) => text_of_field(alloc, at.field, value),
        None => String::from_str(alloc, "missing"),
    }
}

fn text_of_field(alloc: Global, field: Field, value: &Value) -> Result<String, AllocError>
    ensures { IfOk result (λ text. IsValueOf field (view value.now) (string_bytes text)) }
{
    match field {
        Field::Tenant => text_of_tenants(alloc, value),
        _ => text_of_value(alloc, value),
    }
}

// How many tenants there are, or the value that is there instead of their array.
fn text_of_tenants(alloc: Global, value: &Value) -> Result<String, AllocError>
    ensures { IfOk result (λ text. AreCounted (view value.now) (string_bytes text)) }
{
    match value {
        Value::Array(values) => text_of_count(alloc, values.as_slice()),
        _ => text_of_value(alloc, value),
    }
}

// How many values there are.
#[tactic(auto, using(crate::proofs::Listed::count_of_view))]
fn text_of_count(alloc: Global, values: &[Value]) -> Result<String, AllocError>
    ensures { IfOk result (λ text. string_bytes text ≡ codes "an array of " ++ decimal (count_of (items_view values.now))) }
{
    let count = values.len();
    format!(in alloc; "an array of {count}")
}

// The message if two tenants have the same name, or may drive the same line.
fn words_of_twice(alloc: Global, document: &Value, field: Field) -> Result<String, AllocError>
    ensures { IfOk result (λ words. IsFaultTold (view document.now) (ConfigFault.Twice field) (string_bytes words)) }
{
    let Some(shared) = shared_in(document, field) else {
        return String::from_str(alloc, "two tenants share a value");
    };
    let value = text_of_value(alloc, shared.value)?;
    words_of_shared(alloc, field, value.as_str())
}

fn words_of_shared(alloc: Global, field: Field, value: &str) -> Result<String, AllocError>
    ensures { IfOk result (λ words. string_bytes words ≡ words_of_shared field value.now) }
{
    match field {
        Field::Name => format!(in alloc; "two tenants have the name {value}"),
        _ => format!(in alloc; "two tenants may drive line {value}"),
    }
}

/// A value that a tenant shares with an earlier one, and the place of the later tenant.
#[derive(Clone, Copy)]
pub(crate) struct Shared<'a> {
    pub(crate) tenant: TenantId,
    pub(crate) value: &'a Value,
}

/// The first shared value of this field.
pub(crate) fn shared_in(document: &Value, field: Field) -> Option<Shared>
    ensures { option_map (λ shared. view shared.value.now) result ≡ shared_in field (view document.now) }
{
    let tenants = tenants_in(document);
    for (place, tenant) in tenants.iter().enumerate() {
        if let Some(value) = shared_with(&tenants[..place], tenant, field) {
            return Some(Shared {
                tenant: place,
                value,
            });
        }
    }
    None
}

// The first value of a tenant's field that one of the tenants before it has too.
fn shared_with<'a>(before: &[Value], tenant: &'a Value, field: Field) -> Option<&'a Value>
    ensures { option_map (λ value. view value.now) result ≡ find (has_one field (map view before.now)) (values_in field (view tenant.now)) }
{
    first_in(before, values_in(tenant, field), field)
}

// The first of these values that one of these tenants has in this field.
fn first_in<'a>(tenants: &[Value], values: &'a [Value], field: Field) -> Option<&'a Value>
    ensures { option_map (λ value. view value.now) result ≡ find (has_one field (map view tenants.now)) (map view values.now) }
{
    for value in values {
        if has_one(tenants, field, value) {
            return Some(value);
        }
    }
    None
}

// Whether one of these tenants has this value of a field.
fn has_one(tenants: &[Value], field: Field, value: &Value) -> bool
    ensures { result ≡ has_one field (map view tenants.now) (view value.now) }
{
    for tenant in tenants {
        if is_among(values_in(tenant, field), value) {
            return true;
        }
    }
    false
}

/// Whether a value is among these values.
pub(crate) fn is_among(values: &[Value], value: &Value) -> bool
    ensures { result ≡ list_any (is_same (view value.now)) (map view values.now) }
{
    for other in values {
        if is_same(value, other) {
            return true;
        }
    }
    false
}

/// The tenants of a document.
pub(crate) fn tenants_in(document: &Value) -> &[Value]
    ensures { map view result.now ≡ tenants_in (view document.now) }
{
    match document.get("tenant") {
        Some(value) => items_in(value),
        None => &[],
    }
}

// The values of an array. There are none for any other value.
fn items_in(value: &Value) -> &[Value]
    ensures { map view result.now ≡ items_in (view value.now) }
{
    match value {
        Value::Array(values) => values.as_slice(),
        _ => &[],
    }
}

/// The values of a field: those of its array, or its single value.
pub(crate) fn values_in(tenant: &Value, field: Field) -> &[Value]
    ensures { map view result.now ≡ values_in field (view tenant.now) }
{
    match tenant.get(field.word()) {
        Some(value) => values_of(value),
        None => &[],
    }
}

fn values_of(value: &Value) -> &[Value]
    ensures { map view result.now ≡ values_of (view value.now) }
{
    match value {
        Value::Array(values) => values.as_slice(),
        _ => std::slice::from_ref(value),
    }
}

// Whether both are the same text or the same number.
fn is_same(one: &Value, other: &Value) -> bool
    ensures { result ≡ is_same (view one.now) (view other.now) }
{
    match (one, other) {
        (Value::String(one), Value::String(other)) => one.as_str() == other.as_str(),
        (Value::Integer(one), Value::Integer(other)) => *one == *other,
        _ => false,
    }
}

// The offset of a document's fault in its text.
fn offset_of_fault(text: &str, document: &Value, fault: ConfigFault) -> usize {
    match fault {
        ConfigFault::Missing(at) | ConfigFault::Range(at) => offset_of(text, at),
        ConfigFault::Twice(field) => match shared_in(document, field) {
            Some(shared) => offset_of(text, place_of(shared.tenant, field)),
            None => 0,
        },
        ConfigFault::NotToml | ConfigFault::Memory => 0,
    }
}

// How many bytes of the text the fault is about.
fn len_of_fault(fault: ConfigFault) -> usize {
    match fault.field() {
        Some(field) => field.word().len(),
        None => 0,
    }
}
