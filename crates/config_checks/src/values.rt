//! Values of configurations as text.

ghost use Rattle.std.specs.Prelude.{◌≡◌, ◌++◌, IfOk, IfSome, codes, string_bytes};
ghost use Rattle.std.specs.Fmt.{debug_str};
ghost use Rattle.toml.specs.Data.{type_name};
ghost use Rattle.toml.specs.View.{items_view, view};
ghost use Rattle.config_checks.specs.Values.{AreTold, IsArrayTold, IsToldSo, IsValue};

use std::alloc::{AllocError, Global};
use toml::Value;

/// A value as text: a number, a text or a truth value as it is written in a configuration, an array by its values, and anything
/// else by its kind.
///
/// # Errors
/// Out of memory.
pub(crate) fn text_of_value(alloc: Global, value: &Value) -> Result<String, AllocError>
    ensures { IfOk result (λ text. IsValue (view value.now) (string_bytes text)) }
{
    match value {
        Value::Array(values) => text_of_array(alloc, values.as_slice()),
        _ => text_of_one(alloc, value),
    }
}

// The values of an array in brackets.
fn text_of_array(alloc: Global, values: &[Value]) -> Result<String, AllocError>
    ensures { IfOk result (λ text. IsArrayTold (items_view values.now) (string_bytes text)) }
{
    let Some((first, others)) = values.split_first() else {
        return String::from_str(alloc, "[]");
    };
    let first = text_of_one(alloc, first)?;
    let others = text_of_others(alloc, others)?;
    format!(in alloc; "[{}{}]", first.as_str(), others.as_str())
}

// Values, each after a comma.
fn text_of_others(alloc: Global, values: &[Value]) -> Result<String, AllocError>
    ensures { IfOk result (λ text. AreTold (items_view values.now) (string_bytes text)) }
{
    let mut text = String::new(alloc);
    for value in values {
        let one = text_of_one(alloc, value)?;
        let one = format!(in alloc; ", {}", one.as_str())?;
        text.push_str(one.as_str())?;
    }
    Ok(text)
}

// A value that is not an array.
fn text_of_one(alloc: Global, value: &Value) -> Result<String, AllocError>
    ensures { IfOk result (λ text. IsToldSo (view value.now) (string_bytes text)) }
{
    match value {
        Value::Integer(number) => format!(in alloc; "{number}"),
        Value::String(text) => quoted(alloc, text.as_str()),
        Value::Boolean(truth) => format!(in alloc; "{truth}"),
        Value::Float(number) => format!(in alloc; "{number:?}"),
        _ => kind_of(alloc, value),
    }
}

// A text in quotes.
fn quoted(alloc: Global, text: &str) -> Result<String, AllocError>
    ensures { IfOk result (λ quoted. IfSome (debug_str text.now) (λ one. string_bytes quoted ≡ one)) }
{
    format!(in alloc; "{text:?}")
}

// A value by its kind.
fn kind_of(alloc: Global, value: &Value) -> Result<String, AllocError>
    ensures { IfOk result (λ text. string_bytes text ≡ codes "a value of the kind `" ++ (type_name (view value.now) ++ codes "`")) }
{
    let kind = value.type_str();
    format!(in alloc; "a value of the kind `{kind}`")
}
