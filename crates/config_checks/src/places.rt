//! Where the fields of a configuration are in its text.

use rig_model::config::TenantId;
use rig_model::config::faults::{Field, FieldPlace};

/// A field of the tenant at this place.
pub(crate) fn place_of(tenant: TenantId, field: Field) -> FieldPlace {
    FieldPlace {
        tenant: Some(tenant),
        field,
    }
}

/// The offset of a field, if it is written as usual: at the start of a line, and for a tenant's field, below the `[[tenant]]` of
/// that tenant. If the field isn't found, the result is the offset of the tenant, or else the start of the text.
pub(crate) fn offset_of(text: &str, at: FieldPlace) -> usize {
    let word = at.field.word();
    let Some(tenant) = at.tenant else {
        return offset_in(text, 0, word).unwrap_or(0);
    };
    offset_of_table(text, "[[tenant]]", tenant, word)
}

/// The offset of a field of the table with this many tables before it that have the same header. If the field isn't found, the result is the offset
/// of the table, or else the start of the text.
pub(crate) fn offset_of_table(text: &str, header: &str, table: usize, word: &str) -> usize {
    let Some(begin) = offset_of_header(text, header, table) else {
        return 0;
    };
    match offset_in(text, begin, word) {
        Some(offset) => offset,
        None => begin,
    }
}

// The offset of the header of the table with this many before it that have the same header.
fn offset_of_header(text: &str, header: &str, table: usize) -> Option<usize> {
    let mut offset = 0usize;
    let mut before = 0usize;
    for line in text.split_inclusive('\n') {
        if line.trim_start().starts_with(header) {
            if before == table {
                return Some(offset.saturating_add(indent_of(line)));
            }
            before = before.saturating_add(1);
        }
        offset = offset.saturating_add(line.len());
    }
    None
}

// The offset of a field, from the offset `begin` on and before the next header.
fn offset_in(text: &str, begin: usize, word: &str) -> Option<usize> {
    let mut offset = 0usize;
    for line in text.split_inclusive('\n') {
        if offset > begin && is_header(line) {
            return None;
        }
        if offset >= begin && is_field(line, word) {
            return Some(offset.saturating_add(indent_of(line)));
        }
        offset = offset.saturating_add(line.len());
    }
    None
}

fn is_header(line: &str) -> bool {
    line.trim_start().starts_with("[[")
}

fn is_field(line: &str, word: &str) -> bool {
    match line.split_once('=') {
        Some((name, _)) => name.trim() == word,
        None => false,
    }
}

fn indent_of(line: &str) -> usize {
    line.len().saturating_sub(line.trim_start().len())
}
