//! Notes on keys that are easy to guess or that two tenants have, and on lines that one tenant may drive and another may read.

ghost use Rattle.std.specs.Prelude.{◌≡◌, ◌++◌, IfOk, OnOk, map, string_bytes};
ghost use Rattle.std.specs.List.{flat_map};
ghost use Rattle.std.specs.Option.{option_map};
ghost use Rattle.rig_model.specs.config.Roster.{may_use, name_at};
ghost use Rattle.config_checks.specs.Notes.{AreNotes, as_note, driver_of, first_with_key, is_hidden, note_of_key, note_of_line, note_of_shared, notes_of_tenant, notes_on, told_of, words_of_hidden, words_of_key, words_of_line, words_of_shared};

use crate::copies::HIDDEN;
use crate::faults::finding;
use crate::places::{offset_of, place_of};
use giotto_faults::findings::{Finding, Severity};
use rig_model::config::faults::Field;
use rig_model::config::{Config, TenantConfig, TenantId};
use std::alloc::{AllocError, Global};

/// The note on a tenant's key, if it is a single byte, or the word that copies of a configuration have in place of keys.
///
/// # Errors
/// Out of memory.
pub fn note_on_key(alloc: Global, tenant: &TenantConfig) -> Result<Option<String>, AllocError>
    ensures { IfOk result (λ note. option_map string_bytes note ≡ note_of_key tenant.now) }
{
    let name = tenant.name.as_str();
    if tenant.key.as_slice().len() == 1 {
        return Ok(Some(words_of_key(alloc, name)?));
    }
    if is_hidden(tenant) {
        return Ok(Some(words_of_hidden(alloc, name)?));
    }
    Ok(None)
}

// Whether a tenant's key is the word that copies of a configuration have in place of keys.
fn is_hidden(tenant: &TenantConfig) -> bool
    ensures { result ≡ is_hidden tenant.now }
{
    tenant.key.as_slice() == HIDDEN
}

fn words_of_key(alloc: Global, name: &str) -> Result<String, AllocError>
    ensures { IfOk result (λ words. string_bytes words ≡ words_of_key name.now) }
{
    format!(in alloc; "the key of `{name}` is a single byte: it is easy to guess")
}

fn words_of_hidden(alloc: Global, name: &str) -> Result<String, AllocError>
    ensures { IfOk result (λ words. string_bytes words ≡ words_of_hidden name.now) }
{
    format!(in alloc;
        "the key of `{name}` is `hidden`, which `config` writes in place of keys: everybody can greet as `{name}`"
    )
}

/// The notes on the tenants, in their order: on a key that is easy to guess, and on one that an earlier tenant has too, at the key; then on
/// each line that the tenant may read and another may drive, at the `reads` of the tenant.
///
/// # Errors
/// Out of memory.
pub(crate) fn notes_of(
    alloc: Global,
    text: &str,
    config: &Config,
) -> Result<Vec<Finding>, AllocError>
    ensures { IfOk result (λ notes. AreNotes (notes_on config.now) notes.items) }
{
    let mut notes = Vec::new(alloc);
    for (place, tenant) in config.tenants().iter().enumerate() {
        add_notes_of(alloc, &mut notes, text, config, place, tenant)?;
    }
    Ok(notes)
}

// Adds the notes on the tenant at this place.
fn add_notes_of(
    alloc: Global,
    notes: &mut Vec<Finding>,
    text: &str,
    config: &Config,
    place: TenantId,
    tenant: &TenantConfig,
) -> Result<(), AllocError>
    ensures { OnOk result (map told_of notes.new.items ≡ map told_of notes.old.items ++ map as_note (notes_of_tenant config.now place tenant.now)) }
{
    if let Some(message) = note_on_key(alloc, tenant)? {
        let offset = offset_of(text, place_of(place, Field::Key));
        notes.push(finding(Severity::Note, offset, Field::Key, message))?;
    }
    add_note_on_shared(alloc, notes, text, config, place, tenant)?;
    let lines = tenant.budgets.reads.as_slice();
    add_notes(alloc, notes, text, config, place, lines)
}

// Adds the note on the key of the tenant at this place, if an earlier tenant has it too.
fn add_note_on_shared(
    alloc: Global,
    notes: &mut Vec<Finding>,
    text: &str,
    config: &Config,
    place: TenantId,
    tenant: &TenantConfig,
) -> Result<(), AllocError>
    ensures { OnOk result (map told_of notes.new.items ≡ map told_of notes.old.items ++ map as_note (note_of_shared config.now place tenant.now)) }
{
    if is_hidden(tenant) {
        return Ok(());
    }
    let Some(first) = first_with_key(config, tenant.key.as_slice()) else {
        return Ok(());
    };
    if first == place {
        return Ok(());
    }
    let message = words_of_shared(alloc, name_at(config, first), tenant.name.as_str())?;
    let offset = offset_of(text, place_of(place, Field::Key));
    notes.push(finding(Severity::Note, offset, Field::Key, message))?;
    Ok(())
}

fn words_of_shared(alloc: Global, first: &str, second: &str) -> Result<String, AllocError>
    ensures { IfOk result (λ words. string_bytes words ≡ words_of_shared first.now second.now) }
{
    format!(in alloc;
        "the tenants `{first}` and `{second}` have the same key: each can greet as the other"
    )
}

// The place of the first tenant with this key, if there is one.
fn first_with_key(config: &Config, key: &[u8]) -> Option<TenantId>
    ensures { result ≡ first_with_key config.now key.now }
{
    config
        .tenants()
        .iter()
        .position(|tenant| tenant.key.as_slice() == key)
}

// Adds the notes on these lines, which the tenant at the place `reader` may read.
fn add_notes(
    alloc: Global,
    notes: &mut Vec<Finding>,
    text: &str,
    config: &Config,
    reader: TenantId,
    lines: &[usize],
) -> Result<(), AllocError>
    ensures { OnOk result (map told_of notes.new.items ≡ map told_of notes.old.items ++ map as_note (flat_map (note_of_line config.now reader) lines.now)) }
{
    for &line in lines {
        add_note(alloc, notes, text, config, reader, line)?;
    }
    Ok(())
}

// Adds the note on a line, if there is one.
fn add_note(
    alloc: Global,
    notes: &mut Vec<Finding>,
    text: &str,
    config: &Config,
    reader: TenantId,
    line: usize,
) -> Result<(), AllocError>
    ensures { OnOk result (map told_of notes.new.items ≡ map told_of notes.old.items ++ map as_note (note_of_line config.now reader line)) }
{
    let Some(driver) = driver_of(config, line) else {
        return Ok(());
    };
    if driver == reader {
        return Ok(());
    }
    let message = words_of_line(
        alloc,
        line,
        name_at(config, reader),
        name_at(config, driver),
    )?;
    let offset = offset_of(text, place_of(reader, Field::Reads));
    notes.push(finding(Severity::Note, offset, Field::Reads, message))?;
    Ok(())
}

fn words_of_line(
    alloc: Global,
    line: usize,
    reader: &str,
    driver: &str,
) -> Result<String, AllocError>
    ensures { IfOk result (λ words. string_bytes words ≡ words_of_line line reader.now driver.now) }
{
    format!(in alloc;
        "line {line} is read by `{reader}` and driven by `{driver}`: a plant may pass on what is driven"
    )
}

// The place of the tenant that may drive a line, if there is one.
fn driver_of(config: &Config, line: usize) -> Option<TenantId>
    ensures { result ≡ driver_of config.now line }
{
    config
        .tenants()
        .iter()
        .position(|tenant| may_use(tenant.budgets.writes.as_slice(), line))
}

// Whether a line is among these lines.
fn may_use(lines: &[usize], line: usize) -> bool
    ensures { result ≡ may_use lines.now line }
{
    lines.iter().any(|&other| line == other)
}

/// The name of the tenant at a place; empty if there is no such place.
pub(crate) fn name_at(config: &Config, tenant: TenantId) -> &str
    ensures { result.now ≡ name_at config.now tenant }
{
    match config.tenants().get(tenant) {
        Some(tenant) => tenant.name.as_str(),
        None => "",
    }
}
