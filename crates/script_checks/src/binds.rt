//! Notes on offers and binds of a script that never grant anything in it.

ghost use Rattle.std.specs.Prelude.{◌≡◌, ◌++◌, ◌∷◌, List, [], IfOk, OnOk, option_map, option_to_list, string_bytes};
ghost use Rattle.rig_model.specs.config.Roster.{Rig, name_at, place_of};
ghost use Rattle.rig_model.specs.lines.CommandLine.{command_of_line};
ghost use Rattle.rig_model.specs.lines.Words.{behind_first_word};
ghost use Rattle.script_checks.specs.Grants.{loaded, note_of, note_of_bind, note_of_offer, note_of_sensor, note_of_supplier, said_in_line, what_of, words_of_no_actuator, words_of_no_offer, words_of_nobody};
ghost use Rattle.script_checks.specs.LineTexts.{offset_of_word};
ghost use Rattle.script_checks.specs.Reports.{AddsNotes};
ghost use Rattle.script_checks.specs.declared.binds.Said.{Said};
ghost use Rattle.script_checks.specs.inner.Facts.{AreKept, has_fact, notes_kept};

use crate::facts::{Fact, Facts};
use crate::line_texts::{LineEnd, marked, offset_of_word, shown_at};
use crate::lines::text_of_line;
use giotto_check::Checked;
use giotto_faults::findings::{Finding, Severity};
use giotto_faults::places::Place;
use giotto_reports::{Examined, examine};
use giotto_tasks::names::Name;
use rig_model::config::{Config, TenantId};
use rig_model::lines::command_lines::{LineFault, command_of};
use rig_model::lines::commands::Command;
use rig_model::lines::grant_lines::GrantCommand;
use rig_model::lines::words;
use rig_model::speakers::{Speaker, who_speaks};
use std::alloc::{AllocError, Global};

/// A command of a script that has to do with grants, with its tenant and the place at which a note on it is shown.
#[derive(Drop)]
pub(crate) struct Said {
    tenant: TenantId,
    place: Place,
    what: What,
}

/// What a command has to do with grants.
#[derive(Drop)]
pub(crate) enum What {
    Program(Checked),
    Grants(GrantCommand),
}

/// What the lines of a script say about grants, and their commands that get a note, as far as was read.
#[derive(Drop)]
pub(crate) struct GrantLines {
    facts: Facts,
    noted: Vec<Noted>,
}

// A command that gets a note, and what is shown below the note: the command's line with carets.
#[derive(Drop)]
struct Noted {
    said: Said,
    excerpt: String,
}

impl GrantLines {
    /// No command.
    pub(crate) fn new(alloc: Global) -> GrantLines
        ensures { (config : Rig) → AreKept config [] result }
    {
        GrantLines {
            facts: Facts::new(alloc),
            noted: Vec::new(alloc),
        }
    }

    /// Adds the command of the line with this number, if it is a tenant's and has to do with grants.
    ///
    /// # Errors
    /// Out of memory.
    pub(crate) fn add(
        &mut self,
        alloc: Global,
        config: &Config,
        number: usize,
        line: &[u8],
    ) -> Result<(), AllocError>
        ensures { (said : List Said) → AreKept config.now said self.old → OnOk result (AreKept config.now (said ++ said_in_line config.now number line.now) self.new) }
    {
        match said_in_line(alloc, config, number, line)? {
            Some(one) => self.keep(alloc, config, one, line),
            None => Ok(()),
        }
    }

    // Keeps what a command says, and the command if it gets a note. No later line says less, so no other command gets one.
    fn keep(
        &mut self,
        alloc: Global,
        config: &Config,
        one: Said,
        line: &[u8],
    ) -> Result<(), AllocError>
        ensures { (said : List Said) → AreKept config.now said self.old → OnOk result (AreKept config.now (said ++ one ∷ []) self.new) }
    {
        self.facts.add(one.tenant, &one.what)?;
        if note_of(alloc, config, &self.facts, &one)?.is_none() {
            return Ok(());
        }
        let excerpt = excerpt_of(alloc, one.place.line, line)?;
        self.noted.push(Noted { said: one, excerpt })?;
        Ok(())
    }

    /// Adds a note for each `bind` among these commands that grants nothing, and for each `offer` or `bind` that names a tenant that
    /// doesn't exist.
    ///
    /// # Errors
    /// Out of memory.
    pub(crate) fn add_notes(
        &self,
        alloc: Global,
        text: &mut String,
        file: &str,
        config: &Config,
    ) -> Result<(), AllocError>
        ensures { OnOk result (AddsNotes file.now (notes_kept config.now (has_fact self.now.facts) self.now) (string_bytes text.old) (string_bytes text.new)) }
    {
        for noted in &self.noted {
            let Some(message) = note_of(alloc, config, &self.facts, &noted.said)? else {
                continue;
            };
            add_note(
                alloc,
                text,
                file,
                noted.said.place,
                (message, noted.excerpt.as_str()),
            )?;
        }
        Ok(())
    }
}

// The command of the line with this number, if it is a tenant's and has to do with grants.
fn said_in_line(
    alloc: Global,
    config: &Config,
    number: usize,
    line: &[u8],
) -> Result<Option<Said>, AllocError>
    ensures { IfOk result (λ said. option_to_list said ≡ said_in_line config.now number line.now) }
{
    let Some(text) = text_of_line(line) else {
        return Ok(None);
    };
    let Speaker::Tenant(tenant) = who_speaks(config, text) else {
        return Ok(None);
    };
    let Some(what) = what_of(alloc, words::behind_first_word(text))? else {
        return Ok(None);
    };
    Ok(Some(Said {
        tenant,
        place: command_in(number, line, text).place(0),
        what,
    }))
}

// The line with this number, and carets below its command, which comes after the speaker.
fn excerpt_of(alloc: Global, number: usize, line: &[u8]) -> Result<String, AllocError> {
    let text = text_of_line(line).unwrap_or("");
    let command = words::behind_first_word(text);
    marked(
        alloc,
        &command_in(number, line, text),
        0,
        command.trim().len(),
    )
}

// The part of a line with this text that comes after the speaker.
fn command_in<'a>(number: usize, line: &'a [u8], text: &str) -> LineEnd<'a>
    ensures number { result.number ≡ number }
    ensures line { result.line.now ≡ line.now }
    ensures before { result.before ≡ offset_of_word text.now (behind_first_word text.now) }
{
    LineEnd {
        number,
        line,
        before: offset_of_word(text, words::behind_first_word(text)),
    }
}

// Adds a note with this message at a place of a file, and an excerpt of the file below.
fn add_note(
    alloc: Global,
    text: &mut String,
    file: &str,
    place: Place,
    note: (String, &str),
) -> Result<(), AllocError>
    ensures { OnOk result (AddsNotes file.now ((place, (Severity.Note, string_bytes note.entry.0)) ∷ []) (string_bytes text.old) (string_bytes text.new)) }
{
    let (message, excerpt) = note;
    let finding = note_with(message);
    let shown = shown_at(alloc, file, place, &finding, excerpt)?;
    text.push_str(shown.as_str())?;
    Ok(())
}

// A note with this message.
fn note_with(message: String) -> Finding
    ensures severity { result.severity ≡ Severity.Note }
    ensures message { result.message ≡ message }
{
    Finding {
        severity: Severity::Note,
        offset: 0,
        len: 0,
        message,
        rule: None,
        help: None,
    }
}

// What a command has to do with grants, if anything.
fn what_of(alloc: Global, line: &str) -> Result<Option<What>, AllocError>
    ensures { IfOk result (λ what. what ≡ what_of (command_of_line line.now)) }
{
    match command_of(alloc, line) {
        Ok(Command::Load(text)) | Ok(Command::Replace(text)) => loaded(alloc, text.as_str()),
        Ok(Command::Grants(command)) => Ok(Some(What::Grants(command))),
        Ok(_) => Ok(None),
        Err(LineFault::BadCommand) => Ok(None),
        Err(LineFault::Memory) => Err(AllocError),
    }
}

// The well-formed program of a text, if it spells one.
#[tactic(auto, using(crate::proofs::Granting::loaded_program, crate::proofs::Granting::nothing_loaded))]
fn loaded(alloc: Global, text: &str) -> Result<Option<What>, AllocError>
    ensures { IfOk result (λ what. what ≡ loaded text.now) }
{
    match examine(alloc, text, text)? {
        Examined::Good(checked) => Ok(Some(What::Program(checked))),
        Examined::Faulty(_) => Ok(None),
    }
}

// The note on a command, if there is one.
fn note_of(
    alloc: Global,
    config: &Config,
    facts: &Facts,
    one: &Said,
) -> Result<Option<String>, AllocError>
    ensures { IfOk result (λ note. option_map string_bytes note ≡ note_of config.now (has_fact facts.now) one.now) }
{
    match &one.what {
        What::Grants(GrantCommand::Offer { tenant, .. }) => note_of_offer(alloc, config, tenant),
        What::Grants(
            GrantCommand::Bind {
                sensor,
                tenant,
                actuator,
            },
        ) => note_of_bind(alloc, config, facts, one.tenant, (sensor, tenant, actuator)),
        _ => Ok(None),
    }
}

// The note on an offer to a tenant with this name, if there is one.
fn note_of_offer(
    alloc: Global,
    config: &Config,
    tenant: &Name,
) -> Result<Option<String>, AllocError>
    ensures { IfOk result (λ note. option_map string_bytes note ≡ note_of_offer tenant.now (place_of config.now tenant.now)) }
{
    match config.place_of(tenant.as_str()) {
        Some(_) => Ok(None),
        None => Ok(Some(words_of_nobody(alloc, tenant)?)),
    }
}

fn words_of_nobody(alloc: Global, tenant: &Name) -> Result<String, AllocError>
    ensures { IfOk result (λ words. string_bytes words ≡ words_of_nobody tenant.now) }
{
    let name = tenant.as_str();
    format!(in alloc; "no tenant has the name `{name}`, so nothing is granted")
}

// The note on a tenant's bind of a sensor to an actuator of the supplier, if there is one.
fn note_of_bind(
    alloc: Global,
    config: &Config,
    facts: &Facts,
    tenant: TenantId,
    bind: (&Name, &Name, &Name),
) -> Result<Option<String>, AllocError>
    ensures { IfOk result (λ note. option_map string_bytes note ≡ note_of_bind config.now (has_fact facts.now) tenant bind.entry.0.now bind.entry.1.now bind.entry.2.now (place_of config.now bind.entry.1.now)) }
{
    let (sensor, supplier, actuator) = bind;
    let Some(place) = config.place_of(supplier.as_str()) else {
        return Ok(Some(words_of_nobody(alloc, supplier)?));
    };
    match note_of_sensor(alloc, facts, tenant, sensor)? {
        Some(note) => Ok(Some(note)),
        None => note_of_supplier(alloc, config, facts, tenant, (place, actuator)),
    }
}

// The note if the tenant loads no program that declares this sensor with `grant`.
fn note_of_sensor(
    alloc: Global,
    facts: &Facts,
    tenant: TenantId,
    sensor: &Name,
) -> Result<Option<String>, AllocError>
    ensures { IfOk result (λ note. option_map string_bytes note ≡ note_of_sensor (has_fact facts.now) tenant sensor.now) }
{
    if facts.has(&Fact::GrantSensor(tenant, sensor.copy())) {
        return Ok(None);
    }
    let name = sensor.as_str();
    if facts.has(&Fact::LineSensor(tenant, sensor.copy())) {
        return Ok(Some(format!(in alloc;
            "the sensor `{name}` reads a rig line, so nothing is granted to it; declare it with `grant`"
        )?));
    }
    Ok(Some(format!(in alloc; "no program that this tenant loads here has a sensor `{name}`")?))
}

// The note if the supplier at a place loads no program with this actuator, or doesn't offer it to the tenant.
fn note_of_supplier(
    alloc: Global,
    config: &Config,
    facts: &Facts,
    tenant: TenantId,
    port: (TenantId, &Name),
) -> Result<Option<String>, AllocError>
    ensures { IfOk result (λ note. option_map string_bytes note ≡ note_of_supplier config.now (has_fact facts.now) tenant port.entry.0 port.entry.1.now) }
{
    let (place, actuator) = port;
    let (supplier, to) = (name_at(config, place), name_at(config, tenant));
    if !facts.has(&Fact::Actuator(place, actuator.copy())) {
        return Ok(Some(words_of_no_actuator(alloc, supplier.as_str(), actuator.as_str())?));
    }
    if !facts.has(&Fact::Offered(place, actuator.copy(), to.copy())) {
        return Ok(Some(words_of_no_offer(
            alloc,
            supplier.as_str(),
            actuator.as_str(),
            to.as_str(),
        )?));
    }
    Ok(None)
}

fn words_of_no_actuator(alloc: Global, supplier: &str, name: &str) -> Result<String, AllocError>
    ensures { IfOk result (λ words. string_bytes words ≡ words_of_no_actuator supplier.now name.now) }
{
    format!(in alloc; "no program that `{supplier}` loads here has an actuator `{name}`")
}

fn words_of_no_offer(
    alloc: Global,
    supplier: &str,
    name: &str,
    to: &str,
) -> Result<String, AllocError>
    ensures { IfOk result (λ words. string_bytes words ≡ words_of_no_offer supplier.now name.now to.now) }
{
    format!(in alloc; "`{supplier}` doesn't offer `{name}` to `{to}` here")
}

// The name of the tenant at a place.
fn name_at(config: &Config, tenant: TenantId) -> Name
    ensures { result ≡ name_at config.now tenant }
{
    match config.tenants().get(tenant) {
        Some(tenant) => tenant.name.copy(),
        None => Name::default(),
    }
}
