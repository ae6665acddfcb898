//! The replies to a tenant's commands.

ghost use Rattle.std.specs.Prelude.{◌≡◌, ◌↔◌, ◌<◌, ◌++◌, codes, IfOk, IsErr, IsTrue, OnOk, length, string_bytes};
ghost use Rattle.std.specs.Fmt.{WritesOnOk, signed_decimal};
ghost use Rattle.std.specs.List.{flat_map};
ghost use Rattle.tenant_lines.specs.Replies.{word_of_budget, text_of_happening, text_of_port, text_of_record, text_of_refusal, text_of_reply, text_of_bounds, text_of_row, text_of_status, text_of_value};
ghost use Rattle.tenant_lines.specs.cited.Copies.{has_list};
ghost use Rattle.tenant_lines.specs.declared.replies.Reply.{Reply};

use crate::ports::{PortName, PortValue};
use giotto_tasks::lists::List;
use giotto_tasks::names::Name;
use itoa::Buffer;
use std::alloc::{AllocError, Global};
use std::fmt;
use std::string::ToString;
use tenant_grants::config::intervals::Bounds;
use tenant_grants::rows::Row;
use tenant_trace::records::{Happening, Record};

/// What a budget bounds.
#[derive(Clone, Copy, Debug, PartialEq, Eq)]
pub enum Budget {
    Bytes,
    Ports,
    Tasks,
    Modes,
    Steps,
    Lines,
    Offers,
    Binds,
}

/// Why a command is refused.
#[derive(Clone, Copy, Debug, PartialEq, Eq)]
pub enum Refusal {
    /// `err bad-command`: the line has none of the forms of a command.
    BadCommand,
    /// `err syntax N`: the text isn't a program; N is the offset of the fault, in bytes of the text.
    Syntax(usize),
    /// `err syntax deep`: parentheses and braces nest more than 32 deep.
    TooDeep,
    /// `err syntax many`: a task has more than 16 inputs, outputs or states.
    TooMany,
    /// `err rule N`: the program breaks rules; N is the first that it breaks.
    Rule(usize),
    /// `err running`: the tenant is running.
    Running,
    /// `err not-running`: the tenant isn't running.
    NotRunning,
    /// `err not-loaded`: the tenant has no program.
    NotLoaded,
    /// `err no-port`: the program has no such port.
    NoPort,
    /// `err no-tenant`: the roster has no tenant of this name.
    NoTenant,
    /// `err own`: the command names the tenant itself.
    Own,
    /// `err twice`: the row exists already.
    Twice,
    /// `err not-there`: there is no such row.
    NotThere,
    /// `err budget WORD`: the program, or one more row, is over this budget.
    OverBudget(Budget),
    /// `err memory`: out of memory.
    Memory,
}

impl From<AllocError> for Refusal {
    ghost use Rattle.std.specs.Prelude.{◌≡◌};
    ghost use Rattle.tenant_lines.specs.declared.replies.Refusal.TheVariants.{Memory};

    ghost from_gives = { λ _ refusal. refusal ≡ Memory };

    fn from(_error: AllocError) -> Refusal {
        Refusal::Memory
    }
}

/// What a tenant is doing, as `show mode` reports it.
#[derive(Drop)]
pub enum Status {
    /// `empty`: it has no program.
    Empty,
    /// `loaded M`: its program hasn't been started, and will start in this mode.
    Loaded(Name),
    /// `running M X`: it is in mode M; X is the mode time of its next instant, in ticks.
    Running(Name, u64),
    /// `stopped asked`: it was stopped by its own command.
    StoppedAsked,
    /// `stopped overrun T`: it was stopped because task T was due and not completed.
    StoppedOverrun(Name),
}

/// The reply to a command.
#[derive(Drop)]
pub enum Reply {
    /// `ok load`
    Loaded,
    /// `ok replace`
    Replaced,
    /// `ok start`
    Started,
    /// `ok stop`
    Stopped,
    /// `ok mode ..`
    Mode(Status),
    /// `ok port P V`
    Port(PortValue),
    /// `ok all`, and for each port ` P=V`
    All(List<PortValue>),
    /// `ok trace`, and for each record, the oldest first, ` N:` and what happened; N is the record's tick:
    /// `start:M`, `mode:M`, `act:P:V`, `out:P:V`, `stop:asked`, `stop:overrun:T` or `replaced:M`
    Trace(List<Record>),
    /// `ok offer`
    Offered,
    /// `ok unoffer`
    Unoffered,
    /// `ok bind`
    Bound,
    /// `ok unbind`
    Unbound,
    /// `ok rows`, and for each row ` offer:ACTUATOR:TENANT` or ` bind:SENSOR:TENANT:ACTUATOR`
    Rows(List<Row>),
    /// `err ..`: nothing has changed.
    Refused(Refusal),
}

impl Status {
    /// An equal status.
    pub fn copy(&self) -> Status
        ensures { result ≡ self.now }
    {
        match self {
            Status::Empty => Status::Empty,
            Status::Loaded(mode) => Status::Loaded(mode.copy()),
            Status::Running(mode, time) => Status::Running(mode.copy(), *time),
            Status::StoppedAsked => Status::StoppedAsked,
            Status::StoppedOverrun(task) => Status::StoppedOverrun(task.copy()),
        }
    }
}

impl Reply {
    /// An equal reply. Takes memory only for the ports of `show all`, the records of `trace` and the rows of `rows`, and none if
    /// the list is empty.
    ///
    /// # Errors
    /// Out of memory for a list that isn't empty.
    pub fn copy(&self, alloc: Global) -> Result<Reply, AllocError>
        ensures same { IfOk result (λ r. r ≡ self.now) }
        ensures memory { IsErr result → IsTrue (has_list self.now) }
    {
        Ok(match self {
            Reply::Loaded => Reply::Loaded,
            Reply::Replaced => Reply::Replaced,
            Reply::Started => Reply::Started,
            Reply::Stopped => Reply::Stopped,
            Reply::Mode(status) => Reply::Mode(status.copy()),
            Reply::Port(port) => Reply::Port(port.copy()),
            Reply::All(ports) => Reply::All(copy_of_ports(alloc, ports.as_slice())?),
            Reply::Trace(records) => Reply::Trace(copy_of_records(alloc, records.as_slice())?),
            Reply::Offered => Reply::Offered,
            Reply::Unoffered => Reply::Unoffered,
            Reply::Bound => Reply::Bound,
            Reply::Unbound => Reply::Unbound,
            Reply::Rows(rows) => Reply::Rows(copy_of_rows(alloc, rows.as_slice())?),
            Reply::Refused(refusal) => Reply::Refused(*refusal),
        })
    }

    /// Whether the command is refused because memory ran out: `err memory`.
    pub fn is_memory(&self) -> bool
        ensures { IsTrue result ↔ (self.now ≡ Reply.Refused Refusal.Memory) }
    {
        matches!(self, Reply::Refused(Refusal::Memory))
    }
}

fn copy_of_ports(alloc: Global, ports: &[PortValue]) -> Result<List<PortValue>, AllocError>
    ensures same { IfOk result (λ copy. copy ≡ ports.now) }
    ensures memory { IsErr result → 0 < length ports.now }
{
    let mut copy = Vec::new(alloc);
    for port in ports {
        copy.push(port.copy())?;
    }
    Ok(List::from_vec(copy))
}

fn copy_of_records(alloc: Global, records: &[Record]) -> Result<List<Record>, AllocError>
    ensures same { IfOk result (λ copy. copy ≡ records.now) }
    ensures memory { IsErr result → 0 < length records.now }
{
    let mut copy = Vec::new(alloc);
    for record in records {
        copy.push(record.copy())?;
    }
    Ok(List::from_vec(copy))
}

fn copy_of_rows(alloc: Global, rows: &[Row]) -> Result<List<Row>, AllocError>
    ensures same { IfOk result (λ copy. copy ≡ rows.now) }
    ensures memory { IsErr result → 0 < length rows.now }
{
    let mut copy = Vec::new(alloc);
    for row in rows {
        copy.push(row.copy())?;
    }
    Ok(List::from_vec(copy))
}

impl Budget {
    /// The budget's word in a reply.
    pub fn as_str(self) -> &'static str
        ensures { result.now ≡ word_of_budget self }
    {
        match self {
            Budget::Bytes => "bytes",
            Budget::Ports => "ports",
            Budget::Tasks => "tasks",
            Budget::Modes => "modes",
            Budget::Steps => "steps",
            Budget::Lines => "lines",
            Budget::Offers => "offers",
            Budget::Binds => "binds",
        }
    }
}

/// The text of a reply, without the name of the tenant and without LF.
///
/// # Errors
/// Out of memory.
pub fn print_reply(alloc: Global, reply: &Reply) -> Result<String, AllocError>
    ensures { IfOk result (λ text. string_bytes text ≡ text_of_reply reply.now) }
{
    reply.to_string(alloc)
}

/// Appends the text of a reply, without the name of the tenant and without LF.
///
/// # Errors
/// Out of memory. After an error the content of the text is unspecified.
pub fn add_reply(text: &mut String, reply: &Reply) -> Result<(), AllocError>
    ensures { OnOk result (string_bytes text.new ≡ string_bytes text.old ++ text_of_reply reply.now) }
{
    match reply {
        Reply::Port(shown) => add_shown(text, &shown.port, shown.value),
        _ => write!(text, "{reply}"),
    }
}

/// Appends the text of the reply to `show port`, without the name of the tenant and without LF. Appends it part by part, which is
/// shorter than formatting.
///
/// # Errors
/// Out of memory. After an error the content of the text is unspecified.
pub fn add_shown(text: &mut String, port: &PortName, value: i64) -> Result<(), AllocError>
    ensures { OnOk result (string_bytes text.new ≡ string_bytes text.old ++ text_of_reply (Reply.Port (record { port = port.now; value = value }))) }
{
    text.push_str("ok port ")?;
    add_port(text, port)?;
    text.push(' ')?;
    add_value(text, value)
}

// Appends a value in decimal.
fn add_value(text: &mut String, value: i64) -> Result<(), AllocError>
    ensures { OnOk result (string_bytes text.new ≡ string_bytes text.old ++ signed_decimal value) }
{
    let mut digits = Buffer::new();
    text.push_str(digits.format(value))
}

// Appends the name of a port.
fn add_port(text: &mut String, port: &PortName) -> Result<(), AllocError>
    ensures { OnOk result (string_bytes text.new ≡ string_bytes text.old ++ text_of_port port.now) }
{
    if let Some(task) = &port.task {
        text.push_str(task.as_str())?;
        text.push('.')?;
    }
    text.push_str(port.name.as_str())
}

/// The text of a reply, without the name of the tenant and without LF.
impl fmt::Display for Reply {
    ghost use Rattle.std.specs.Prelude.{Some};
    ghost use Rattle.tenant_lines.specs.Replies.{text_of_reply};

    ghost output = { λ r. Some (text_of_reply r) };

    fn fmt<W: fmt::Write>(&self, f: &mut fmt::Formatter<W>) -> fmt::Result {
        write_reply(f, self)
    }
}

// Writes the text of a reply.
fn write_reply<W: fmt::Write>(f: &mut fmt::Formatter<W>, reply: &Reply) -> fmt::Result
    ensures { WritesOnOk W.write_str_gives f.old result (text_of_reply reply.now) f.new }
{
    match reply {
        Reply::Loaded => write!(f, "ok load"),
        Reply::Replaced => write!(f, "ok replace"),
        Reply::Started => write!(f, "ok start"),
        Reply::Stopped => write!(f, "ok stop"),
        Reply::Mode(status) => write_status(f, status),
        Reply::Port(port) => write!(f, "ok port {} {}", port.port, port.value),
        Reply::All(ports) => write_ports(f, ports.as_slice()),
        Reply::Trace(records) => write_records(f, records.as_slice()),
        Reply::Offered => write!(f, "ok offer"),
        Reply::Unoffered => write!(f, "ok unoffer"),
        Reply::Bound => write!(f, "ok bind"),
        Reply::Unbound => write!(f, "ok unbind"),
        Reply::Rows(rows) => write_rows(f, rows.as_slice()),
        Reply::Refused(refusal) => write_refusal(f, *refusal),
    }
}

// Writes the reply to `show mode`.
fn write_status<W: fmt::Write>(f: &mut fmt::Formatter<W>, status: &Status) -> fmt::Result
    ensures { WritesOnOk W.write_str_gives f.old result (codes "ok mode " ++ text_of_status status.now) f.new }
{
    match status {
        Status::Empty => write!(f, "ok mode empty"),
        Status::Loaded(mode) => write!(f, "ok mode loaded {}", mode.as_str()),
        Status::Running(mode, time) => write!(f, "ok mode running {} {time}", mode.as_str()),
        Status::StoppedAsked => write!(f, "ok mode stopped asked"),
        Status::StoppedOverrun(task) => write!(f, "ok mode stopped overrun {}", task.as_str()),
    }
}

// Writes the reply to `show all`.
fn write_ports<W: fmt::Write>(f: &mut fmt::Formatter<W>, ports: &[PortValue]) -> fmt::Result
    ensures { WritesOnOk W.write_str_gives f.old result (codes "ok all" ++ flat_map text_of_value ports.now) f.new }
{
    write!(f, "ok all")?;
    for port in ports {
        write!(f, " {}={}", port.port, port.value)?;
    }
    Ok(())
}

// Writes the reply to `trace`.
fn write_records<W: fmt::Write>(f: &mut fmt::Formatter<W>, kept: &[Record]) -> fmt::Result
    ensures { WritesOnOk W.write_str_gives f.old result (codes "ok trace" ++ flat_map text_of_record kept.now) f.new }
{
    write!(f, "ok trace")?;
    for record in kept {
        write_record(f, record)?;
    }
    Ok(())
}

// Writes a record, with the blank before it.
fn write_record<W: fmt::Write>(f: &mut fmt::Formatter<W>, record: &Record) -> fmt::Result
    ensures { WritesOnOk W.write_str_gives f.old result (text_of_record «record».now) f.new }
{
    write!(f, " {}:", record.tick)?;
    write_happening(f, &record.happening)
}

// Writes what happened, as a record has it.
fn write_happening<W: fmt::Write>(f: &mut fmt::Formatter<W>, happening: &Happening) -> fmt::Result
    ensures { WritesOnOk W.write_str_gives f.old result (text_of_happening happening.now) f.new }
{
    match happening {
        Happening::Start(mode) => write!(f, "start:{}", mode.as_str()),
        Happening::Mode(mode) => write!(f, "mode:{}", mode.as_str()),
        Happening::Act(actuator, value) => write!(f, "act:{}:{value}", actuator.as_str()),
        Happening::Out(output, value) => write!(f, "out:{}:{value}", output.as_str()),
        Happening::Asked => write!(f, "stop:asked"),
        Happening::Overrun(task) => write!(f, "stop:overrun:{}", task.as_str()),
        Happening::Replaced(mode) => write!(f, "replaced:{}", mode.as_str()),
    }
}

// Writes the reply to `rows`.
fn write_rows<W: fmt::Write>(f: &mut fmt::Formatter<W>, rows: &[Row]) -> fmt::Result
    ensures { WritesOnOk W.write_str_gives f.old result (codes "ok rows" ++ flat_map text_of_row rows.now) f.new }
{
    write!(f, "ok rows")?;
    for row in rows {
        write_row(f, row)?;
    }
    Ok(())
}

// Writes a row, with the blank before it.
fn write_row<W: fmt::Write>(f: &mut fmt::Formatter<W>, row: &Row) -> fmt::Result
    ensures { WritesOnOk W.write_str_gives f.old result (text_of_row row.now) f.new }
{
    match row {
        Row::Offer(offer) => {
            write!(
                f,
                " offer:{}:{}",
                offer.actuator.as_str(),
                offer.tenant.as_str()
            )?;
            write_bounds(f, &offer.bounds)
        }
        Row::Bind(bind) => write!(
            f,
            " bind:{}:{}:{}",
            bind.sensor.as_str(),
            bind.tenant.as_str(),
            bind.actuator.as_str()
        ),
    }
}

// Writes the bounds of an offer, as a row has them. Writes nothing if all values are within them.
fn write_bounds<W: fmt::Write>(f: &mut fmt::Formatter<W>, bounds: &Bounds) -> fmt::Result
    ensures { WritesOnOk W.write_str_gives f.old result (text_of_bounds bounds.now) f.new }
{
    if bounds.is_whole() {
        return Ok(());
    }
    write!(f, ":{}:{}", bounds.low(), bounds.high())
}

// Writes a refusal.
fn write_refusal<W: fmt::Write>(f: &mut fmt::Formatter<W>, refusal: Refusal) -> fmt::Result
    ensures { WritesOnOk W.write_str_gives f.old result (codes "err " ++ text_of_refusal refusal) f.new }
{
    match refusal {
        Refusal::BadCommand => write!(f, "err bad-command"),
        Refusal::Syntax(offset) => write!(f, "err syntax {offset}"),
        Refusal::TooDeep => write!(f, "err syntax deep"),
        Refusal::TooMany => write!(f, "err syntax many"),
        Refusal::Rule(number) => write!(f, "err rule {number}"),
        Refusal::Running => write!(f, "err running"),
        Refusal::NotRunning => write!(f, "err not-running"),
        Refusal::NotLoaded => write!(f, "err not-loaded"),
        Refusal::NoPort => write!(f, "err no-port"),
        Refusal::NoTenant => write!(f, "err no-tenant"),
        Refusal::Own => write!(f, "err own"),
        Refusal::Twice => write!(f, "err twice"),
        Refusal::NotThere => write!(f, "err not-there"),
        Refusal::OverBudget(budget) => write!(f, "err budget {}", budget.as_str()),
        Refusal::Memory => write!(f, "err memory"),
    }
}
