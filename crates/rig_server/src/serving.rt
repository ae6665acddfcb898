//! The server, from its first connection to the close of its desk.

ghost use Rattle.std.specs.Prelude.{◌≡◌, ◌≤◌, ℕ, List, ◌++◌, Option, IfOk, OnOk};
ghost use Rattle.std.specs.Io.KnownBytes.{Appends};
ghost use Rattle.std.specs.Thread.{IsSend};
ghost use Rattle.locked_book.specs.declared.faults.CloseFault.{CloseFault};
ghost use Rattle.rig_operator.specs.Asked.{Adds};
ghost use Rattle.rig_operator.specs.Operation.{IsEnd, Operates};
ghost use Rattle.text_lines.specs.cited.Reading.{IsLeft};
ghost use Rattle.rig_server.specs.inner.Closing.{IsClosed, IsClosedAfter};
ghost use Rattle.rig_server.specs.inner.Replies.{close_reply};

use crate::archived::Archived;
use crate::connections::{Shared, start};
use crate::faults::{ServeFault, reported};
use crate::halting::{look_for_halt, stop_listening, wait_for_all};
use crate::histories::History;
use crate::limits::Limits;
use crate::register::Register;
use crate::replies::{close_reply, ready_line, say};
use crate::served_rigs::{Served, ServedRig};
use locked_book::desks::Desk;
use locked_book::faults::CloseFault;
use locked_book::histories::NewHistory;
use locked_book::naming::Naming;
use locked_book::passes::Pass;
use rig_model::config::Config;
use rig_operator::operating::{Ending, operate};
use rig_operator::rigs::Rig;
use std::alloc::Global;
use std::io::{Read, Sink, Write};
use std::marker::Brand;
use std::net::{TcpListener, TcpStream};
use std::os::fd::OwnedFd;
use std::sync::atomic::AtomicUsize;
use std::sync::{Condvar, Mutex, Wait};
use std::thread;
use std::thread::{Scope, Threads};
use std::time::{Clock, Duration};
use text_lines::lines::Lines;
use worker_pool::gates::Gate;
use worker_pool::pools::Pool;

// The number of the first instant.
const FIRST_TICK: u64 = 0;

// The longest wait for a connection, in seconds. So the server halts even if its listener can't be shut down.
const LONGEST_ACCEPT: u64 = 1;

/// What a server is started with.
#[derive(Drop)]
pub struct Service<'a, G> {
    /// The allocator of the server.
    pub alloc: Global,
    /// The tenants and the lines of the rig.
    pub config: &'a Config,
    /// The number of workers that run jobs: 1 to 64.
    pub workers: usize,
    /// How long it waits for clients.
    pub limits: Limits,
    /// The gate that a worker asks before it runs a job.
    pub gate: &'a G,
}

/// Serves a rig on this listener until the operator halts it. The first instant is 0.
///
/// Each connection has a session. The operator's lines come from the reader, and are answered on the writer. `ready PORT` is written first,
/// and the desk's answer to its close last.
///
/// The server halts at the operator's `halt`. It halts in the same way if the operator's input ends, or a line of it is too long or not
/// UTF-8. Then it takes no further connection, and waits for the open ones. A second `halt` in the meantime ends them, and so does the
/// end of the time that the service gives them. Then the workers are stopped, and the desk is closed with the passes of all connections.
///
/// # Errors
/// The line of a fault is written to `errors` as soon as it occurs.
/// - `Listen` if the listener has no address, and `Memory` if there is no memory or no thread to begin: nothing is written then.
/// - `Read` and `Write` if the operator's reader or writer fails: the server ends as after a `halt`. The number of reads has no limit.
/// - `Memory` also if an allocation for the last line fails.
pub fn serve<
    R: Threads + Wait + Clock + Sync,
    I: Read + Drop + Send + 'static,
    W: Write,
    E: Write,
    G: Gate + Sync,
>(
    rt: &R,
    listener: &TcpListener,
    reader: I,
    writer: &mut W,
    errors: &mut E,
    service: &Service<'_, G>,
) -> Result<(), ServeFault>
    requires some { 1 ≤ service.now.workers }
    requires few { service.now.workers ≤ 64 }
{
    let mut outputs = Outputs {
        answers: writer,
        faults: errors,
        history: None::<Sink>,
    };
    serve_with_history(rt, listener, reader, &mut outputs, service)
}

/// Serves a rig as `serve` does, and appends its history to a file: what the desk logs, once a second and at each `archive`, as
/// `rig_history` writes it. It is complete when the server ends without a fault.
///
/// What can't be written is kept in memory and tried again; `err history` says so at an `archive`, and a note on `errors` at the next instant.
///
/// # Errors
/// As `serve`, and `History` if the last part of the history can't be written, or there is no memory for it.
pub fn serve_with_history<
    R: Threads + Wait + Clock + Sync,
    I: Read + Drop + Send + 'static,
    W: Write,
    E: Write,
    F: Write + Drop + Send,
    G: Gate + Sync,
>(
    rt: &R,
    listener: &TcpListener,
    reader: I,
    outputs: &mut Outputs<'_, W, E, F>,
    service: &Service<'_, G>,
) -> Result<(), ServeFault>
    requires some { 1 ≤ service.now.workers }
    requires few { service.now.workers ≤ 64 }
{
    let listening = reported(outputs.faults, listening_on(service.alloc, listener))?;
    let history = NewHistory::new();
    serve_desk::<Brand, _, _, _, _, _, _>(
        rt,
        &listening,
        reader,
        outputs,
        service,
        service.config,
        history,
    )
}

/// Where a server writes: the answers to its operator, the lines of its faults, and its history, if it is kept.
#[derive(Drop)]
pub struct Outputs<'a, W, E, F> {
    pub answers: &'a mut W,
    pub faults: &'a mut E,
    /// The end of it has the head of a history already.
    pub history: Option<F>,
}

// A listener, the line with its port, and a handle to shut it down. Shutting down wakes the thread that waits in an accept, and needs no
// new descriptor.
#[derive(Drop)]
struct Listening<'a> {
    listener: &'a TcpListener,
    ready: String,
    handle: TcpStream,
}

fn listening_on(alloc: Global, listener: &TcpListener) -> Result<Listening<'_>, ServeFault> {
    let Ok(address) = listener.local_addr() else {
        return Err(ServeFault::Listen);
    };
    let Ok(handle) = listener.try_clone() else {
        return Err(ServeFault::Listen);
    };
    let handle = TcpStream::from(OwnedFd::from(handle));
    // this holds for the listener, of which it is a handle; if it fails, only the shutdown ends an accept
    let _ = handle.set_read_timeout(Some(Duration::from_secs(LONGEST_ACCEPT)));
    Ok(Listening {
        listener,
        ready: ready_line(alloc, address.port())?,
        handle,
    })
}

// Serves over a new desk, and closes it.
fn serve_desk<
    N: Naming + Send + Sync,
    R: Threads + Wait + Clock + Sync,
    I: Read + Drop + Send + 'static,
    W: Write,
    E: Write,
    F: Write + Drop + Send,
    G: Gate + Sync,
>(
    rt: &R,
    listening: &Listening<'_>,
    reader: I,
    outputs: &mut Outputs<'_, W, E, F>,
    service: &Service<'_, G>,
    config: &Config,
    history: NewHistory,
) -> Result<(), ServeFault>
    requires config { config.now ≡ N.config }
    requires first_tick { 0 ≡ N.first_tick }
    requires history { history ≡ N.history }
    requires some { 1 ≤ service.now.workers }
    requires few { service.now.workers ≤ 64 }
{
    let desk = reported(
        outputs.faults,
        new_desk::<N>(service.alloc, config, history),
    )?;
    let served = serve_connections(rt, listening, &desk, &*config, reader, outputs, service);
    let left = reported(outputs.faults, served)?;
    let closed = close(
        service.alloc,
        desk,
        left.passes,
        &left.archived,
        outputs.answers,
    );
    // reported when it occurred
    left.ended?;
    reported(outputs.faults, closed)
}

fn new_desk<N: Naming>(
    alloc: Global,
    config: &Config,
    history: NewHistory,
) -> Result<Desk<N>, ServeFault>
    requires config { config.now ≡ N.config }
    requires first_tick { 0 ≡ N.first_tick }
    requires history { history ≡ N.history }
{
    Ok(Desk::with_history(alloc, config, FIRST_TICK, history)?)
}

// What connections leave: the passes that weren't released, the archived calls with which none was compared, and how the operator ended.
#[derive(Drop)]
struct Left<N: Naming> {
    passes: Vec<Pass<N>>,
    archived: Archived,
    ended: Result<(), ServeFault>,
}

// Serves over a desk until no connection is left.
fn serve_connections<
    'a,
    N: Naming + Send + Sync,
    R: Threads + Wait + Clock + Sync,
    I: Read + Drop + Send + 'static,
    W: Write,
    E: Write,
    F: Write + Drop + Send,
    G: Gate + Sync,
>(
    rt: &R,
    listening: &Listening<'_>,
    desk: &'a Desk<N>,
    config: &'a Config,
    reader: I,
    outputs: &mut Outputs<'_, W, E, F>,
    service: &Service<'_, G>,
) -> Result<Left<N>, ServeFault>
    requires some { 1 ≤ service.now.workers }
    requires few { service.now.workers ≤ 64 }
{
    let shared = Shared {
        alloc: service.alloc,
        config,
        desk,
        limits: service.limits,
        register: Mutex::new(Register::new(service.alloc)),
        left: Condvar::new(),
        given: AtomicUsize::new(0),
    };
    let history = match outputs.history.take() {
        Some(file) => Some(History::new(service.alloc, config, desk, FIRST_TICK, file)),
        None => None,
    };
    let served = Served {
        shared: &shared,
        history: history.as_ref(),
    };
    let ended = run(rt, listening, &served, reader, outputs, service)?;
    Ok(Left {
        passes: shared.register.into_inner().into_passes(),
        archived: match history {
            Some(history) => history.into_pieces().into_calls(),
            None => Archived::new(service.alloc),
        },
        ended,
    })
}

// Runs the connections, the workers, the history and the operator until all have ended. The inner result is how the operator ended, or that
// the history isn't complete.
fn run<
    N: Naming + Send + Sync,
    R: Threads + Wait + Clock + Sync,
    I: Read + Drop + Send + 'static,
    W: Write,
    E: Write,
    F: Write + Drop + Send,
    G: Gate + Sync,
>(
    rt: &R,
    listening: &Listening<'_>,
    served: &Served<'_, '_, N, F>,
    reader: I,
    outputs: &mut Outputs<'_, W, E, F>,
    service: &Service<'_, G>,
) -> Result<Result<(), ServeFault>, ServeFault>
    requires some { 1 ≤ service.now.workers }
    requires few { service.now.workers ≤ 64 }
{
    thread::scope(
        thread::scope_env(),
        rt,
        |scope|
            requires some { 1 ≤ service.now.workers }
            requires few { service.now.workers ≤ 64 }
            requires moves { IsSend I.row }
        {
            let pool = Pool::start(
                rt,
                served.shared.alloc,
                scope,
                service.workers,
                served.shared.desk,
                service.gate,
            )?;
            let started = begin(rt, scope, listening.listener, served);
            let ended = match started {
                Ok(()) => Ok(run_operator(rt, listening, served, &pool, reader, outputs)),
                Err(fault) => Err(fault),
            };
            pool.stop(rt);
            with_history(rt, served, outputs.faults, ended)
        },
    )
}

// Starts the threads for the history and for connections.
fn begin<
    's,
    'a,
    S,
    N: Naming + Send + Sync,
    R: Threads + Wait + Clock + Sync,
    F: Write + Drop + Send,
>(
    rt: &'s R,
    scope: &'s Scope<'s, S>,
    listener: &'s TcpListener,
    served: &Served<'s, 'a, N, F>,
) -> Result<(), ServeFault> {
    let register = &served.shared.register;
    if let Some(history) = served.history {
        if scope.spawn(move || history.keep(rt, register)).is_err() {
            return Err(ServeFault::Memory);
        }
    }
    start(rt, scope, listener, served.shared)
}

// Ends the history. How the operator ended, or that the history isn't complete, which is then reported.
fn with_history<N: Naming, R: Wait, E: Write, F: Write>(
    rt: &R,
    served: &Served<'_, '_, N, F>,
    faults: &mut E,
    ended: Result<Result<(), ServeFault>, ServeFault>,
) -> Result<Result<(), ServeFault>, ServeFault> {
    let is_whole = match served.history {
        Some(history) => history.end(rt, &served.shared.register),
        None => true,
    };
    match ended {
        Ok(Ok(())) if !is_whole => Ok(reported(faults, Err(ServeFault::History))),
        _ => ended,
    }
}

// Answers the operator, reports a fault of the operator's streams at once, and waits for the connections.
fn run_operator<
    N: Naming,
    R: Threads + Wait + Clock,
    I: Read + Drop + Send + 'static,
    W: Write,
    E: Write,
    F: Write + Drop,
>(
    rt: &R,
    listening: &Listening<'_>,
    served: &Served<'_, '_, N, F>,
    pool: &Pool,
    reader: I,
    outputs: &mut Outputs<'_, W, E, F>,
) -> Result<(), ServeFault> {
    let shared = served.shared;
    let mut lines = Lines::new(shared.alloc);
    let mut reader = reader;
    let mut rig = ServedRig::new(served, pool, &mut *outputs.faults);
    let ready = listening.ready.as_str();
    let ended = answer_operator(
        rt,
        shared.alloc,
        ready,
        &mut rig,
        &mut lines,
        &mut reader,
        outputs.answers,
    );
    let ended = reported(outputs.faults, ended);
    stop_listening(rt, shared, &listening.handle);
    let second = match ended {
        Ok(Ending::Halt) => look_for_halt(rt, shared.alloc, lines, reader),
        Ok(Ending::Input) | Err(_) => None,
    };
    wait_for_all(rt, shared, second.as_ref());
    match ended {
        Ok(_) => Ok(()),
        Err(fault) => Err(fault),
    }
}

// Writes the line with the port, and answers the operator's lines.
fn answer_operator<R: Wait, G: Rig, I: Read, W: Write>(
    rt: &R,
    alloc: Global,
    ready: &str,
    rig: &mut G,
    lines: &mut Lines,
    reader: &mut I,
    writer: &mut W,
) -> Result<Ending, ServeFault>
    ensures { IfOk result (λ ending. Operates (Adds (G.asked rig.old) (G.asked rig.new)) (λ said. Appends (W.contents writer.old) (W.contents writer.new) (ready.now ++ said)) (λ texts.
        (bytes : List ℕ) → IsLeft lines.old (I.remaining reader.old) bytes → IsEnd ending bytes texts (I.remaining reader.new) (IsLeft lines.new (I.remaining reader.new)))) }
{
    say(writer, ready)?;
    match operate(rt, alloc, rig, lines, reader, writer) {
        Ok(ending) => Ok(ending),
        Err(fault) => Err(ServeFault::from(fault)),
    }
}

// Closes the desk with these passes, if they fit the archived calls, and writes the answer.
fn close<N: Naming, W: Write>(
    alloc: Global,
    desk: Desk<N>,
    passes: Vec<Pass<N>>,
    archived: &Archived,
    writer: &mut W,
) -> Result<(), ServeFault>
    ensures { OnOk result ((answer : Option CloseFault) × IsClosedAfter N.config N.first_tick archived.now.rows.items passes.items answer
        × Appends (W.contents writer.old) (W.contents writer.new) (close_reply answer)) }
{
    say_answer(alloc, close_after(desk, passes, archived), writer)
}

// Why these passes don't fit the archived calls, else the answer of the desk to its close.
fn close_after<N: Naming>(
    desk: Desk<N>,
    passes: Vec<Pass<N>>,
    archived: &Archived,
) -> Option<CloseFault>
    ensures { IsClosedAfter N.config N.first_tick archived.now.rows.items passes.items result }
{
    match archived.compare(passes.as_slice()) {
        Some(fault) => Some(fault),
        None => close_desk(desk, passes),
    }
}

// Closes the desk with all passes, and returns its answer: `None` if it is closed.
fn close_desk<N: Naming>(desk: Desk<N>, passes: Vec<Pass<N>>) -> Option<CloseFault>
    ensures { IsClosed N.config N.first_tick passes.items result }
{
    match desk.close(passes) {
        Ok(_book) => None,
        Err((fault, _desk, _passes)) => Some(fault),
    }
}

// Writes the last line, and flushes the writer.
fn say_answer<W: Write>(
    alloc: Global,
    answer: Option<CloseFault>,
    writer: &mut W,
) -> Result<(), ServeFault>
    ensures { OnOk result (Appends (W.contents writer.old) (W.contents writer.new) (close_reply answer)) }
{
    let reply = close_reply(alloc, answer)?;
    say(writer, reply.as_str())?;
    match writer.flush() {
        Ok(()) => Ok(()),
        Err(_) => Err(ServeFault::Write),
    }
}
