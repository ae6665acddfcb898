//! Connections: each gets a seat and a thread, in which its session is answered.

ghost use Rattle.std.specs.Prelude.{◌⊎◌, IfErr};
ghost use Rattle.rig_server.specs.inner.Refusals.{IsUnregistered, IsUnseated};

use crate::clients::{dismiss, prepare, refuse};
use crate::faults::ServeFault;
use crate::greetings::{Answers, Greeting, Requests};
use crate::limits::Limits;
use crate::refusals::Refusal;
use crate::register::Register;
use crate::seats::Seats;
use locked_book::naming::Naming;
use locked_book::passes::Pass;
use rig_model::config::Config;
use rig_sessions::faults::TalkFault;
use rig_sessions::talking::talk;
use std::alloc::Global;
use std::io::{BufWriter, ErrorKind, Write};
use std::net::{Shutdown, TcpListener, TcpStream};
use std::sync::atomic::{AtomicUsize, Ordering};
use std::sync::{Condvar, Mutex, Wait};
use std::thread;
use std::thread::{Scope, Threads};
use std::time::{Clock, Duration};

// How many milliseconds to wait after an accept that failed, as when no descriptor is free.
const PAUSE: u64 = 10;

/// What the threads of a server share.
#[derive(Drop)]
pub(crate) struct Shared<'a, N: Naming, D> {
    /// The allocator of the sessions.
    pub(crate) alloc: Global,
    /// The tenants and their keys.
    pub(crate) config: &'a Config,
    /// The desk that takes the calls.
    pub(crate) desk: &'a D,
    /// How long it waits for clients.
    pub(crate) limits: Limits,
    /// The open connections.
    pub(crate) register: Mutex<Register<N>>,
    /// Notified of each connection that has ended.
    pub(crate) left: Condvar,
    /// The number of seats that were given.
    pub(crate) given: AtomicUsize,
}

/// Starts the thread that takes connections.
///
/// # Errors
/// `Memory` if no thread can be started.
pub(crate) fn start<
    's,
    E,
    N: Naming + Send + Sync,
    D: Seats<N> + Sync,
    R: Threads + Wait + Clock + Sync,
>(
    rt: &'s R,
    scope: &'s Scope<'s, E>,
    listener: &'s TcpListener,
    shared: &'s Shared<'s, N, D>,
) -> Result<(), ServeFault> {
    match scope.spawn(move || accept_all(rt, scope, listener, shared)) {
        Ok(_thread) => Ok(()),
        Err(_) => Err(ServeFault::Memory),
    }
}

// Accepts connections until the register is closed. One that can't be accepted is skipped.
fn accept_all<'s, E, N: Naming + Send + Sync, D: Seats<N> + Sync, R: Threads + Wait + Clock + Sync>(
    rt: &'s R,
    scope: &'s Scope<'s, E>,
    listener: &'s TcpListener,
    shared: &'s Shared<'s, N, D>,
) {
    for stream in listener.incoming() {
        match stream {
            Ok(stream) => take(rt, scope, shared, stream),
            // nobody came for a while
            Err(error) if error.kind() == ErrorKind::WouldBlock => {}
            Err(_) => thread::sleep(rt, Duration::from_millis(PAUSE)),
        }
        if shared.register.lock(rt).is_closed() {
            return;
        }
    }
}

// Gives a connection its place, its seat and its thread.
fn take<'s, E, N: Naming + Send + Sync, D: Seats<N> + Sync, R: Threads + Wait + Clock + Sync>(
    rt: &'s R,
    scope: &'s Scope<'s, E>,
    shared: &'s Shared<'s, N, D>,
    stream: TcpStream,
) {
    let Ok(()) = prepare(&stream, shared.limits.before_greeting()) else {
        return;
    };
    let Ok(handle) = stream.try_clone() else {
        refuse(&stream, Refusal::Memory);
        return;
    };
    match enter(rt, shared, handle) {
        Ok((place, pass)) => {
            if scope
                .spawn(move || converse(rt, shared, stream, place, pass))
                .is_err()
            {
                give_up(rt, shared, place);
            }
        }
        Err(refusal) => refuse(&stream, refusal),
    }
}

// A place and a seat for a connection, or why it gets none.
fn enter<N: Naming, R: Wait, D: Seats<N>>(
    rt: &R,
    shared: &Shared<'_, N, D>,
    handle: TcpStream,
) -> Result<(usize, Pass<N>), Refusal>
    ensures { IfErr result (λ refusal. IsUnregistered refusal ⊎ IsUnseated (D.refuses shared.now.desk.now) refusal) }
{
    let place = register(rt, shared, handle)?;
    match seat(rt, shared.desk) {
        Ok(pass) => {
            shared.given.fetch_add(1, Ordering::SeqCst);
            Ok((place, pass))
        }
        Err(refusal) => {
            let _ = shared.register.lock(rt).give_up(place);
            Err(refusal)
        }
    }
}

// A place for a connection, or why it gets none. If too many haven't greeted then, the oldest of these is ended.
fn register<N: Naming, R: Wait, D>(
    rt: &R,
    shared: &Shared<'_, N, D>,
    handle: TcpStream,
) -> Result<usize, Refusal>
    ensures { IfErr result IsUnregistered }
{
    let mut register = shared.register.lock(rt);
    let place = register.enter(handle)?;
    if let Some(most) = shared.limits.ungreeted {
        register.make_way(most);
    }
    Ok(place)
}

// A seat for a connection, or why it gets none.
fn seat<N: Naming, R: Wait, D: Seats<N>>(rt: &R, desk: &D) -> Result<Pass<N>, Refusal>
    ensures { IfErr result (IsUnseated (D.refuses desk.now)) }
{
    Ok(desk.seat(rt)?)
}

// Refuses a connection that gets no thread.
fn give_up<N: Naming, R: Wait, D>(rt: &R, shared: &Shared<'_, N, D>, place: usize) {
    let handle = shared.register.lock(rt).give_up(place);
    if let Some(handle) = handle {
        refuse(&handle, Refusal::Thread);
    }
}

// Answers a connection until it ends, and leaves its pass in the register.
fn converse<N: Naming, R: Wait + Clock, D: Seats<N>>(
    rt: &R,
    shared: &Shared<'_, N, D>,
    stream: TcpStream,
    place: usize,
    pass: Pass<N>,
) {
    let pass = answer(rt, shared, &stream, place, pass);
    dismiss(&stream);
    drop(stream);
    shared.register.lock(rt).leave(place, pass);
    shared.left.notify_all();
}

// Answers the lines of a connection. A fault of its stream ends it just as the end of its stream does.
fn answer<N: Naming, R: Wait + Clock, D: Seats<N>>(
    rt: &R,
    shared: &Shared<'_, N, D>,
    stream: &TcpStream,
    place: usize,
    pass: Pass<N>,
) -> Pass<N> {
    let Ok(buffer) = BufWriter::new(shared.alloc, stream) else {
        refuse(stream, Refusal::Memory);
        return pass;
    };
    let greeting = Greeting::new(rt, shared, stream, place);
    let mut reader = Requests::new(stream, &greeting);
    let mut writer = Answers::new(buffer, &greeting);
    let (pass, end) = talk(
        rt,
        shared.alloc,
        shared.config,
        shared.desk,
        pass,
        &mut reader,
        &mut writer,
    );
    if let Err(TalkFault::Write) = end {
        // the rest can't be written; once the stream is shut down, the flush doesn't wait a second time
        let _ = stream.shutdown(Shutdown::Both);
    }
    let _ = writer.flush();
    pass
}
