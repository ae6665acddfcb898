//! The sessions of a tenant: each is a connection on which the server was greeted.

ghost use Rattle.std.specs.Prelude.{◌≡◌, ◌≢◌, ◌⊎◌, ℕ, List, Err, IfOk, IfErr, OnOk, codes, string_bytes};
ghost use Rattle.std.specs.Io.KnownBytes.{Appends};
ghost use Rattle.rig_client.specs.Ends.{IsAsked, said_to};
ghost use Rattle.rig_client.specs.Requests.{greeting};
ghost use Rattle.rig_client.specs.Sessions.{HasBegun, IsAskedAtLast, IsRefused, hello_of};

use crate::answers::Server;
use crate::faults::ClientFault;
use crate::remarks::remark_on;
use crate::users::User;
use std::alloc::{AllocError, Global};
use std::io::{BufRead, Read, Write};

/// A place with a server.
pub trait Connections<R, W> {
    /// Returns a new connection to the server.
    ///
    /// # Errors
    /// `Connect` and `Memory`.
    fn connect(&self) -> Result<Server<R, W>, ClientFault>
        ensures { IfErr result (λ fault. (fault ≡ ClientFault.Connect) ⊎ (fault ≡ ClientFault.Memory)) };
}

/// The sessions of a tenant on a server.
#[derive(Drop)]
pub struct Sessions<C> {
    connections: C,
    hello: String,
}

impl<C: Drop> Sessions<C> {
    /// Creates the sessions of the tenant with this name and this key.
    ///
    /// # Errors
    /// Out of memory.
    pub fn new(
        alloc: Global,
        connections: C,
        name: &str,
        key: &str,
    ) -> Result<Sessions<C>, AllocError>
        ensures { IfOk result (λ sessions. hello_of sessions ≡ greeting name.now key.now) }
    {
        let hello = greeting(alloc, name, key)?;
        Ok(Sessions { connections, hello })
    }
}

/// Returns the line of the greeting.
///
/// # Errors
/// Out of memory.
pub fn greeting(alloc: Global, name: &str, key: &str) -> Result<String, AllocError>
    ensures { IfOk result (λ line. string_bytes line ≡ greeting name.now key.now) }
{
    format!(in alloc; "hello {name} {key}")
}

/// Connects to the server, and greets it.
///
/// # Errors
/// `Greeting` if the answer isn't `ok hello`: the answer was written for the user then. Else as `connect` and `Server::ask`, and `Write`.
pub fn begin<I: Read, O: Write, E: Write, R: BufRead + Drop, W: Write + Drop, C: Connections<R, W>>(
    alloc: Global,
    user: &mut User<I, O, E>,
    sessions: &Sessions<C>,
) -> Result<Server<R, W>, ClientFault>
    ensures begun { IfOk result (HasBegun W.contents R.remaining (hello_of sessions.now)) }
    ensures quiet { OnOk result (user.new ≡ user.old) }
    ensures refused { result ≡ Err ClientFault.Greeting → (answer : List ℕ)
        × IsRefused W.contents R.remaining (hello_of sessions.now) answer × Appends (said_to O.contents user.old) (said_to O.contents user.new) answer }
{
    let mut server = sessions.connections.connect()?;
    greet(alloc, user, &mut server, sessions.hello.as_str())?;
    Ok(server)
}

/// Greets the server with this line.
///
/// # Errors
/// `Greeting` if the answer isn't `ok hello`: the answer was written for the user then, with the remark on it. Else as `Server::ask`, and `Write`.
pub fn greet<I: Read, O: Write, E: Write, R: BufRead, W: Write>(
    alloc: Global,
    user: &mut User<I, O, E>,
    server: &mut Server<R, W>,
    hello: &str,
) -> Result<(), ClientFault>
    ensures greeted { OnOk result (IsAsked W.contents R.remaining server.old server.new hello.now (codes "ok hello\n")) }
    ensures quiet { OnOk result (user.new ≡ user.old) }
    ensures refused { result ≡ Err ClientFault.Greeting → (answer : List ℕ)
        × IsAsked W.contents R.remaining server.old server.new hello.now answer × (answer ≢ codes "ok hello\n")
        × Appends (said_to O.contents user.old) (said_to O.contents user.new) answer }
{
    let answer = server.ask(alloc, hello)?;
    if answer.as_slice() == b"ok hello\n".as_slice() {
        return Ok(());
    }
    user.say(answer.as_slice())?;
    user.remark(remark_on(alloc, hello, answer.as_slice())?)?;
    user.flush()?;
    Err(ClientFault::Greeting)
}

/// Sends a line, and returns its answer. If the pass of the session is full, begins a new session, and sends the line again there.
///
/// # Errors
/// As `Server::ask` and `begin`.
pub fn ask<I: Read, O: Write, E: Write, R: BufRead + Drop, W: Write + Drop, C: Connections<R, W>>(
    alloc: Global,
    user: &mut User<I, O, E>,
    server: &mut Server<R, W>,
    sessions: &Sessions<C>,
    line: &str,
) -> Result<Vec<u8>, ClientFault>
    ensures answer { IfOk result (λ answer. IsAskedAtLast W.contents R.remaining (hello_of sessions.now) server.old server.new line.now answer.items) }
    ensures quiet { OnOk result (user.new ≡ user.old) }
{
    let answer = server.ask(alloc, line)?;
    if answer.as_slice() == b"bye pass-full\n".as_slice() {
        *server = begin(alloc, user, sessions)?;
        return server.ask(alloc, line);
    }
    Ok(answer)
}
