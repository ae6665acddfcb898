//! A client of the server on a port of this machine.

ghost use Rattle.std.specs.Prelude.{◌≡◌, Err, IfErr, IsOk};

use crate::Failure;
use rig_arguments::requests::ConnectRequest;
use rig_arguments::subcommands::Subcommand;
use rig_client::answers::Server;
use rig_client::conversing::converse;
use rig_client::faults::ClientFault;
use rig_client::keys::{first_line, is_key};
use rig_client::outcomes::{OnRefusal, Outcome};
use rig_client::programs::{FileFault, ProgramFiles};
use rig_client::sessions::{Connections, Sessions, begin};
use rig_client::users::User;
use rig_files::faults::SubcommandFault;
use rig_model::text::name_bytes::is_name;
use std::env::VarError;
use std::io::{BufReader, BufWriter, IsTerminal, Read, Write};
use std::net::TcpStream;
use std::{env, fs, io};

// The environment variable with the key.
const KEY: &str = "RIG_HOST_KEY";

// The files of this machine.
#[derive(Drop)]
struct Disk<'a> {
    rt: &'a HostRuntime,
}

impl<'a> ProgramFiles for Disk<'a> {
    fn bytes(&self, path: &str, most: usize) -> Result<Vec<u8>, FileFault> {
        let Ok(file) = fs::open(self.rt, path) else {
            return Err(FileFault::Unreadable);
        };
        let mut bytes = Vec::new(self.rt.alloc());
        let limit = u64::try_from(most).unwrap_or(u64::MAX).saturating_add(1);
        match file.take(limit).read_to_end(&mut bytes) {
            Ok(_) => Ok(bytes),
            Err(error) => match error.kind() {
                io::ErrorKind::OutOfMemory => Err(FileFault::Memory),
                _ => Err(FileFault::Unreadable),
            },
        }
    }
}

// A port of this machine, on which a server listens.
#[derive(Drop)]
struct Port<'a> {
    rt: &'a HostRuntime,
    number: u16,
}

impl<'a> Connections<BufReader<TcpStream>, BufWriter<TcpStream>> for Port<'a> {
    fn connect(&self) -> Result<Server<BufReader<TcpStream>, BufWriter<TcpStream>>, ClientFault> {
        let stream = connected(self.rt, self.number)?;
        let Ok(handle) = stream.try_clone() else {
            return Err(ClientFault::Connect);
        };
        let Ok(reader) = BufReader::new(self.rt.alloc(), handle) else {
            return Err(ClientFault::Memory);
        };
        let Ok(writer) = BufWriter::new(self.rt.alloc(), stream) else {
            return Err(ClientFault::Memory);
        };
        Ok(Server::new(reader, writer))
    }
}

/// Greets the server as a tenant, and sends the lines of standard input, each after the answer to the one before.
///
/// # Errors
/// Faults of arguments, if the name isn't a tenant's name or there is no key, and the faults of the session. `Refused` if a line that was
/// refused or not sent ended it.
pub fn run_client(rt: &HostRuntime, request: &ConnectRequest<'_>) -> Result<(), Failure> {
    let alloc = rt.alloc();
    if !is_name(request.name.as_bytes()) {
        return Err(wrong(rt, "NAME isn't the name of a tenant"));
    }
    let Ok(output) = BufWriter::new(alloc, io::writer(rt)) else {
        return Err(Failure::Client(ClientFault::Memory));
    };
    let prompt = prompt_of(rt, request.name)?;
    let mut user = User::new(alloc, rt.reader(), output, rt.stderr(), prompt);
    run_for(rt, request, &mut user)
}

// Gets the key, and holds the session of this user.
fn run_for<I: Read, O: Write, E: Write>(
    rt: &HostRuntime,
    request: &ConnectRequest<'_>,
    user: &mut User<I, O, E>,
) -> Result<(), Failure> {
    let key = key_of(rt, request, user)?;
    if !is_key(key.as_str()) {
        return Err(Failure::Client(ClientFault::KeyRange));
    }
    ended(hold_session(rt, request, key.as_str(), user)?)
}

// The end of the program after a session with this outcome.
fn ended(outcome: Outcome) -> Result<(), Failure>
    ensures bye { outcome ≡ Outcome.Bye → IsOk result }
    ensures refused { outcome ≡ Outcome.Refused → result ≡ Err Failure.Refused }
{
    match outcome {
        Outcome::Bye => Ok(()),
        Outcome::Refused => Err(Failure::Refused),
    }
}

// A connection to the server on this port of this machine.
fn connected(rt: &HostRuntime, port: u16) -> Result<TcpStream, ClientFault>
    ensures { IfErr result (λ fault. fault ≡ ClientFault.Connect) }
{
    let Ok(stream) = TcpStream::connect(rt, ("127.0.0.1", port)) else {
        return Err(ClientFault::Connect);
    };
    match stream.set_nodelay(true) {
        Ok(()) => Ok(stream),
        Err(_) => Err(ClientFault::Connect),
    }
}

// Greets the server, and has the user's lines answered.
fn hold_session<I: Read, O: Write, E: Write>(
    rt: &HostRuntime,
    request: &ConnectRequest<'_>,
    key: &str,
    user: &mut User<I, O, E>,
) -> Result<Outcome, ClientFault> {
    let alloc = rt.alloc();
    let port = Port {
        rt,
        number: request.port,
    };
    let sessions = Sessions::new(alloc, port, request.name, key)?;
    let mut server = begin(alloc, user, &sessions)?;
    let on_refusal = if request.strict {
        OnRefusal::Quit
    } else {
        OnRefusal::GoOn
    };
    converse(
        alloc,
        user,
        &mut server,
        &sessions,
        &Disk { rt },
        on_refusal,
    )
}

// The prompt before each line. `None` if standard input or output is no terminal.
fn prompt_of(rt: &HostRuntime, name: &str) -> Result<Option<String>, ClientFault> {
    if rt.stdin().is_terminal() && rt.stdout().is_terminal() {
        Ok(Some(format!(in rt.alloc(); "{name}> ")?))
    } else {
        Ok(None)
    }
}

// The key: from the file, from the environment, or from the answer at the terminal.
fn key_of<I: Read, O: Write, E: Write>(
    rt: &HostRuntime,
    request: &ConnectRequest<'_>,
    user: &mut User<I, O, E>,
) -> Result<String, Failure> {
    if let Some(path) = request.key_file {
        return Ok(key_of_file(rt, path)?);
    }
    match env::var(rt, KEY) {
        Ok(key) => return Ok(key),
        Err(VarError::NotPresent) => {}
        Err(VarError::NotUnicode) => return Err(Failure::Client(ClientFault::KeyRange)),
        Err(VarError::OutOfMemory) => return Err(Failure::Client(ClientFault::Memory)),
    }
    if let Some(key) = asked_key(rt, request.name, user)? {
        return Ok(key);
    }
    Err(wrong(
        rt,
        "there is no key: name its file by '--key-file', set RIG_HOST_KEY, or connect at a terminal",
    ))
}

// The answer at the terminal, if there is one.
fn asked_key<I: Read, O: Write, E: Write>(
    rt: &HostRuntime,
    name: &str,
    user: &mut User<I, O, E>,
) -> Result<Option<String>, ClientFault> {
    if !user.is_prompted() {
        return Ok(None);
    }
    let question = format!(in rt.alloc(); "key of {name}: ")?;
    Ok(user.answer_to(question.as_str())?)
}

// The failure that the arguments of `connect` are wrong, with this text.
fn wrong(rt: &HostRuntime, text: &str) -> Failure {
    Failure::Subcommand(SubcommandFault::wrong(rt.alloc(), Subcommand::Connect, text))
}

// The first line of the file at this path.
fn key_of_file(rt: &HostRuntime, path: &str) -> Result<String, ClientFault> {
    match fs::read_to_string(rt, path) {
        Ok(text) => Ok(String::from_str(rt.alloc(), first_line(text.as_str()))?),
        Err(error) => match error.kind() {
            io::ErrorKind::OutOfMemory => Err(ClientFault::Memory),
            _ => Err(ClientFault::KeyFile),
        },
    }
}
