//! The program `rig_host`: it does what its arguments request, and ends with an exit status.
#![tactic(auto)]

ghost use Rattle.std.specs.Prelude.{◌≡◌};
ghost use Rattle.std.specs.Process.{exit_status};
ghost use Rattle.rig_client.specs.declared.faults.ClientFault.{ClientFault as AnyClientFault};
ghost use Rattle.rig_host.specs.declared.Failure.TheVariants.{Client, Subcommand};
ghost use Rattle.rig_server.specs.declared.faults.ServeFault.{ServeFault as AnyServeFault};
ghost use Rattle.rig_files.specs.cited.Statuses.{status_of};
ghost use Rattle.rig_files.specs.declared.faults.SubcommandFault.{SubcommandFault as AnySubcommandFault};

mod client;
mod histories;
mod server;

use client::run_client;
use file_checks::{check_files, print_notes, run_audit, run_config};
use rig_arguments::read_arguments;
use rig_arguments::requests::Request;
use rig_client::faults::ClientFault;
use rig_files::configuration::read_configuration;
use rig_files::faults::SubcommandFault;
use rig_model::config::Config;
use rig_script::faults::ScriptFault;
use rig_server::faults::ServeFault;
use rig_subcommands::{run_compare, run_retest, run_script, run_test, run_timeline, run_trial};
use server::run_server;
use std::process::ExitCode;
use std::sync::Wait;
use std::thread::Threads;
use std::time::Clock;
use std::{env, fmt, io};

fn main(rt: HostRuntime) -> ExitCode {
    match run(&rt, &rt) {
        Ok(()) => ExitCode::SUCCESS,
        Err(failure) => {
            // if standard error is closed, only the status says it
            let _ = eprint!(rt; "{failure}");
            failure.status()
        }
    }
}

/// Why the program ends with another status than 0. Its `Display` is for standard error.
#[derive(Drop)]
enum Failure {
    /// The fault of a subcommand that needs no network, or one before any subcommand.
    Subcommand(SubcommandFault),
    /// The fault for which there is no server.
    Server(ServeFault),
    /// The fault that ended the server, if not a halt. The server has reported it.
    Reported(ServeFault),
    /// The fault that ended a session, if not `bye`.
    Client(ClientFault),
    /// A line that was refused or not sent ended a session. The client has reported it.
    Refused,
}

impl Failure {
    // The exit status of the program for this failure.
    fn status(&self) -> ExitCode
        ensures subcommand { (fault : AnySubcommandFault) → self.now ≡ Failure.Subcommand fault → exit_status result ≡ status_of fault }
        ensures server { (fault : AnyServeFault) → self.now ≡ Failure.Server fault → exit_status result ≡ 3 }
        ensures reported { (fault : AnyServeFault) → self.now ≡ Failure.Reported fault → exit_status result ≡ 3 }
        ensures client { (fault : AnyClientFault) → self.now ≡ Failure.Client fault → exit_status result ≡ 3 }
        ensures refused { self.now ≡ Failure.Refused → exit_status result ≡ 4 }
    {
        match self {
            Failure::Subcommand(fault) => fault.status(),
            Failure::Server(_) | Failure::Reported(_) | Failure::Client(_) => ExitCode::from(3),
            Failure::Refused => ExitCode::from(4),
        }
    }
}

impl fmt::Display for Failure {
    fn fmt<W: fmt::Write>(&self, f: &mut fmt::Formatter<W>) -> fmt::Result {
        match self {
            Failure::Subcommand(fault) => write!(f, "{fault}"),
            Failure::Server(fault) => writeln!(f, "{}", fault.as_str()),
            Failure::Reported(_) | Failure::Refused => Ok(()),
            Failure::Client(fault) => writeln!(f, "{}", fault.as_str()),
        }
    }
}

impl From<SubcommandFault> for Failure {
    ghost from_gives = { λ fault failure. failure ≡ Subcommand fault };

    fn from(fault: SubcommandFault) -> Failure {
        Failure::Subcommand(fault)
    }
}

impl From<ClientFault> for Failure {
    ghost from_gives = { λ fault failure. failure ≡ Client fault };

    fn from(fault: ClientFault) -> Failure {
        Failure::Client(fault)
    }
}

// Does what the arguments request. The arguments are checked before the configuration. A server starts its threads with `threads`.
fn run<T: Threads + Wait + Clock + Sync>(rt: &HostRuntime, threads: &T) -> Result<(), Failure> {
    let words = read_words(rt)?;
    let request = requested(rt, words.as_slice())?;
    carry_out(rt, threads, &request)
}

// The request that the arguments make.
fn requested<'a>(rt: &HostRuntime, words: &'a [String]) -> Result<Request<'a>, SubcommandFault> {
    Ok(read_arguments(rt.alloc(), words)?)
}

// Carries out a request. The configuration of a server is read before the port is taken.
fn carry_out<T: Threads + Wait + Clock + Sync>(
    rt: &HostRuntime,
    threads: &T,
    request: &Request<'_>,
) -> Result<(), Failure> {
    match request {
        Request::Text(text) => match rt.print(text) {
            Ok(()) => Ok(()),
            Err(_) => Err(Failure::Subcommand(SubcommandFault::Script(ScriptFault::Write))),
        },
        Request::Check(request) => Ok(check_files(rt, request)?),
        Request::Config(request) => Ok(run_config(rt, request)?),
        Request::Script(request) => Ok(run_script(rt, request)?),
        Request::Timeline(request) => Ok(run_timeline(rt, request)?),
        Request::Retest(request) => Ok(run_retest(rt, request)?),
        Request::Trial(request) => Ok(run_trial(rt, request)?),
        Request::Compare(request) => Ok(run_compare(rt, request)?),
        Request::Audit(request) => Ok(run_audit(rt, request)?),
        Request::Test(request) => Ok(run_test(rt, request)?),
        Request::Serve(request) => {
            let config = configured(rt, request.config)?;
            let Ok(()) = print_notes(rt, request.config, &config) else {
                return Err(Failure::Server(ServeFault::Memory));
            };
            run_server(rt, threads, &config, request)
        }
        Request::Connect(request) => run_client(rt, request),
    }
}

// The configuration of a server.
fn configured(rt: &HostRuntime, path: Option<&str>) -> Result<Config, SubcommandFault> {
    Ok(read_configuration(rt, path)?)
}

// The arguments, with the program's own name first.
fn read_words(rt: &HostRuntime) -> Result<Vec<String>, SubcommandFault> {
    match env::args(rt) {
        Ok(words) => Ok(words.collect(rt.alloc())?),
        Err(error) => match error.kind() {
            io::ErrorKind::InvalidData => Err(SubcommandFault::unreadable(rt.alloc())),
            _ => Err(SubcommandFault::Script(ScriptFault::Memory)),
        },
    }
}
