//! The server on a port of this machine.

use crate::Failure;
use crate::histories::history_in;
use rig_arguments::requests::ServeRequest;
use rig_model::config::Config;
use rig_server::faults::ServeFault;
use rig_server::limits::Limits;
use rig_server::serving::{Outputs, Service, serve_with_history};
use std::io;
use std::io::BufWriter;
use std::net::TcpListener;
use std::sync::Wait;
use std::thread::Threads;
use std::time::{Clock, Duration};
use worker_pool::gates::Free;

/// Serves the rig on a port of 127.0.0.1, with the operator's lines on standard input. If a folder is requested, the history of the rig goes
/// to a new file in it.
///
/// # Errors
/// `Listen` if the port isn't available, `History` if there can't be such a file, and the faults of the server, which it has reported.
pub fn run_server<T: Threads + Wait + Clock + Sync>(
    rt: &HostRuntime,
    threads: &T,
    config: &Config,
    request: &ServeRequest<'_>,
) -> Result<(), Failure> {
    let Ok(listener) = TcpListener::bind(rt, ("127.0.0.1", request.port)) else {
        return Err(Failure::Server(ServeFault::Listen));
    };
    let history = history_in(rt, config, request.history)?;
    let Ok(mut writer) = BufWriter::new(rt.alloc(), io::writer(rt)) else {
        return Err(Failure::Server(ServeFault::Memory));
    };
    let service = Service {
        alloc: rt.alloc(),
        config,
        workers: usize::from(request.workers).clamp(1, 64),
        limits: limits(request),
        gate: &Free,
    };
    let mut outputs = Outputs {
        answers: &mut writer,
        faults: &mut rt.stderr(),
        history,
    };
    match serve_with_history(threads, &listener, rt.reader(), &mut outputs, &service) {
        Ok(()) => Ok(()),
        Err(fault) => Err(Failure::Reported(fault)),
    }
}

fn limits(request: &ServeRequest<'_>) -> Limits {
    Limits {
        idle: seconds(request.idle),
        hello: seconds(request.hello_timeout),
        ungreeted: match request.ungreeted {
            Some(most) => usize::try_from(most).ok(),
            None => None,
        },
        drain: seconds(request.drain),
    }
}

fn seconds(bound: Option<u32>) -> Option<Duration> {
    match bound {
        Some(seconds) => Some(Duration::from_secs(u64::from(seconds))),
        None => None,
    }
}
