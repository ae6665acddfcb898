//! Halting: the server takes no further connection, and waits for the open ones, or ends them at a second halt.

use crate::connections::Shared;
use crate::deadlines::Deadline;
use locked_book::naming::Naming;
use rig_model::operator_lines::{OperatorLine, operator_line};
use std::alloc::Global;
use std::io::Read;
use std::net::{Shutdown, TcpStream};
use std::sync::atomic::{AtomicU64, Ordering};
use std::sync::{Arc, CondvarTimeouts, Wait};
use std::thread::Threads;
use std::time::{Clock, Duration};
use std::{io, thread};
use text_lines::lines::{Line, Lines};

// The time in milliseconds between two checks for a second halt.
const PAUSE: u64 = 20;

/// Whether the operator said a second `halt`.
#[derive(Drop)]
pub(crate) struct SecondHalt {
    said: Arc<AtomicU64, Global>,
}

impl SecondHalt {
    fn is_said(&self) -> bool {
        self.said.load(Ordering::SeqCst) == 1
    }
}

/// Looks for a second halt in the rest of the operator's lines, in a separate thread. `None` if it can't be started.
///
/// Nobody waits for the thread, because the operator's next line may never come.
pub(crate) fn look_for_halt<R: Threads, I: Read + Drop + Send + 'static>(
    rt: &R,
    alloc: Global,
    lines: Lines,
    reader: I,
) -> Option<SecondHalt> {
    let said = Arc::new(alloc, AtomicU64::new(0)).ok()?;
    let theirs = Arc::try_clone(&said).ok()?;
    let looker = thread::spawn(rt, move || read_to_halt(alloc, lines, reader, &theirs));
    match looker {
        Ok(_thread) => Some(SecondHalt { said }),
        Err(_) => None,
    }
}

// Reads until a line is `halt`, and notes it in `said`.
fn read_to_halt<I: Read + Drop>(alloc: Global, lines: Lines, reader: I, said: &AtomicU64) {
    let mut lines = lines;
    let mut reader = reader;
    let mut nowhere = io::sink();
    for _line in 0..u64::MAX {
        match lines.next_line(&mut reader, &mut nowhere) {
            Ok(Line::Whole(line)) => {
                if let OperatorLine::Halt = operator_line(line.as_str()) {
                    said.store(1, Ordering::SeqCst);
                    return;
                }
            }
            Ok(Line::Bad) | Ok(Line::End) | Err(_) => return,
        }
    }
}

/// Takes no further connection. Shuts down the listener of this handle, which wakes the thread that accepts.
pub(crate) fn stop_listening<N: Naming, R: Wait, D>(
    rt: &R,
    shared: &Shared<'_, N, D>,
    listener: &TcpStream,
) {
    shared.register.lock(rt).close();
    let _ = listener.shutdown(Shutdown::Both);
}

/// Waits until no connection is open. A second halt, or the end of the time to drain, ends all that are open.
pub(crate) fn wait_for_all<N: Naming, R: Wait + Clock, D>(
    rt: &R,
    shared: &Shared<'_, N, D>,
    second: Option<&SecondHalt>,
) {
    let drained = Deadline::from_now(rt, shared.limits.drain);
    let mut register = shared.register.lock(rt);
    for _ in rt.forever() {
        if register.is_empty() {
            return;
        }
        let is_halted_again = match second {
            Some(second) => second.is_said(),
            None => false,
        };
        if is_halted_again || drained.has_come(rt) {
            register.end_all();
        }
        register = shared
            .left
            .wait_timeout(rt, register, Duration::from_millis(PAUSE))
            .0;
    }
}
