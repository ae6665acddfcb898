//! The history of a server: what its desk logs goes to a file, piece by piece.

use crate::pieces::Pieces;
use crate::register::Register;
use locked_book::desks::Desk;
use locked_book::naming::Naming;
use rig_model::config::Config;
use rig_operator::rigs::ArchiveFault;
use std::alloc::Global;
use std::io::Write;
use std::sync::atomic::{AtomicU64, Ordering};
use std::sync::{Condvar, CondvarTimeouts, Mutex, Wait};
use std::time::{Clock, Duration};

// How many seconds pass between two pieces.
const SECONDS: u64 = 1;

// The states of a history: all was written the last time; something could not be written; it has ended.
const WRITTEN: u64 = 0;

const BEHIND: u64 = 1;

const ENDED: u64 = 2;

/// The log of a desk, on its way to a file.
#[derive(Drop)]
pub(crate) struct History<'a, N: Naming, F> {
    desk: &'a Desk<N>,
    pieces: Mutex<Pieces<'a, N, F>>,
    // `WRITTEN`, `BEHIND` or `ENDED`; set while the pieces are locked
    state: AtomicU64,
    // notified of the end
    ended: Condvar,
}

impl<'a, N: Naming, F: Write> History<'a, N, F> {
    /// Creates the history of a desk of which nothing is in the file yet. `tick` is the number of its first instant.
    pub(crate) fn new(
        alloc: Global,
        config: &'a Config,
        desk: &'a Desk<N>,
        tick: u64,
        file: F,
    ) -> History<'a, N, F> {
        History {
            desk,
            pieces: Mutex::new(Pieces::new(alloc, config, tick, file)),
            state: AtomicU64::new(WRITTEN),
            ended: Condvar::new(),
        }
    }

    /// Writes what was left from before, and what the desk has logged since the last time. Returns how many entries the desk had logged.
    ///
    /// What can't be written is kept, and comes first the next time.
    ///
    /// # Errors
    /// `Memory`: the desk's log is as before then. `History` if something can't be written.
    pub(crate) fn archive<R: Wait>(&self, rt: &R) -> Result<usize, ArchiveFault> {
        let mut pieces = self.pieces.lock(rt);
        let answer = pieces.archive(rt, self.desk);
        self.note(&pieces);
        answer
    }

    /// Writes what the desk logs, once a second, until the end. Nothing more is taken from the desk while something is left to write.
    ///
    /// Each pass that came back is released once the file has all its calls, if they are those that the desk has logged.
    pub(crate) fn keep<R: Wait + Clock>(&self, rt: &R, register: &Mutex<Register<N>>) {
        let mut pieces = self.pieces.lock(rt);
        for _ in rt.forever() {
            if self.state.load(Ordering::SeqCst) == ENDED {
                return;
            }
            let second = Duration::from_secs(SECONDS);
            pieces = self.ended.wait_timeout(rt, pieces, second).0;
            if pieces.write() {
                let _answer = pieces.archive(rt, self.desk);
                pieces.release(&mut register.lock(rt));
            }
            self.note(&pieces);
        }
    }

    /// Whether something could not be written the last time. After the end it isn't. Doesn't wait.
    pub(crate) fn is_behind(&self) -> bool {
        self.state.load(Ordering::SeqCst) == BEHIND
    }

    /// Writes the rest of what the desk has logged, and releases passes as `keep` does. Returns whether all of it is in the file.
    pub(crate) fn end<R: Wait>(&self, rt: &R, register: &Mutex<Register<N>>) -> bool {
        let mut pieces = self.pieces.lock(rt);
        let is_taken = pieces.take(rt, self.desk).is_ok();
        let is_whole = pieces.write();
        pieces.release(&mut register.lock(rt));
        self.note(&pieces);
        self.state.store(ENDED, Ordering::SeqCst);
        self.ended.notify_all();
        is_taken && is_whole
    }

    /// Returns what the file doesn't have, and the calls that no pass was compared with.
    pub(crate) fn into_pieces(self) -> Pieces<'a, N, F>
    where
        F: Drop,
    {
        self.pieces.into_inner()
    }

    // Notes whether something could not be written, unless the history has ended.
    fn note(&self, pieces: &Pieces<'a, N, F>) {
        if self.state.load(Ordering::SeqCst) == ENDED {
            return;
        }
        let state = if pieces.is_written() { WRITTEN } else { BEHIND };
        self.state.store(state, Ordering::SeqCst);
    }
}
