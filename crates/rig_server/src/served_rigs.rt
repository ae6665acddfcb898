//! The rig that a server's operator speaks to: a desk and its workers.

use crate::connections::Shared;
use crate::histories::History;
use crate::replies::{HISTORY_WARNING, say, warn_of_seats};
use host_core::hosts::TickFault;
use locked_book::books::MOST_SEATS;
use locked_book::desks::Desk;
use locked_book::naming::Naming;
use rig_operator::rigs::{ArchiveFault, Rig};
use std::alloc::AllocError;
use std::io::Write;
use std::sync::Wait;
use std::sync::atomic::Ordering;
use tenant_jobs::jobs::{Done, Jobs};
use worker_pool::pools::Pool;

// How many seats are given when the operator is warned: nine tenths of all.
const WARNED_SEATS: usize = MOST_SEATS - MOST_SEATS / 10;

/// What the threads of a server work on: the connections with their desk, and its history, if it is kept.
#[derive(Drop)]
pub(crate) struct Served<'t, 'a, N: Naming, F> {
    pub(crate) shared: &'t Shared<'a, N, Desk<N>>,
    pub(crate) history: Option<&'t History<'a, N, F>>,
}

/// A desk and its history, the workers that run its jobs, and where the operator is warned that few seats are left, or that the history can't
/// be written.
#[derive(Drop)]
pub(crate) struct ServedRig<'p, 't, 'a, 'w, N: Naming, F, E> {
    served: &'p Served<'t, 'a, N, F>,
    pool: &'p Pool,
    warnings: &'w mut E,
    is_warned_of_seats: bool,
    is_warned_of_history: bool,
}

impl<'p, 't, 'a, 'w, N: Naming, F: Write, E: Write> ServedRig<'p, 't, 'a, 'w, N, F, E> {
    /// Creates the rig of this desk with these workers.
    pub(crate) fn new(
        served: &'p Served<'t, 'a, N, F>,
        pool: &'p Pool,
        warnings: &'w mut E,
    ) -> ServedRig<'p, 't, 'a, 'w, N, F, E> {
        ServedRig {
            served,
            pool,
            warnings,
            is_warned_of_seats: false,
            is_warned_of_history: false,
        }
    }

    // Warns the operator of seats, once. If the warning can't be written, it is dropped.
    fn warn_of_seats(&mut self) {
        let given = self.served.shared.given.load(Ordering::SeqCst);
        if self.is_warned_of_seats || given < WARNED_SEATS {
            return;
        }
        self.is_warned_of_seats = true;
        let _ = warn_of_seats(self.served.shared.alloc, given, &mut *self.warnings);
    }

    // Warns the operator when the history can't be written, and again if that happens later.
    fn warn_of_history(&mut self) {
        let is_behind = match self.served.history {
            Some(history) => history.is_behind(),
            None => false,
        };
        if is_behind && !self.is_warned_of_history {
            let _ = say(&mut *self.warnings, HISTORY_WARNING);
        }
        self.is_warned_of_history = is_behind;
    }
}

impl<'p, 't, 'a, 'w, N: Naming, F: Write, E: Write> Rig for ServedRig<'p, 't, 'a, 'w, N, F, E> {
    ghost use Rattle.std.specs.Prelude.{None};

    ghost asked = { λ _. None };

    fn tick<R: Wait>(&mut self, rt: &R, frame: &[i64]) -> Result<Jobs, TickFault> {
        self.warn_of_seats();
        self.warn_of_history();
        let (jobs, _place) = self.served.shared.desk.tick(rt, frame)?;
        Ok(jobs)
    }

    fn send<R: Wait>(&mut self, rt: &R, jobs: Jobs) -> Jobs {
        self.pool.send(rt, jobs)
    }

    fn done<R: Wait>(&mut self, rt: &R, done: Done) {
        let _counted = self.served.shared.desk.done(rt, done);
    }

    fn lines<R: Wait>(&mut self, rt: &R) -> Result<Vec<i64>, AllocError> {
        self.served.shared.desk.lines(rt)
    }

    fn archive<R: Wait>(&mut self, rt: &R) -> Result<usize, ArchiveFault> {
        if let Some(history) = self.served.history {
            return history.archive(rt);
        }
        let archive = self.served.shared.desk.archive(rt)?;
        Ok(archive.log().len())
    }

    fn settle<R: Wait>(&mut self, rt: &R) {
        self.served.shared.desk.settle(rt);
    }
}
