//! What a log begins with.

ghost use Rattle.std.specs.Prelude.{◌≡◌, ◌↔◌, ℕ, map, option_copied, slice_index_or, IfOk, IsTrue};
ghost use Rattle.locked_book.specs.Books.{IsSameBase, beginning, calls_before};
ghost use Rattle.locked_book.specs.inner.Books.{IsBegun};
ghost use Rattle.rig_model.specs.Base.{Setting, new_base};
ghost use Rattle.host_core.specs.HostStanding.{Stands};

use crate::seats::Seat;
use host_core::hosts::Host;
use rig_model::config::Config;
use rig_model::logged::SeatId;
use std::alloc::{AllocError, Global};
use std::marker::Model;

/// The host with which a log begins, how many entries there were before, and how many calls each seat had among them.
#[derive(Drop)]
pub(crate) struct Base {
    pub(crate) host: Host,
    entries_before: u128,
    calls: Vec<u64>,
}

impl Model for Base {
    ghost use Rattle.locked_book.specs.Books.{BaseValue};
    ghost use Rattle.std.specs.Coded.{codes};
    ghost use Rattle.rig_model.specs.text.cited.ProgramCodes.{program_code};

    ghost Value = { BaseValue };

    ghost coded = { Prim.hlevel (codes, program_code) };

    ghost view = { λ b. record { host = b.host; entries_before = b.entries_before; calls = b.calls.items } };
}

impl Base {
    /// The base of a new host.
    ///
    /// # Errors
    /// Out of memory.
    pub(crate) fn new(alloc: Global, config: &Config, first_tick: u64) -> Result<Base, AllocError>
        ensures base { IfOk result (λ b. b ≡ beginning config.now first_tick) }
        ensures begins { IfOk result (λ b. (setting : Setting) → setting.config ≡ config.now → Stands setting b.host (new_base config.now first_tick)) }
    {
        Ok(Base {
            host: Host::new(alloc, config, first_tick)?,
            entries_before: 0,
            calls: Vec::new(alloc),
        })
    }

    /// The base of this host, with this number of entries before it and the calls of these seats.
    ///
    /// # Errors
    /// Out of memory, or a share of a program is refused.
    pub(crate) fn after(
        alloc: Global,
        host: &Host,
        entries_before: u128,
        seats: &[Seat],
    ) -> Result<Base, AllocError>
        ensures { IfOk result (λ b. b ≡ record { host = host.now; entries_before = entries_before; calls = map (λ s. s.calls) seats.now }) }
    {
        let calls = calls_of(alloc, seats)?;
        Ok(Base {
            host: host.copy()?,
            entries_before,
            calls,
        })
    }

    /// Whether a piece that begins with this base begins where the one before it ended, or, if there is none before it, at the base of a
    /// new host: before that there were no entries.
    pub(crate) fn begins_at(&self, end: Option<&Base>) -> bool
        ensures { IsTrue result ↔ IsBegun (option_copied end.entry) self.now }
    {
        match end {
            None => self.entries_before == 0,
            Some(base) => base.is_same(self),
        }
    }

    /// Whether both bases are the same: their hosts, the number of entries before them, and each seat's number of calls. Takes no
    /// memory.
    pub(crate) fn is_same(&self, other: &Base) -> bool
        ensures { IsTrue result ↔ IsSameBase self.now other.now }
    {
        if self.entries_before != other.entries_before {
            return false;
        }
        if !has_same_calls(self.calls.as_slice(), other.calls.as_slice()) {
            return false;
        }
        self.host.is_same(&other.host)
    }

    /// How many entries there were before.
    pub(crate) fn entries_before(&self) -> u128
        ensures { result ≡ self.now.entries_before }
    {
        self.entries_before
    }

    /// How many calls the seat had among them.
    pub(crate) fn calls_before(&self, seat: SeatId) -> u64
        ensures { result ≡ calls_before self.now seat }
    {
        calls_at(self.calls.as_slice(), seat)
    }
}

// How many calls each seat has.
fn calls_of(alloc: Global, seats: &[Seat]) -> Result<Vec<u64>, AllocError>
    ensures { IfOk result (λ calls. calls.items ≡ map (λ s. s.calls) seats.now) }
{
    let mut calls = Vec::new(alloc);
    for seat in seats {
        calls.push(seat.calls)?;
    }
    Ok(calls)
}

// Whether each seat has as many calls in both lists. A seat that isn't in a list has none.
fn has_same_calls(ones: &[u64], others: &[u64]) -> bool
    ensures { IsTrue result ↔ ((seat : ℕ) → slice_index_or ones.now seat 0 ≡ slice_index_or others.now seat 0) }
{
    for seat in 0..ones.len().max(others.len()) {
        if calls_at(ones, seat) != calls_at(others, seat) {
            return false;
        }
    }
    true
}

fn calls_at(calls: &[u64], seat: SeatId) -> u64
    ensures { result ≡ slice_index_or calls.now seat 0 }
{
    match calls.get(seat) {
        None => 0,
        Some(calls) => *calls,
    }
}
