//! A trace: the last records, in a ring.

ghost use Rattle.std.specs.Prelude.{◌≡◌, ◌<◌, ◌≤◌, ◌↔◌, ◌+◌, ◌++◌, [], length, reverse, slice_get, IfOk, IsErr, IsTrue, OnOk};
ghost use Rattle.circular_buffer.specs.Buffer.{buffer};
ghost use Rattle.tenant_trace.specs.cited.Noted.{noted, pushed};

use crate::records::{Happening, Record};
use circular_buffer::HeapCircularBuffer;
use giotto_tasks::lists::List;
use giotto_tasks::same::Same;
use std::alloc::{AllocError, Global};
use std::marker::Model;

/// The last records of a tenant. Contracts see it as the most records that it may keep, and the records, the newest first.
#[derive(Drop)]
pub struct Trace {
    alloc: Global,
    ring: HeapCircularBuffer<Record, Global>,
}

impl Model for Trace {
    ghost use Rattle.std.specs.Prelude.{◌≤◌, length, reverse};
    ghost use Rattle.tenant_trace.specs.Trace.{LastRecords};

    ghost Value = { LastRecords };

    ghost view = { λ t. record { most = t.ring.capacity; records = reverse t.ring.items } };

    ghost invariant = { λ t. length t.ring.items ≤ t.ring.capacity };
}

impl Trace {
    /// A trace without records that keeps at most `most` records.
    ///
    /// # Errors
    /// Out of memory.
    pub fn new(alloc: Global, most: usize) -> Result<Trace, AllocError>
        ensures { IfOk result (λ trace. trace ≡ record { most = most; records = [] }) }
    {
        let ring = HeapCircularBuffer::with_capacity(alloc, most)?;
        Ok(Trace { alloc, ring })
    }

    /// Adds a record. A full trace drops its oldest record for it. Takes no memory.
    pub fn push(&mut self, latest: Record)
        ensures { self.new ≡ pushed latest self.old }
    {
        let _oldest = self.ring.push_back(latest);
    }

    /// Adds the record of what happens at this tick. Takes no memory.
    pub fn note(&mut self, tick: u64, happening: Happening)
        ensures { self.new ≡ pushed (record { tick = tick; happening = happening }) self.old }
    {
        self.push(Record { tick, happening });
    }

    /// The records, the oldest first.
    ///
    /// # Errors
    /// Out of memory. Never if there are no records.
    pub fn list(&self) -> Result<List<Record>, AllocError>
        ensures records { IfOk result (λ records. records ≡ reverse self.now.records) }
        ensures memory { IsErr result → 0 < length self.now.records }
    {
        let (older, newer) = self.ring.as_slices();
        let mut records = Vec::new(self.alloc);
        add_copies(&mut records, older)?;
        add_copies(&mut records, newer)?;
        Ok(List::from_vec(records))
    }

    /// Whether both traces have the same records, however many each keeps. Takes no memory.
    #[tactic(auto, using(crate::proofs::SameRecords::same_reversed))]
    pub fn has_same_records(&self, other: &Trace) -> bool
        ensures { IsTrue result ↔ self.now.records ≡ other.now.records }
    {
        same_records(&self.ring, &other.ring)
    }

    /// An equal trace.
    ///
    /// # Errors
    /// Out of memory.
    pub fn copy(&self) -> Result<Trace, AllocError>
        ensures { IfOk result (λ trace. trace ≡ self.now) }
    {
        let mut ring = HeapCircularBuffer::with_capacity(self.alloc, self.ring.capacity())?;
        let (front, back) = self.ring.as_slices();
        put_copies(&mut ring, front);
        put_copies(&mut ring, back);
        Ok(Trace {
            alloc: self.alloc,
            ring,
        })
    }
}

// Whether both rings have equal records, in the same order, wherever these lie in them.
fn same_records(
    ones: &HeapCircularBuffer<Record, Global>,
    others: &HeapCircularBuffer<Record, Global>,
) -> bool
    ensures { IsTrue result ↔ ones.now.items ≡ others.now.items }
{
    if ones.len() != others.len() {
        return false;
    }
    for i in 0..ones.len() {
        if !is_same_at(ones, others, i) {
            return false;
        }
    }
    true
}

// Whether both rings have equal records at this place.
fn is_same_at(
    ones: &HeapCircularBuffer<Record, Global>,
    others: &HeapCircularBuffer<Record, Global>,
    i: usize,
) -> bool
    requires one { i < length ones.now.items }
    requires other { i < length others.now.items }
    ensures { IsTrue result ↔ slice_get ones.now.items i ≡ slice_get others.now.items i }
{
    let (Some(one), Some(other)) = (ones.get(i), others.get(i)) else {
        unreachable!()
    };
    one.is_same(other)
}

// Puts a copy of each of these records into a ring that has space for them.
fn put_copies(ring: &mut HeapCircularBuffer<Record, Global>, records: &[Record])
    requires { length ring.old.items + length records.now ≤ ring.old.capacity }
    ensures { ring.new ≡ buffer (ring.old.items ++ records.now) ring.old.capacity }
{
    for record in records {
        let Ok(()) = ring.try_push_back(record.copy()) else {
            unreachable!()
        };
    }
}

// Appends a copy of each of these records.
fn add_copies(records: &mut Vec<Record>, others: &[Record]) -> Result<(), AllocError>
    ensures added { OnOk result (records.new.items ≡ records.old.items ++ others.now) }
    ensures memory { IsErr result → 0 < length others.now }
{
    for record in others {
        records.push(record.copy())?;
    }
    Ok(())
}
