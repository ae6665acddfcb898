//! The table of the active tasks of all tenants of a host, with the results that came.

ghost use Rattle.std.specs.Prelude.{◌≡◌, ◌<◌, ◌≤◌, ◌+◌, ◌&&◌, [], length, not, Some, None, IsOk, IfOk, IfSome, IfNone, IsSomeAnd, IsTrue, OnOk, ◌↔◌, true, false, if◌then◌else◌, find, option_copied, vec_capacity};
ghost use Rattle.std.specs.Bool.{OnTrue};
ghost use Rattle.std.specs.List.{list_all};
ghost use Rattle.giotto_tasks.specs.Sound.{IsSound};
ghost use Rattle.slab.specs.Slab.{get, values};
ghost use Rattle.tenant_jobs.specs.Finished.{entry_in, result_in, has_result};
ghost use Rattle.tenant_jobs.specs.cited.Finished.{NamesDiffer, computed, entry_put, is_complete, is_entered, is_included, result_count, result_of};
ghost use Rattle.rig_model.specs.Jobs.{same_job};
ghost use Rattle.rig_model.specs.declared.jobs.JobId.{JobId};

use crate::entries::Entry;
use crate::jobs::{Done, JobId, JobResult, Key};
use giotto_tasks::bodies::Body;
use giotto_tasks::values::Values;
use slab::Slab;
use std::alloc::{AllocError, Global};
use std::marker::Model;

/// The active tasks of all tenants of a host, with the results that came. An entry is found by the name of its job. No two
/// entries have the same name.
#[derive(Drop)]
pub struct Finished {
    entries: Slab<Entry>,
    results: usize,
    // Spare entries. The slab has capacity for all of them, and this vector has capacity for all entries of the slab as well.
    spare: Vec<Entry>,
    alloc: Global,
}

impl Model for Finished {
    ghost use Rattle.std.specs.Prelude.{◌≡◌, ◌≤◌, ◌+◌, length, count_by, is_some, vec_capacity};
    ghost use Rattle.slab.specs.Slab.{values, slab_len};
    ghost use Rattle.tenant_jobs.specs.Finished.{TaskTable};
    ghost use Rattle.tenant_jobs.specs.cited.Finished.{NamesDiffer};

    ghost Value = { TaskTable };

    ghost view = { λ f. record { entries = values f.entries; room = length f.spare.items } };

    ghost invariant = { λ f. NamesDiffer (values f.entries)
        × (f.results ≡ count_by (λ e. is_some e.result) (values f.entries))
        × (slab_len f.entries + length f.spare.items ≤ f.entries.capacity)
        × (slab_len f.entries + length f.spare.items ≤ vec_capacity f.spare) };
}

impl Finished {
    /// An empty table. Takes no memory.
    pub fn new(alloc: Global) -> Finished
        ensures { result ≡ record { entries = []; room = 0 } }
    {
        Finished {
            entries: Slab::new(alloc),
            results: 0,
            spare: Vec::new(alloc),
            alloc,
        }
    }

    /// Reserves capacity for this many entries in total. The entries are unchanged, also after an error.
    ///
    /// # Errors
    /// Out of memory. Never if there is that much capacity already.
    pub fn room(&mut self, entries: usize) -> Result<(), AllocError>
        ensures room { OnOk result (entries ≤ length self.new.entries + self.new.room) }
        ensures entries { self.new.entries ≡ self.old.entries }
        ensures never_less { self.old.room ≤ self.new.room }
        ensures never_refused { entries ≤ length self.old.entries + self.old.room → IsOk result }
        ensures had_room { entries ≤ length self.old.entries + self.old.room → self.new ≡ self.old }
    {
        let spare = self.spare.len();
        if entries <= self.entries.len() + spare {
            return Ok(());
        }
        let more = entries - self.entries.len();
        self.entries.reserve(more)?;
        self.spare.reserve(entries - spare)?;
        add_spare(self.alloc, more, &mut self.spare)
    }

    /// Adds an entry of this name, without a result, and returns its key. Takes no memory.
    #[inline(always)]
    pub fn enter_task(&mut self, id: JobId) -> Key
        requires room { 0 < self.old.room }
        requires new { is_entered self.old.entries id ≡ false }
        ensures entries { (j : JobId) → entry_in self.new.entries j
            ≡ entry_put (same_job id j) j None self.old.entries }
        ensures results { result_count self.new.entries ≡ result_count self.old.entries }
        ensures count { length self.new.entries ≡ length self.old.entries + 1 }
        ensures room { self.new.room + 1 ≡ self.old.room }
    {
        let Some(mut entry) = self.spare.pop() else {
            unreachable!()
        };
        entry.set_name(id);
        Key::new(self.entries.insert_reserved(entry))
    }

    /// Puts the result into its entry, which has none yet. Takes no memory.
    pub fn add(&mut self, done: Done)
        requires entered { is_entered self.old.entries done.id ≡ true }
        requires none { has_result self.old.entries done.id ≡ false }
        ensures entries { (j : JobId) → entry_in self.new.entries j
            ≡ entry_put (same_job done.id j) j (Some (result_of done)) self.old.entries }
        ensures results { result_count self.new.entries ≡ result_count self.old.entries + 1 }
        ensures count { length self.new.entries ≡ length self.old.entries }
        ensures room { self.new.room ≡ self.old.room }
    {
        // There are fewer results than entries, so the count can grow by one.
        let _entries = self.entries.len();
        let Some(key) = entry_key(&self.entries, done.id(), done.job().key()) else {
            unreachable!()
        };
        self.entries[key].set_result(done.outputs(), done.states());
        self.results += 1;
    }

    /// Computes the job of this name and puts the result into its entry, if none came yet. Returns whether none had come. The key
    /// is only a hint where to look first. Takes no memory.
    #[inline(always)]
    pub fn compute(
        &mut self,
        id: &JobId,
        key: &Key,
        body: &Body,
        inputs: &Values,
        states: &Values,
    ) -> bool
        requires inputs { length inputs.now ≡ length body.now.inputs }
        requires states { length states.now ≡ length body.now.states }
        requires sound { IsSound body.now }
        requires entered { is_entered self.old.entries id.now ≡ true }
        ensures computed { result ≡ not (has_result self.old.entries id.now) }
        ensures entries { (j : JobId) → entry_in self.new.entries j
            ≡ entry_put (result && same_job id.now j) j (Some (computed body.now inputs.now states.now)) self.old.entries }
        ensures count { length self.new.entries ≡ length self.old.entries }
        ensures room { self.new.room ≡ self.old.room }
    {
        // There are fewer results than entries, so the count can grow by one.
        let _entries = self.entries.len();
        let Some(place) = entry_key(&self.entries, id, key) else {
            unreachable!()
        };
        let entry = &mut self.entries[place];
        if entry.has_result() {
            return false;
        }
        entry.compute(body, inputs, states);
        self.results += 1;
        true
    }

    /// Removes the entry of this name, if there is one. The key is only a hint where to look first.
    #[inline(always)]
    pub fn remove(&mut self, id: &JobId, key: &Key)
        ensures entries { (j : JobId) → entry_in self.new.entries j ≡ (if same_job id.now j then None else entry_in self.old.entries j) }
        ensures results { result_count self.new.entries + (if has_result self.old.entries id.now then 1 else 0) ≡ result_count self.old.entries }
        ensures count { length self.new.entries + (if is_entered self.old.entries id.now then 1 else 0) ≡ length self.old.entries }
        ensures room { self.new.room ≡ self.old.room + (if is_entered self.old.entries id.now then 1 else 0) }
    {
        let Some(key) = entry_key(&self.entries, id, key) else {
            return;
        };
        let entry = self.entries.remove(key);
        self.results -= usize::from(entry.has_result());
        self.spare.push_reserved(entry);
    }

    /// Whether the result with the name of `done` came.
    pub fn has(&self, done: &Done) -> bool
        ensures { result ≡ has_result self.now.entries done.now.id }
    {
        self.result(done.id(), done.job().key()).is_some()
    }

    /// The result of this name, if it came. The key is only a hint where to look first.
    #[inline(always)]
    pub fn result(&self, id: &JobId, key: &Key) -> Option<&JobResult>
        ensures { option_copied result ≡ result_in self.now.entries id.now }
    {
        if let Some(entry) = self.entries.get(key.place()) {
            if entry.is_named(id) {
                return entry.result();
            }
        }
        // Passes a copy. A reference would force the caller to keep the name in memory.
        self.searched_result(id.copy())
    }

    // The result of this name, if it came. Searches the whole table.
    #[cold]
    #[inline(never)]
    fn searched_result(&self, id: JobId) -> Option<&JobResult>
        ensures { option_copied result ≡ result_in self.now.entries id }
    {
        let key = searched_key(&self.entries, id)?;
        self.entries[key].result()
    }

    /// Whether the same results came in both tables, by the names of their jobs. Takes no memory. Costs as much as both tables have
    /// entries; if their entries don't have the same keys, the product of the two numbers.
    pub fn has_same_results(&self, other: &Finished) -> bool
        ensures { IsTrue result ↔ ((j : JobId) → has_result self.now.entries j ≡ has_result other.now.entries j) }
    {
        self.known();
        other.known();
        self.has_results_of(other) && other.has_results_of(self)
    }

    // Whether each result of the other table came in this one.
    fn has_results_of(&self, other: &Finished) -> bool
        ensures { result ≡ list_all (is_included self.now.entries) other.now.entries }
    {
        for (key, entry) in other.entries.iter() {
            if !self.includes(key, entry) {
                return false;
            }
        }
        true
    }

    // Whether the result of the entry, if it came, came in this table too. The key is where to look first.
    fn includes(&self, key: usize, entry: &Entry) -> bool
        ensures { result ≡ is_included self.now.entries entry.now }
    {
        !entry.has_result() || self.result(entry.id(), &Key::new(key)).is_some()
    }

    /// How many entries there are.
    pub fn entry_count(&self) -> usize
        ensures { result ≡ length self.now.entries }
    {
        self.entries.len()
    }

    /// How many results came.
    pub fn len(&self) -> usize
        ensures { result ≡ result_count self.now.entries }
    {
        self.results
    }

    /// Whether every entry has its result.
    pub fn is_complete(&self) -> bool
        ensures exact { result ≡ is_complete self.now.entries }
        ensures each { OnTrue result ((j : JobId) → has_result self.now.entries j ≡ is_entered self.now.entries j) }
    {
        self.results == self.entries.len()
    }

    /// Makes the invariants of the type available to a proof. Does nothing at run time.
    #[inline(always)]
    pub fn known(&self)
        ensures differ { NamesDiffer self.now.entries }
        ensures results { result_count self.now.entries ≤ length self.now.entries }
    {
        let _entries = self.entries.len();
    }

    /// Makes an equal table.
    ///
    /// # Errors
    /// Out of memory.
    pub fn copy(&self) -> Result<Finished, AllocError>
        ensures { IfOk result (λ table. table ≡ self.now) }
    {
        let room = self.spare.len();
        let mut entries = self.entries.clone()?;
        entries.reserve(room)?;
        let mut spare = Vec::with_capacity(self.alloc, self.entries.len() + room)?;
        add_spare(self.alloc, room, &mut spare)?;
        Ok(Finished {
            entries,
            results: self.results,
            spare,
            alloc: self.alloc,
        })
    }
}

// Adds spare entries until there are `count`.
fn add_spare(alloc: Global, count: usize, spare: &mut Vec<Entry>) -> Result<(), AllocError>
    requires fewer { length spare.old.items ≤ count }
    requires room { count ≤ vec_capacity spare.old }
    ensures all { OnOk result (length spare.new.items ≡ count) }
    ensures kept { length spare.old.items ≤ length spare.new.items }
    ensures bound { length spare.new.items ≤ count }
    ensures capacity { vec_capacity spare.new ≡ vec_capacity spare.old }
{
    for _entry in spare.len()..count {
        spare.push_reserved(Entry::unused(alloc)?);
    }
    Ok(())
}

// The key of the entry of this name: the hint if the entry there has this name, else the result of a search.
#[inline(always)]
fn entry_key(entries: &Slab<Entry>, id: &JobId, hint: &Key) -> Option<usize>
    ensures found { IfSome result (λ key. IsSomeAnd (get entries.now key) (λ e. same_job e.id id.now ≡ true)) }
    ensures absent { IfNone result (find (λ e. same_job e.id id.now) (values entries.now) ≡ None) }
{
    let key = hint.place();
    if let Some(entry) = entries.get(key) {
        if entry.is_named(id) {
            return Some(key);
        }
    }
    searched_key(entries, id.copy())
}

// The key of the entry of this name. Searches the whole table.
#[cold]
#[inline(never)]
fn searched_key(entries: &Slab<Entry>, id: JobId) -> Option<usize>
    ensures found { IfSome result (λ key. IsSomeAnd (get entries.now key) (λ e. same_job e.id id ≡ true)) }
    ensures absent { IfNone result (find (λ e. same_job e.id id) (values entries.now) ≡ None) }
{
    for (key, entry) in entries.iter() {
        if entry.is_named(&id) {
            return Some(key);
        }
    }
    None
}
