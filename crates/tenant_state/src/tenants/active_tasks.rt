//! Active tasks, in entries that are reused.

ghost use Rattle.std.specs.Prelude.{◌≡◌, ◌≤◌, ◌+◌, [], length, IfOk, OnOk};

use crate::tenants::Active;
use giotto_tasks::values::Values;
use std::alloc::{AllocError, Global};
use std::marker::Model;
use tenant_jobs::jobs::Key;

/// The active tasks of a tenant, in the order of their release. Also the tasks that ended since, and spare entries.
#[derive(Drop)]
pub(crate) struct ActiveTasks {
    /// First the entries of the active tasks, then those of the tasks that ended, then spare ones.
    pub(crate) entries: Vec<Active>,
    /// How many tasks are active.
    pub(crate) count: usize,
    /// How many tasks ended and still have their entries in the table of active tasks.
    pub(crate) ended: usize,
}

impl Model for ActiveTasks {
    ghost use Rattle.std.specs.Prelude.{◌≤◌, ◌+◌, ◌-◌, length, take, drop};
    ghost use Rattle.tenant_state.specs.ActiveTasks.{TaskList};

    ghost Value = { TaskList };

    ghost view = { λ t. record { items = take t.count t.entries.items; ended = take t.ended (drop t.count t.entries.items); room = length t.entries.items - t.count } };

    ghost invariant = { λ t. t.count + t.ended ≤ length t.entries.items };
}

impl ActiveTasks {
    /// An empty list without capacity.
    pub(crate) fn new(alloc: Global) -> ActiveTasks
        ensures { result ≡ record { items = []; ended = []; room = 0 } }
    {
        ActiveTasks {
            entries: Vec::new(alloc),
            count: 0,
            ended: 0,
        }
    }

    /// Makes an equal list.
    ///
    /// # Errors
    /// Out of memory.
    pub(crate) fn copy(&self) -> Result<ActiveTasks, AllocError>
        ensures { IfOk result (λ tasks. tasks ≡ self.now) }
    {
        Ok(ActiveTasks {
            entries: self.entries.clone()?,
            count: self.count,
            ended: self.ended,
        })
    }

    /// The active tasks.
    pub(crate) fn as_slice(&self) -> &[Active]
        ensures { result.now ≡ self.now.items }
    {
        &self.entries[..self.count]
    }

    /// How many tasks are active.
    pub(crate) fn len(&self) -> usize
        ensures { result ≡ length self.now.items }
    {
        self.count
    }

    /// The tasks that ended.
    pub(crate) fn ended(&self) -> &[Active]
        ensures { result.now ≡ self.now.ended }
    {
        &self.entries[self.count..self.count + self.ended]
    }

    /// Ends all active tasks, and forgets those that ended before.
    pub(crate) fn end_all(&mut self)
        ensures items { self.new.items ≡ [] }
        ensures ended { self.new.ended ≡ self.old.items }
        ensures room { self.new.room ≡ self.old.room + length self.old.items }
    {
        self.ended = self.count;
        self.count = 0;
    }

    /// Forgets the tasks that ended. Their entries become spare.
    pub(crate) fn forget_ended(&mut self)
        ensures items { self.new.items ≡ self.old.items }
        ensures ended { self.new.ended ≡ [] }
        ensures room { self.new.room ≡ self.old.room }
    {
        self.ended = 0;
    }

    /// Reserves capacity for this many more tasks, if there is less.
    ///
    /// # Errors
    /// Out of memory.
    pub(crate) fn reserve(&mut self, more: usize) -> Result<(), AllocError>
        ensures items { self.new.items ≡ self.old.items }
        ensures ended { self.new.ended ≡ self.old.ended }
        ensures room { OnOk result (more ≤ self.new.room) }
        ensures kept { self.old.room ≤ self.new.room }
    {
        let waiting = self.entries.len() - self.count;
        for _entry in waiting..more {
            self.entries.push(unused())?;
        }
        Ok(())
    }
}

// A spare entry, which belongs to no task yet.
fn unused() -> Active {
    Active {
        task: 0,
        release: 0,
        key: Key::none(),
        inputs: Values::new(),
        states: Values::new(),
    }
}
