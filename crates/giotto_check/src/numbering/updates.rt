//! Updates by number.

ghost use Rattle.std.specs.Prelude.{IfOk};
ghost use Rattle.giotto_rules.specs.text.ProgramTrees.{mode_of, update_of};
ghost use Rattle.giotto_check.specs.cited.Facts.{ModeFits, UpdateFits};
ghost use Rattle.giotto_check.specs.cited.Timetables.{AreUpdates, IsUpdate};

use crate::numbering::numbered::Numbered;
use crate::timetables::SlotUpdate;
use giotto_rules::text::programs::{Mode, Update};
use std::alloc::AllocError;

impl Numbered<'_> {
    /// The updates of a mode, in text order.
    pub(crate) fn updates(&self, mode: &Mode) -> Result<Vec<SlotUpdate>, AllocError>
        requires { ModeFits self.now (mode_of mode.now) }
        ensures { IfOk result (λ entries. AreUpdates self.now (mode_of mode.now) entries.items) }
    {
        let mut entries = Vec::new(self.alloc);
        for update in mode.updates.as_slice() {
            entries.push(self.update(mode, update)?)?;
        }
        Ok(entries)
    }

    fn update(&self, mode: &Mode, update: &Update) -> Result<SlotUpdate, AllocError>
        requires mode { ModeFits self.now (mode_of mode.now) }
        requires update { UpdateFits self.now (mode_of mode.now) (update_of update.now) }
        ensures { IfOk result (λ entry. IsUpdate self.now (mode_of mode.now) (update_of update.now) entry) }
    {
        Ok(SlotUpdate {
            interval: mode.period / update.frequency,
            guard: self.guard(&update.guard)?,
            actuator: self.slot(&update.actuator),
            value: self.expression(&update.value)?,
        })
    }
}
