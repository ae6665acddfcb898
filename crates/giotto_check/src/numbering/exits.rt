//! Switches by number.

ghost use Rattle.std.specs.Prelude.{◌≡◌, Some, IfOk, IsTrue, IsSome, map};
ghost use Rattle.std.specs.List.{list_all, position_from};
ghost use Rattle.giotto_tasks.specs.Names.{is_among, same_name};
ghost use Rattle.giotto_tasks.specs.Trees.{expression_of};
ghost use Rattle.giotto_rules.specs.text.Depth.{is_shallow};
ghost use Rattle.giotto_rules.specs.text.ProgramTrees.{mode_of, switch_of, destination_of};
ghost use Rattle.giotto_rules.specs.Declarations.{mode_named, names_read, output_names};
ghost use Rattle.giotto_rules.specs.Names.{are_among};
ghost use Rattle.giotto_rules.specs.Reads.{names_in_destinations};
ghost use Rattle.giotto_check.specs.cited.Facts.{DriversMayRead, ModeFits, ProgramFits, SwitchFits};
ghost use Rattle.giotto_check.specs.cited.Timetables.{AreDestinations, AreExits, IsDestination, IsExit, place_of_mode};

use crate::numbering::numbered::Numbered;
use crate::timetables::{SlotDestination, SlotExit};
use giotto_rules::text::programs::{Destination, Mode, Switch};
use giotto_tasks::names::Name;
use std::alloc::AllocError;

impl Numbered<'_> {
    /// The switches of a mode, in text order.
    pub(crate) fn exits(&self, mode: &Mode) -> Result<Vec<SlotExit>, AllocError>
        requires { ModeFits self.now (mode_of mode.now) }
        ensures { IfOk result (λ entries. AreExits self.now (mode_of mode.now) entries.items) }
    {
        let mut entries = Vec::new(self.alloc);
        for switch in mode.switches.as_slice() {
            entries.push(self.exit(mode, switch)?)?;
        }
        Ok(entries)
    }

    fn exit(&self, mode: &Mode, switch: &Switch) -> Result<SlotExit, AllocError>
        requires program { ProgramFits self.now }
        requires mode { ModeFits self.now (mode_of mode.now) }
        requires switch { SwitchFits self.now (mode_of mode.now) (switch_of switch.now) }
        ensures { IfOk result (λ entry. IsExit self.now (mode_of mode.now) (switch_of switch.now) entry) }
    {
        Ok(SlotExit {
            interval: mode.period / switch.frequency,
            guard: self.guard(&switch.guard)?,
            target: self.target(&switch.target),
            destinations: self.destinations(switch.destinations.as_slice())?,
        })
    }

    // The place of the mode with this name. Goes through the modes once.
    fn target(&self, name: &Name) -> usize
        requires { IsSome (mode_named self.now name.now) }
        ensures { place_of_mode self.now name.now ≡ Some result }
    {
        match mode_place(self.program.modes(), name) {
            Some(place) => place,
            None => unreachable!(),
        }
    }

    fn destinations(&self, destinations: &[Destination]) -> Result<Vec<SlotDestination>, AllocError>
        requires outputs { IsTrue (are_among (output_names self.now) (map (λ d. d.0) (map destination_of destinations.now))) }
        requires reads { DriversMayRead self.now (names_in_destinations (map destination_of destinations.now)) }
        requires shallow { IsTrue (list_all (λ d. is_shallow d.1) (map destination_of destinations.now)) }
        ensures { IfOk result (λ entries. AreDestinations self.now (map destination_of destinations.now) entries.items) }
    {
        let mut entries = Vec::new(self.alloc);
        for destination in destinations {
            entries.push(self.destination(destination)?)?;
        }
        Ok(entries)
    }

    fn destination(&self, destination: &Destination) -> Result<SlotDestination, AllocError>
        requires output { IsTrue (is_among (output_names self.now) destination.now.output) }
        requires reads { DriversMayRead self.now (names_read (expression_of destination.now.value)) }
        requires shallow { IsTrue (is_shallow (expression_of destination.now.value)) }
        ensures { IfOk result (λ entry. IsDestination self.now (destination_of destination.now) entry) }
    {
        Ok(SlotDestination {
            output: self.slot(&destination.output),
            value: self.expression(&destination.value)?,
        })
    }
}

fn mode_place(modes: &[Mode], name: &Name) -> Option<usize>
    ensures { result ≡ position_from (λ m. same_name m.name name.now) 0 modes.now }
{
    modes.iter().position(|mode| mode.name == *name)
}
