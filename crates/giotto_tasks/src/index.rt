//! An index from names to their places in a list.

ghost use Rattle.std.specs.Prelude.{◌≡◌, ◌<◌, ◌≤◌, ◌^◌, IfOk, length};
ghost use Rattle.giotto_tasks.specs.cited.Places.{place_from};
ghost use Rattle.giotto_tasks.specs.Names as tasks;
ghost use Rattle.giotto_tasks.specs.Sound as sound;

use crate::names::Name;
use crate::places::{position_in, stands_in};
use indexmap::IndexMap;
use std::alloc::{AllocError, Global};
use std::marker::Model;

/// A list of names with a lookup table: finding a name takes mostly the same time, however long the
/// list is. Contracts see it as the list.
#[derive(Drop)]
pub struct Index {
    names: Vec<Name>,
    // The first place of each name, if there are more than `FEW` names.
    places: IndexMap<Name, usize>,
    // Whether no name occurs twice.
    different: bool,
}

impl Model for Index {
    ghost use Rattle.std.specs.Prelude.{◌≡◌, ◌<◌, List, length};
    ghost use Rattle.giotto_tasks.specs.declared.names.Name.{Name};
    ghost use Rattle.giotto_tasks.specs.Sound as sound;
    ghost use Rattle.giotto_tasks.specs.cited.Places.{HasPlaces};

    ghost Value = { List Name };

    ghost view = { λ i. i.names.items };

    ghost invariant = { λ i. (16 < length i.names.items → HasPlaces 0 i.names.items i.places) × (i.different ≡ sound.all_different i.names.items) };
}

// Up to this many names, scanning the list is faster than the map.
const FEW: usize = 16;

impl Index {
    /// The index of these names. A name may occur more than once.
    ///
    /// # Errors
    /// Out of memory.
    pub fn new(alloc: Global, names: Vec<Name>) -> Result<Index, AllocError>
        ensures { IfOk result (λ index. index ≡ names.items) }
    {
        if names.len() <= FEW {
            return Ok(Index::of_few(alloc, names));
        }
        Index::of_many(alloc, names)
    }

    fn of_few(alloc: Global, names: Vec<Name>) -> Index
        requires { length names.items ≤ 16 }
        ensures { result ≡ names.items }
    {
        let different = are_different(&names);
        Index {
            names,
            places: IndexMap::new(alloc),
            different,
        }
    }

    fn of_many(alloc: Global, names: Vec<Name>) -> Result<Index, AllocError>
        ensures { IfOk result (λ index. index ≡ names.items) }
    {
        let mut places = IndexMap::with_capacity(alloc, names.len())?;
        let mut different = true;
        // From the last name to the first, so that a name's first place remains.
        for behind in 0..names.len() {
            let place = names.len() - 1 - behind;
            let name = names[place].copy();
            let first = places.insert(name, place)?.is_none();
            different = first & different;
        }
        Ok(Index {
            names,
            places,
            different,
        })
    }

    /// The number of names in the list: less than 2^63.
    pub fn len(&self) -> usize
        ensures length { result ≡ length self.now }
        ensures bound { result < 2 ^ 63 }
    {
        self.names.len()
    }

    /// The first place of the name in the list, counted from 0, or `None` if it isn't in the list.
    pub fn place(&self, name: &Name) -> Option<usize>
        ensures { result ≡ place_from 0 self.now name.now }
    {
        if self.names.len() <= FEW {
            return position_in(&self.names, name);
        }
        self.place_by_map(name)
    }

    // The place if there are more than `FEW` names.
    #[inline(never)]
    fn place_by_map(&self, name: &Name) -> Option<usize>
        requires { 16 < length self.now }
        ensures { result ≡ place_from 0 self.now name.now }
    {
        self.places.get(name).copied()
    }

    /// Whether the name is in the list.
    pub fn contains(&self, name: &Name) -> bool
        ensures { result ≡ tasks.is_among self.now name.now }
    {
        self.place(name).is_some()
    }

    /// Whether no name occurs twice.
    pub fn all_different(&self) -> bool
        ensures { result ≡ sound.all_different self.now }
    {
        self.different
    }
}

fn are_different(names: &[Name]) -> bool
    ensures { result ≡ sound.all_different names.now }
{
    for place in 0..names.len() {
        if stands_in(&names[place + 1..], &names[place]) {
            return false;
        }
    }
    true
}
