//! A set of things in the order in which they were added.
ghost use Rattle.std.specs.Prelude.{◌≡◌, [], OnOk};
ghost use Rattle.agv_track_holds.specs.OrderedSet.{KnowsAll, with_thing};

use agv_header::{Memory, Thing};
use std::alloc::Global;
use std::collections::BTreeSet;

/// Things in the order in which they were added, and the set of them.
#[derive(Drop)]
pub(crate) struct OrderedSet {
    pub(crate) things: Vec<Thing>,
    pub(crate) known: BTreeSet<Thing>,
}

impl OrderedSet {
    /// Returns a set without things.
    pub(crate) fn new(alloc: Global) -> OrderedSet
        ensures none { result.things.items ≡ [] }
        ensures knows { KnowsAll result }
    {
        OrderedSet {
            things: Vec::new(alloc),
            known: BTreeSet::new(alloc),
        }
    }

    /// Adds the thing, if it isn't there. After `Memory` the list and the set may differ, so the value is not to be
    /// used.
    pub(crate) fn add(&mut self, thing: &Thing) -> Result<(), Memory>
        requires { KnowsAll self.old }
        ensures added { OnOk result (self.new.things.items ≡ with_thing self.old.things.items thing.now) }
        ensures knows { OnOk result (KnowsAll self.new) }
    {
        let is_new = self.known.insert(*thing)?;
        if is_new {
            self.things.push(*thing)?;
        }
        Ok(())
    }
}
