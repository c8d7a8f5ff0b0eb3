//! The table of holds.
ghost use Rattle.std.specs.Prelude.{◌≡◌, ◌↔◌, None, Some, OnOk, OnErr, IfOk, Err, cond, not, ◌&&◌, true, false};
ghost use Rattle.std.specs.FinMap as map;
ghost use Rattle.std.specs.Option.{is_none};
ghost use Rattle.agv_header.specs.declared.key.Thing.{Thing as Held};
ghost use Rattle.agv_header.specs.declared.key.VehicleKey.{VehicleKey as Vehicle};
ghost use Rattle.agv_track_holds.specs.declared.claim_fault.ClaimFault.TheVariants as fault;
ghost use Rattle.agv_track_holds.specs.Holds.{is_in, is_own, other_holder, first_held, unheld_of, claimed, shed_from};

use crate::ClaimFault;
use agv_header::{Memory, Thing, VehicleKey};
use std::alloc::Global;
use std::collections::BTreeMap;
use std::marker::Model;

/// The table of holds: the vehicle that holds a node or an edge, for each one that is held. In a clause it is the
/// finite map from things to vehicles.
#[derive(Drop)]
pub struct HoldTable {
    alloc: Global,
    holders: BTreeMap<Thing, VehicleKey>,
}

impl Model for HoldTable {
    ghost use Rattle.std.specs.FinMap as map;
    ghost use Rattle.agv_track_holds.specs.Holds.{Holds};
    ghost use Rattle.agv_track_holds.specs.HoldCode.{holds_code};

    ghost Value = { Holds };

    ghost coded = { holds_code };

    ghost view = { λ table. map.from_entries table.holders.entries };
}

impl HoldTable {
    /// Returns a table in which nothing is held.
    pub fn new(alloc: Global) -> HoldTable
        ensures { result ≡ map.empty }
    {
        HoldTable {
            alloc,
            holders: BTreeMap::new(alloc),
        }
    }

    /// Returns the vehicle that holds the thing, if there is one.
    pub fn holder(&self, thing: &Thing) -> Option<VehicleKey>
        ensures { result ≡ map.get self.now thing.now }
    {
        self.holders.get(thing).copied()
    }

    /// Gives the things to the vehicle, which keeps those that it holds already. A thing may be in the list twice.
    ///
    /// It returns
    ///
    /// - `Held` exactly if another vehicle holds one of them, with the first such thing in the list and that
    ///   vehicle; this doesn't depend on memory;
    /// - `Memory` only when out of memory.
    ///
    /// After an error the table is as before. It takes time in proportion to the things, times the logarithm
    /// of the number of holds, and memory for the things that it gives.
    pub fn claim(&mut self, key: VehicleKey, things: &[Thing]) -> Result<(), ClaimFault>
        ensures claimed { OnOk result (self.new ≡ claimed self.old key things.now) }
        ensures held { (what : Held) (by : Vehicle) → (result ≡ Err (fault.Held what by)) ↔ (first_held self.old key things.now ≡ Some (what, by)) }
        ensures free { OnOk result (first_held self.old key things.now ≡ None) }
        ensures unchanged { OnErr result (self.new ≡ self.old) }
    {
        if let Some((what, by)) = self.first_held(&key, things) {
            return Err(ClaimFault::Held { what, by });
        }
        let unheld = self.unheld(things)?;
        self.put_all_or_none(&key, &unheld)?;
        Ok(())
    }

    /// Returns the first thing of the list that another vehicle holds, and that vehicle.
    fn first_held(&self, key: &VehicleKey, things: &[Thing]) -> Option<(Thing, VehicleKey)>
        ensures { result ≡ first_held self.now key.now things.now }
    {
        for thing in things {
            if let Some(by) = self.other_holder(key, thing) {
                return Some((*thing, by));
            }
        }
        None
    }

    /// Returns the vehicle that holds the thing, if it is another one than this.
    fn other_holder(&self, key: &VehicleKey, thing: &Thing) -> Option<VehicleKey>
        ensures { result ≡ other_holder key.now (map.get self.now thing.now) }
    {
        let by = self.holder(thing)?;
        if by == *key { None } else { Some(by) }
    }

    /// Returns the things of the list that no vehicle holds.
    fn unheld(&self, things: &[Thing]) -> Result<Vec<Thing>, Memory>
        ensures { IfOk result (λ unheld. unheld.items ≡ unheld_of self.now things.now) }
    {
        let mut unheld = Vec::new(self.alloc);
        for thing in things {
            if self.holder(thing).is_none() {
                unheld.push(*thing)?;
            }
        }
        Ok(unheld)
    }

    /// Gives the things, which no vehicle holds, to the vehicle, or none of them after an error.
    fn put_all_or_none(&mut self, key: &VehicleKey, things: &[Thing]) -> Result<(), Memory>
        requires { (thing : Held) → is_in thing things.now ≡ true → map.get self.old thing ≡ None }
        ensures ok { OnOk result (self.new ≡ claimed self.old key.now things.now) }
        ensures err { OnErr result (self.new ≡ self.old) }
    {
        let done = self.put_all(key, things);
        if done.is_err() {
            self.free_all(things);
        }
        done
    }

    /// Gives each of the things to the vehicle. After an error it may have given some of them.
    fn put_all(&mut self, key: &VehicleKey, things: &[Thing]) -> Result<(), Memory>
        ensures ok { OnOk result (self.new ≡ claimed self.old key.now things.now) }
        ensures err { OnErr result ((thing : Held) → is_in thing things.now ≡ false → map.get self.new thing ≡ map.get self.old thing) }
    {
        for thing in things {
            self.give(*thing, *key)?;
        }
        Ok(())
    }

    /// Gives the thing to the vehicle, whoever held it, and returns whether no vehicle did.
    ///
    /// Returns `Memory` if an allocation is refused, and then changes nothing.
    pub fn give(&mut self, thing: Thing, key: VehicleKey) -> Result<bool, Memory>
        ensures ok { IfOk result (λ free. (free ≡ is_none (map.get self.old thing)) × (self.new ≡ map.insert self.old thing key)) }
        ensures err { OnErr result (self.new ≡ self.old) }
    {
        let before = self.holders.insert(thing, key)?;
        Ok(before.is_none())
    }

    /// Frees each of the things, whoever holds it.
    fn free_all(&mut self, things: &[Thing])
        ensures { (thing : Held) → map.get self.new thing ≡ cond (is_in thing things.now) None (map.get self.old thing) }
    {
        for thing in things {
            self.free(thing);
        }
    }

    /// Takes from the vehicle what it holds that is in the old list and not in the new one. All else stays as
    /// it is: what other vehicles hold, and what the vehicle holds that is not in the old list.
    ///
    /// It takes no memory, and time in proportion to the old things, times the logarithm of the number of
    /// holds, and to the old things that the vehicle holds times the new ones.
    pub fn shed(&mut self, key: VehicleKey, old: &[Thing], new: &[Thing])
        ensures { self.new ≡ shed_from self.old key old.now new.now }
    {
        for thing in old {
            if self.gives_up(&key, thing, new) {
                self.free(thing);
            }
        }
    }

    /// Returns whether the vehicle holds the thing, and the new list doesn't have it.
    fn gives_up(&self, key: &VehicleKey, thing: &Thing, new: &[Thing]) -> bool
        ensures { result ≡ (is_own key.now (map.get self.now thing.now) && not (is_in thing.now new.now)) }
    {
        self.is_own(key, thing) && !new.contains(thing)
    }

    /// Returns whether the vehicle holds the thing.
    fn is_own(&self, key: &VehicleKey, thing: &Thing) -> bool
        ensures { result ≡ is_own key.now (map.get self.now thing.now) }
    {
        self.holder(thing).is_some_and(|by| by == *key)
    }

    /// Frees the thing, whoever holds it.
    fn free(&mut self, thing: &Thing)
        ensures { self.new ≡ map.remove self.old thing.now }
    {
        self.holders.remove(thing);
    }
}
