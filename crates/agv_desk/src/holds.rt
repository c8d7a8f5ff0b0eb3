//! Which nodes and edges vehicles hold.
ghost use Rattle.std.specs.Prelude.{◌≡◌, OnOk, ◌++◌, map};
ghost use Rattle.std.specs.FinMap as finite;
ghost use Rattle.agv_header.specs.declared.key.Thing.{Thing as Held};
ghost use Rattle.agv_track_holds.specs.Holders.{gained};
ghost use Rattle.agv_track_holds.specs.Holds.{first_held, is_in, other_holder};
ghost use Rattle.agv_world_core.specs.Asks.{Asks};
ghost use Rattle.agv_world_core.specs.Maps.{maps_of};
ghost use Rattle.agv_world_core.specs.VehicleChanges.{hold_changes};
ghost use Rattle.agv_world_core.specs.declared.change.Change.TheVariants as row;

use agv_header::{Memory, Thing, VehicleKey};
use agv_world_core::{Change, Fault, Floor};

/// Returns the first node or edge of the list that another vehicle holds, with that vehicle.
pub(crate) fn first_held<F: Floor>(
    floor: &mut F,
    key: &VehicleKey,
    things: &[Thing],
) -> Result<Option<(Thing, VehicleKey)>, Fault>
    ensures { Asks F.facts floor.old floor.new result (λ world held. held ≡ first_held (maps_of world).holds key.now things.now) }
{
    for thing in things {
        if let Some(by) = other_holder(floor, key, thing)? {
            return Ok(Some((*thing, by)));
        }
    }
    Ok(None)
}

/// Returns the vehicle that holds the node or edge, if it is not `key`.
#[tactic(auto, unfolding(agv_world_core::specs::Questions::holder_of))]
fn other_holder<F: Floor>(
    floor: &mut F,
    key: &VehicleKey,
    thing: &Thing,
) -> Result<Option<VehicleKey>, Fault>
    ensures { Asks F.facts floor.old floor.new result (λ world by. by ≡ other_holder key.now (finite.get (maps_of world).holds thing.now)) }
{
    match floor.holder(*thing)? {
        Some(by) if by != *key => Ok(Some(by)),
        _ => Ok(None),
    }
}

/// Pushes the changes of what a vehicle gains and of what it no longer holds.
pub(crate) fn push_holds(
    key: &VehicleKey,
    old: &[Thing],
    new: &[Thing],
    changes: &mut Vec<Change>,
) -> Result<(), Memory>
    ensures { OnOk result (changes.new.items ≡ changes.old.items ++ hold_changes key.now old.now new.now) }
{
    push_gained(old, new, &Some(*key), changes)?;
    push_gained(new, old, &None, changes)
}

/// Pushes a change to this holder for each node or edge that is in the new list and not in the old one.
fn push_gained(
    old: &[Thing],
    new: &[Thing],
    holder: &Option<VehicleKey>,
    changes: &mut Vec<Change>,
) -> Result<(), Memory>
    ensures { OnOk result (changes.new.items ≡ changes.old.items ++ map (λ (thing : Held). row.Hold thing holder.now) (gained old.now new.now)) }
{
    for thing in new {
        if !is_in(thing, old) {
            changes.push(Change::Hold(*thing, *holder))?;
        }
    }
    Ok(())
}

/// Returns whether the node or edge is in the list.
fn is_in(thing: &Thing, things: &[Thing]) -> bool
    ensures { result ≡ is_in thing.now things.now }
{
    things.iter().any(|other| thing == other)
}
