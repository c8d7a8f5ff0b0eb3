//! Whether no node or edge is in the footprints of two vehicles.
ghost use Rattle.std.specs.Prelude.{◌≡◌, IfOk, IsTrue};
ghost use Rattle.std.specs.Option.{is_none};
ghost use Rattle.agv_track_holds.specs.Holds.{claimed, first_held};
ghost use Rattle.agv_world_lawful.specs.LawfulTests.{are_apart, things_of};

use agv_header::{Memory, Thing, VehicleKey};
use agv_track_holds::{ClaimFault, HoldTable, Standing, footprint};
use agv_world_core::{VehicleRow, World};
use std::alloc::Global;

/// Returns whether no node or edge is in the footprints of two vehicles.
pub(crate) fn are_apart(alloc: Global, world: &World) -> Result<bool, Memory>
    ensures { IfOk result (λ apart. apart ≡ are_apart world.now) }
{
    let mut holds = HoldTable::new(alloc);
    for (key, row) in world.vehicles.iter() {
        let things = things_of(alloc, world, *key, row)?;
        if !is_given(&mut holds, *key, &things)? {
            return Ok(false);
        }
    }
    Ok(true)
}

/// Returns the footprint of the vehicle of a row.
fn things_of(
    alloc: Global,
    world: &World,
    key: VehicleKey,
    row: &VehicleRow,
) -> Result<Vec<Thing>, Memory>
    ensures { IfOk result (λ things. things.items ≡ things_of world.now (key, row.now)) }
{
    let standing = Standing {
        node: row.node,
        rest: row.rest,
        trip: world.open_trip(alloc, key)?,
    };
    footprint(alloc, &standing)
}

/// Claims the things for the vehicle, and returns whether they were free: no other vehicle held any of them.
fn is_given(holds: &mut HoldTable, key: VehicleKey, things: &[Thing]) -> Result<bool, Memory>
    ensures free { IfOk result (λ given. given ≡ is_none (first_held holds.old key things.now)) }
    ensures claimed { IfOk result (λ given. IsTrue given → holds.new ≡ claimed holds.old key things.now) }
{
    match holds.claim(key, things) {
        Ok(()) => Ok(true),
        Err(ClaimFault::Held { .. }) => Ok(false),
        Err(ClaimFault::Memory) => Err(Memory),
    }
}
