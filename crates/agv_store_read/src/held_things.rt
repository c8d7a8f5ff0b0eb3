//! The holds that the rows of the tables encode, and whether they are those of the vehicles of a world.
ghost use Rattle.std.specs.Prelude.{◌≡◌, ◌↔◌, ◌&&◌, true, IfOk, IsTrue};
ghost use Rattle.std.specs.FinMap as map;
ghost use Rattle.agv_world_core.specs.Kept.{Keeps};
ghost use Rattle.agv_world_core.specs.Lawful.{IsLawful};
ghost use Rattle.agv_world_core.specs.Maps.{maps_of};
ghost use Rattle.agv_world_core.specs.Told.{world_of};
ghost use Rattle.agv_world_core.specs.Worlds.{World as WorldOf};
ghost use Rattle.agv_store_schema.specs.SchemaNumbers.{desk_seats};
ghost use Rattle.agv_store_read.specs.HeldThings.{HasEach, are_entries, are_holders, footprint_in, hold_their_own, holds_each, holds_only, is_kept};

use agv_header::{Memory, Thing, VehicleKey};
use agv_track_holds::hold_laws::tests_membership;
use agv_track_holds::{HoldTable, Standing, footprint};
use agv_world_core::lawful_laws::has_consistent_trips;
use agv_world_core::laws::{holds_are_footprints, tables_tell_the_world};
use agv_world_core::{ByVehicle, VehicleRow, World};
use std::alloc::Global;

/// The nodes and edges that are held, each with its vehicle: as a table, and as a list in no particular order.
#[derive(Drop)]
pub struct HeldThings {
    pub table: HoldTable,
    pub pairs: Vec<(Thing, VehicleKey)>,
    ghost entries: { are_entries table pairs.items ≡ true },
    ghost whole: { HasEach table pairs.items },
}

impl HeldThings {
    /// Returns whether the holds are those of the vehicles of these tables: each vehicle's footprint, and nothing else.
    /// The answer is exact if these are the tables of a lawful world with at most
    /// [`DESK_SEATS`](agv_store_schema::DESK_SEATS) seats.
    ///
    /// It takes time in proportion to the number of vehicles times the number of holds and open trips, and for each
    /// hold it scans the footprint of its vehicle.
    ///
    /// # Errors
    /// `Memory` when out of memory.
    pub fn are_footprints(&self, alloc: Global, tables: &World) -> Result<bool, Memory>
        ensures { IfOk result (λ are. (world : WorldOf) → Keeps tables.now world → IsLawful desk_seats world → IsTrue are ↔ (self.now.table ≡ (maps_of world).holds)) }
    {
        has_consistent_trips();
        holds_are_footprints();
        tables_tell_the_world();
        tests_membership();
        if !are_holders(&tables.vehicles, &self.pairs) {
            return Ok(false);
        }
        self.hold_their_own(alloc, tables)
    }

    /// Returns whether each vehicle holds its footprint, and nothing else.
    fn hold_their_own(&self, alloc: Global, tables: &World) -> Result<bool, Memory>
        ensures { IfOk result (λ own. own ≡ hold_their_own self.now.table self.now.pairs.items (world_of tables.now) (map.entries tables.now.vehicles)) }
    {
        for (key, row) in tables.vehicles.iter() {
            let things = footprint_in(alloc, tables, *key, row)?;
            if !self.holds_its_own(key, &things) {
                return Ok(false);
            }
        }
        Ok(true)
    }

    /// Returns whether the vehicle holds each of the things, and nothing else.
    fn holds_its_own(&self, key: &VehicleKey, things: &[Thing]) -> bool
        ensures { result ≡ (holds_each self.now.table key.now things.now && holds_only self.now.pairs.items key.now things.now) }
    {
        holds_each(&self.table, key, things) && holds_only(&self.pairs, key, things)
    }
}

/// Returns whether each holder is a vehicle.
fn are_holders(vehicles: &ByVehicle<VehicleRow>, pairs: &[(Thing, VehicleKey)]) -> bool
    ensures { result ≡ are_holders vehicles.now pairs.now }
{
    pairs.iter().all(|(_, by)| vehicles.get(*by).is_some())
}

/// Returns the footprint of the vehicle of this row, in the world of these tables.
fn footprint_in(
    alloc: Global,
    tables: &World,
    key: VehicleKey,
    row: &VehicleRow,
) -> Result<Vec<Thing>, Memory>
    ensures { IfOk result (λ things. things.items ≡ footprint_in (world_of tables.now) (key, row.now)) }
{
    let standing = Standing {
        node: row.node,
        rest: row.rest,
        trip: tables.trip(alloc, &key)?,
    };
    footprint(alloc, &standing)
}

/// Returns whether the vehicle holds each of the things.
fn holds_each(table: &HoldTable, key: &VehicleKey, things: &[Thing]) -> bool
    ensures { result ≡ holds_each table.now key.now things.now }
{
    things
        .iter()
        .all(|thing| table.holder(thing).is_some_and(|by| by == *key))
}

/// Returns whether each thing that the vehicle holds is among the things.
fn holds_only(pairs: &[(Thing, VehicleKey)], key: &VehicleKey, things: &[Thing]) -> bool
    ensures { result ≡ holds_only pairs.now key.now things.now }
{
    pairs.iter().all(|pair| is_kept(key, things, pair))
}

/// Returns whether the thing of the pair is among the things, if the pair is this vehicle's.
fn is_kept(key: &VehicleKey, things: &[Thing], pair: &(Thing, VehicleKey)) -> bool
    ensures { result ≡ is_kept key.now things.now pair.now }
{
    let (thing, by) = pair;
    if by == key {
        things.contains(thing)
    } else {
        true
    }
}
