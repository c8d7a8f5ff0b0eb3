//! Whether the loads and jobs are within the capacities of stations and vehicles.
ghost use Rattle.std.specs.Prelude.{◌≡◌, count_by, IfOk, OnOk};
ghost use Rattle.std.specs.FinMap as map;
ghost use Rattle.agv_world_core.specs.Lawful.{is_to_drop};
ghost use Rattle.agv_world_lawful.specs.LoadTests.{acts_of, are_within_capacity, are_within_capacity_among, have_room, is_on_vehicle, is_within_capacity_among, is_load_by, loads_on_vehicles, one_on, loads_of_others_among, tallied, tally_of, with_job, with_jobs, with_loads, with_one, with_place};

use crate::jobs::is_to_drop;
use agv_header::limits::MAX_STATION_CAPACITY;
use agv_header::{Memory, Name, VehicleKey};
use agv_order::Act;
use agv_stock::Place;
use agv_world_core::{ByName, JobRow, VehicleRow, World};
use std::alloc::Global;

// One more than the largest capacity of a station.
const MORE_THAN_FITS: usize = MAX_STATION_CAPACITY as usize + 1;

/// Returns whether the loads at each station and the live jobs to it together are at most its capacity.
pub(crate) fn have_room(alloc: Global, world: &World) -> Result<bool, Memory>
    ensures { IfOk result (λ have. have ≡ have_room world.now) }
{
    let tally = tally(alloc, world)?;
    let have = world.stations.iter().all(|(id, site)| tallied(&tally, *id)
        <= site.capacity as usize);
    Ok(have)
}

/// Returns the number of loads and live jobs for each station.
fn tally(alloc: Global, world: &World) -> Result<ByName<usize>, Memory>
    ensures { IfOk result (λ tally. tally ≡ tally_of world.now) }
{
    let mut tally = ByName::new(alloc);
    add_loads(world, &mut tally)?;
    add_jobs(world, &mut tally)?;
    Ok(tally)
}

/// Counts each load at its station.
fn add_loads(world: &World, tally: &mut ByName<usize>) -> Result<(), Memory>
    ensures { OnOk result (tally.new ≡ with_loads tally.old (map.entries world.now.loads)) }
{
    for (_, place) in world.loads.iter() {
        add_place(tally, *place)?;
    }
    Ok(())
}

/// Counts each live job at its target.
fn add_jobs(world: &World, tally: &mut ByName<usize>) -> Result<(), Memory>
    ensures { OnOk result (tally.new ≡ with_jobs tally.old (map.entries world.now.jobs)) }
{
    for (_, row) in world.jobs.iter() {
        add_job(tally, row)?;
    }
    Ok(())
}

/// Returns whether each vehicle has the capacity for its other loads and for the unfinished drops of its trip.
pub(crate) fn are_within_capacity(alloc: Global, world: &World) -> Result<bool, Memory>
    ensures { IfOk result (λ are. are ≡ are_within_capacity world.now) }
{
    let loads = loads_on_vehicles(alloc, world)?;
    Ok(are_within_capacity_among(world, loads.as_slice()))
}

/// Returns the loads on vehicles.
fn loads_on_vehicles(alloc: Global, world: &World) -> Result<Vec<(Name, Place)>, Memory>
    ensures { IfOk result (λ loads. loads.items ≡ loads_on_vehicles world.now) }
{
    let mut loads = Vec::new(alloc);
    for (load, place) in world.loads.iter() {
        if is_on_vehicle(*place) {
            loads.push((*load, *place))?;
        }
    }
    Ok(loads)
}

/// Returns whether each vehicle has the capacity for its other loads, among these, and for the
/// unfinished drops of its trip.
fn are_within_capacity_among(world: &World, loads: &[(Name, Place)]) -> bool
    ensures { result ≡ are_within_capacity_among world.now loads.now }
{
    world.vehicles.iter().all(|(key, row)| is_vehicle_within_capacity(world, loads, key, row))
}

/// Returns whether a vehicle has the capacity for its other loads, among these, and for the unfinished drops
/// of its trip.
fn is_vehicle_within_capacity(
    world: &World,
    loads: &[(Name, Place)],
    key: &VehicleKey,
    row: &VehicleRow,
) -> bool
    ensures { result ≡ is_within_capacity_among loads.now (key.now, row.now) (acts_of world.now key.now) }
{
    is_within_capacity(loads, *key, row, acts_of(world, *key))
}

/// Returns the acts of a vehicle's open trip, or none if it has no trip.
fn acts_of(world: &World, key: VehicleKey) -> &[Act]
    ensures { result.now ≡ acts_of world.now key }
{
    for (_, row) in world.trips.iter() {
        if row.vehicle == key {
            return row.acts.as_slice();
        }
    }
    &[]
}

/// Returns the count of a name, or 0 if it was not counted.
fn tallied(tally: &ByName<usize>, name: Name) -> usize
    ensures { result ≡ tallied tally.now name }
{
    match tally.get(name) {
        Some(count) => *count,
        None => 0,
    }
}

/// Counts the station of a place, if the place is a station.
fn add_place(tally: &mut ByName<usize>, place: Place) -> Result<(), Memory>
    ensures { OnOk result (tally.new ≡ with_place tally.old place) }
{
    match place {
        Place::Station(id) => add_one(tally, id),
        Place::Vehicle(_) | Place::Checking | Place::Left => Ok(()),
    }
}

/// Counts the name once more.
fn add_one(tally: &mut ByName<usize>, name: Name) -> Result<(), Memory>
    ensures { OnOk result (tally.new ≡ with_one tally.old name) }
{
    let count = one_on(tallied(tally, name));
    tally.insert(name, count)
}

/// Returns `n + 1`, but never counts past one more than the largest capacity of a station.
fn one_on(n: usize) -> usize
    ensures { result ≡ one_on n }
{
    if n < MORE_THAN_FITS { n + 1 } else { n }
}

/// Counts the target of a job, if the job is live.
fn add_job(tally: &mut ByName<usize>, row: &JobRow) -> Result<(), Memory>
    ensures { OnOk result (tally.new ≡ with_job tally.old row.now) }
{
    if row.phase.is_live() {
        add_one(tally, row.target)?;
    }
    Ok(())
}

/// Returns whether the place is a vehicle.
fn is_on_vehicle(place: Place) -> bool
    ensures { result ≡ is_on_vehicle place }
{
    match place {
        Place::Vehicle(_) => true,
        Place::Station(_) | Place::Checking | Place::Left => false,
    }
}

/// Returns whether a vehicle has the capacity for its other loads, among these, and for the unfinished drops
/// among these acts.
fn is_within_capacity(
    loads: &[(Name, Place)],
    key: VehicleKey,
    row: &VehicleRow,
    acts: &[Act],
) -> bool
    ensures { result ≡ is_within_capacity_among loads.now (key, row.now) acts.now }
{
    let capacity = row.capacity as usize;
    let drops = drop_count(acts);
    drops <= capacity && loads_of_others(loads, key, acts) <= capacity - drops
}

/// Returns how many of the acts are unfinished drops.
fn drop_count(acts: &[Act]) -> usize
    ensures { result ≡ count_by is_to_drop acts.now }
{
    acts.iter().filter(|act| is_to_drop(act)).count()
}

/// Returns how many of the loads are on the vehicle without an unfinished drop among the acts.
fn loads_of_others(loads: &[(Name, Place)], key: VehicleKey, acts: &[Act]) -> usize
    ensures { result ≡ loads_of_others_among loads.now key acts.now }
{
    loads
        .iter()
        .filter(|(load, place)| place.is_on(&key) && !is_load_by(*load, acts))
        .count()
}

/// Returns whether the acts have an unfinished drop of the load.
fn is_load_by(load: Name, acts: &[Act]) -> bool
    ensures { result ≡ is_load_by load acts.now }
{
    acts.iter().any(|act| is_to_drop(act) && act.load == load)
}
