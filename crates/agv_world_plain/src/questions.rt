//! The answers from the tables of a world to questions of [`Floor`](agv_world_core::Floor).
ghost use Rattle.std.specs.Prelude.{◌≡◌, length, is_some, IfOk};
ghost use Rattle.std.specs.FinMap as map;
ghost use Rattle.agv_world_core.specs.Questions.{trip_of, room_at, has_room_at, is_used, loads_at, loads_on, job_of, reserved};
ghost use Rattle.agv_world_core.specs.Told.{world_of};

use agv_header::{Memory, Name, VehicleKey};
use agv_layout::StationSite;
use agv_message_core::Sequence;
use agv_stock::room_left;
use agv_world_core::{JobRow, UseKey, UseKind, World};
use std::alloc::Global;

/// Returns the row of a job, or `None` if the job is unknown.
pub(crate) fn job(world: &World, job: Name) -> Option<JobRow>
    ensures { result ≡ map.get world.now.jobs job }
{
    world.jobs.get(job).copied()
}

/// Returns where a station is and how many loads fit there, or `None` if the station is unknown.
pub(crate) fn site_of(world: &World, id: Name) -> Option<StationSite>
    ensures { result ≡ map.get world.now.stations id }
{
    world.stations.get(id).copied()
}

/// Returns whether a name was used in this kind.
pub(crate) fn is_used(world: &World, kind: UseKind, name: Name) -> bool
    ensures { result ≡ is_used (world_of world.now) kind name }
{
    world.used.contains(UseKey { kind, name })
}

/// Returns the loads at a station, in the order of their names.
pub(crate) fn loads_at(
    world: &World,
    alloc: Global,
    station: Name,
) -> Result<Sequence<Name>, Memory>
    ensures { IfOk result (λ loads. loads ≡ loads_at (world_of world.now) station) }
{
    let mut loads = Vec::new(alloc);
    for (load, place) in world.loads.iter() {
        if place.is_at(station) {
            loads.push(*load)?;
        }
    }
    Ok(Sequence::from(loads))
}

/// Returns how many loads are on a vehicle.
pub(crate) fn loads_on(world: &World, key: VehicleKey) -> usize
    ensures { result ≡ loads_on (world_of world.now) key }
{
    world
        .loads
        .iter()
        .filter(|(_, place)| place.is_on(&key))
        .count()
}

/// Returns the live job of a load, or `None` if it has none.
pub(crate) fn job_of(world: &World, load: Name) -> Option<Name>
    ensures { result ≡ job_of (world_of world.now) load }
{
    for (name, job) in world.jobs.iter() {
        if job.is_live_for(load) {
            return Some(*name);
        }
    }
    None
}

/// Returns how many live jobs go to a station.
pub(crate) fn reserved(world: &World, station: Name) -> usize
    ensures { result ≡ reserved (world_of world.now) station }
{
    world
        .jobs
        .iter()
        .filter(|(_, job)| job.is_live_to(station))
        .count()
}

/// Returns how many more loads fit at a station, or `None` if the station is unknown.
pub(crate) fn room(world: &World, station: Name) -> Option<u32>
    ensures { result ≡ room_at (world_of world.now) station }
{
    let site = site_of(world, station)?;
    Some(room_left(
        site.capacity,
        load_count(world, station),
        reserved(world, station),
    ))
}

/// Returns whether one more load fits at a station, or `None` if the station is unknown.
pub(crate) fn has_room(world: &World, station: Name) -> Option<bool>
    ensures { result ≡ has_room_at (world_of world.now) station }
{
    let room = room(world, station)?;
    Some(room != 0)
}

/// Returns how many loads are at a station.
fn load_count(world: &World, station: Name) -> usize
    ensures { result ≡ length (loads_at (world_of world.now) station) }
{
    world
        .loads
        .iter()
        .filter(|(_, place)| place.is_at(station))
        .count()
}

/// Returns whether a vehicle has an open trip: `false` if there is no such vehicle.
pub(crate) fn has_trip(world: &World, key: &VehicleKey) -> bool
    ensures { result ≡ is_some (trip_of (world_of world.now) key.now) }
{
    if world.vehicle(*key).is_none() {
        return false;
    }
    world.first_order(*key).is_some()
}
