//! Whether the acts of the open trips fit their jobs.
ghost use Rattle.std.specs.Prelude.{◌≡◌};
ghost use Rattle.std.specs.FinMap as map;
ghost use Rattle.std.specs.List.{list_all, list_any};
ghost use Rattle.agv_world_core.specs.Lawful.{station_for};
ghost use Rattle.agv_world_lawful.specs.LoadTests.{are_acts, are_jobs_apart, is_act, is_apart_from, is_as_acted, is_carried_at, is_done, is_placed_on, is_riding, is_same_job, is_shared, names_its_job};

use crate::jobs::is_placed_at;
use agv_header::{Name, VehicleKey};
use agv_message_core::ActKind;
use agv_order::{Act, is_finished};
use agv_stock::{Phase, Place};
use agv_world_core::{JobRow, TripRow, World};

/// Returns whether each act of each open trip fits its job.
pub(crate) fn are_acts(world: &World) -> bool
    ensures { result ≡ are_acts world.now }
{
    world.trips.iter().all(|(_, row)| are_acts_of(world, row.vehicle, row.acts.as_slice()))
}

/// Returns whether each of the acts fits its job.
fn are_acts_of(world: &World, key: VehicleKey, acts: &[Act]) -> bool
    ensures { result ≡ list_all (is_act world.now key) acts.now }
{
    acts.iter().all(|act| is_act(world, key, act))
}

/// Returns whether the act fits its job.
fn is_act(world: &World, key: VehicleKey, act: &Act) -> bool
    ensures { result ≡ is_act world.now key act.now }
{
    match world.jobs.get(act.job) {
        Some(row) => {
            names_its_job(row, act)
                && is_as_acted(world, key, row, act.kind, is_finished(act.status))
        }
        None => false,
    }
}

/// Returns whether the job's phase and its load's place agree with this act.
fn is_as_acted(world: &World, key: VehicleKey, row: &JobRow, kind: ActKind, finished: bool) -> bool
    ensures { result ≡ is_as_acted world.now key row.now kind finished }
{
    match kind {
        ActKind::Pick => {
            !row.phase.is_live() || is_carried_at(key, row.origin, finished, world.place(row.load))
        }
        ActKind::Drop => {
            if finished {
                is_done(row.phase)
            } else {
                is_riding(row.phase)
            }
        }
    }
}

/// Returns whether no two vehicles have a job in common in their open trips.
pub(crate) fn are_jobs_apart(world: &World) -> bool
    ensures { result ≡ are_jobs_apart world.now }
{
    world
        .trips
        .iter()
        .all(|(order, row)| is_trip_apart(world, *order, row))
}

/// Returns whether the trip has no job in common with that of another vehicle.
fn is_trip_apart(world: &World, order: Name, row: &TripRow) -> bool
    ensures { result ≡ list_all (is_apart_from (order, row.now)) (map.entries world.now.trips) }
{
    world.trips.iter().all(|(other, further)| is_apart_from(order, row, *other, further))
}

/// Returns whether the act names the load and the station of its job.
fn names_its_job(row: &JobRow, act: &Act) -> bool
    ensures { result ≡ names_its_job row.now act.now }
{
    row.load == act.load && station_for(act.kind, row) == act.station
}

/// Returns the station where an act of a job takes place.
fn station_for(kind: ActKind, row: &JobRow) -> Name
    ensures { result ≡ station_for kind row.now }
{
    match kind {
        ActKind::Pick => row.origin,
        ActKind::Drop => row.target,
    }
}

/// Returns whether the load is at the job's origin, or on the vehicle if its pick is finished.
fn is_carried_at(key: VehicleKey, origin: Name, finished: bool, place: Option<Place>) -> bool
    ensures { result ≡ is_carried_at key origin finished place }
{
    if finished {
        is_placed_on(key, place)
    } else {
        is_placed_at(origin, place)
    }
}

/// Returns whether the load is on this vehicle.
fn is_placed_on(key: VehicleKey, place: Option<Place>) -> bool
    ensures { result ≡ is_placed_on key place }
{
    match place {
        Some(place) => place.is_on(&key),
        None => false,
    }
}

/// Returns whether a job with this phase is done.
fn is_done(phase: Phase) -> bool
    ensures { result ≡ is_done phase }
{
    match phase {
        Phase::Done => true,
        Phase::Waiting | Phase::Riding | Phase::Stopped => false,
    }
}

/// Returns whether a job with this phase is riding.
fn is_riding(phase: Phase) -> bool
    ensures { result ≡ is_riding phase }
{
    match phase {
        Phase::Riding => true,
        Phase::Waiting | Phase::Done | Phase::Stopped => false,
    }
}

/// Returns whether the trips are of the same vehicle, or have no job in common.
fn is_apart_from(order: Name, row: &TripRow, other: Name, further: &TripRow) -> bool
    ensures { result ≡ is_apart_from (order, row.now) (other, further.now) }
{
    let _orders = (order, other);
    row.vehicle == further.vehicle || !is_shared(row.acts.as_slice(), further.acts.as_slice())
}

/// Returns whether the acts have a job in common.
fn is_shared(acts: &[Act], others: &[Act]) -> bool
    ensures { result ≡ is_shared acts.now others.now }
{
    acts.iter().any(|act| is_shared_one(act, others))
}

/// Returns whether the act is of the same job as some of the others.
fn is_shared_one(act: &Act, others: &[Act]) -> bool
    ensures { result ≡ list_any (is_same_job act.now) others.now }
{
    others.iter().any(|other| act.job == other.job)
}
