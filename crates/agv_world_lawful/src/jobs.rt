//! Whether loads and jobs follow their rules, each by itself.
ghost use Rattle.std.specs.Prelude.{◌≡◌, IfOk};
ghost use Rattle.agv_world_core.specs.Lawful.{is_to_drop};
ghost use Rattle.agv_world_lawful.specs.LoadTests.{are_jobs, are_loads_few, are_places, has_one_job_each, has_station, is_carried, is_in_phase, is_job, is_job_row, is_place, is_placed_at};

use agv_header::limits::MAX_RECORDS;
use agv_header::{Memory, Name};
use agv_order::{Act, is_drop, is_finished};
use agv_stock::{Phase, Place};
use agv_world_core::{JobRow, Names, World, has_drop_among};
use std::alloc::Global;

/// Returns whether there are at most 1,000,000 loads and 1,000,000 jobs.
pub(crate) fn are_loads_few(world: &World) -> bool
    ensures { result ≡ are_loads_few world.now }
{
    world.loads.len() <= MAX_RECORDS && world.jobs.len() <= MAX_RECORDS
}

/// Returns whether the station or the vehicle of each load's place is known.
pub(crate) fn are_places(world: &World) -> bool
    ensures { result ≡ are_places world.now }
{
    world.loads.iter().all(|(_, place)| is_place(world, *place))
}

/// Returns whether the station or the vehicle of a place is known.
fn is_place(world: &World, place: Place) -> bool
    ensures { result ≡ is_place world.now place }
{
    match place {
        Place::Station(id) => has_station(world, id),
        Place::Vehicle(key) => world.vehicles.get(key).is_some(),
        Place::Checking | Place::Left => true,
    }
}

/// Returns whether each row of a job follows the rules.
pub(crate) fn are_jobs(world: &World) -> bool
    ensures { result ≡ are_jobs world.now }
{
    world
        .jobs
        .iter()
        .all(|(job, row)| is_job_row(world, *job, row))
}

/// Returns whether the row of a job follows the rules: its names are known, and its phase agrees
/// with its load and its trip.
fn is_job_row(world: &World, job: Name, row: &JobRow) -> bool
    ensures { result ≡ is_job_row world.now (job, row.now) }
{
    is_job(world, row) && is_in_phase(world, job, row)
}

/// Returns whether the load and the stations of a job are known.
fn is_job(world: &World, row: &JobRow) -> bool
    ensures { result ≡ is_job world.now row.now }
{
    world.loads.get(row.load).is_some()
        && has_station(world, row.origin)
        && has_station(world, row.target)
}

/// Returns whether the station is known.
fn has_station(world: &World, id: Name) -> bool
    ensures { result ≡ has_station world.now id }
{
    world.stations.get(id).is_some()
}

/// Returns whether the load of a waiting job is at the origin, and some open trip has an unfinished
/// drop of a riding one.
fn is_in_phase(world: &World, job: Name, row: &JobRow) -> bool
    ensures { result ≡ is_in_phase world.now job row.now row.now.phase }
{
    match row.phase {
        Phase::Waiting => is_placed_at(row.origin, world.place(row.load)),
        Phase::Riding => is_carried(world, job),
        Phase::Done | Phase::Stopped => true,
    }
}

/// Returns whether some open trip has an unfinished drop of the job.
fn is_carried(world: &World, job: Name) -> bool
    ensures { result ≡ is_carried world.now job }
{
    world
        .trips
        .iter()
        .any(|(_, row)| has_drop_among(job, row.acts.as_slice()))
}

/// Returns whether no load has two live jobs.
pub(crate) fn has_one_job_each(alloc: Global, world: &World) -> Result<bool, Memory>
    ensures { IfOk result (λ has. has ≡ has_one_job_each world.now) }
{
    let mut noted = Names::new(alloc);
    for (_, row) in world.jobs.iter() {
        if row.phase.is_live() {
            if noted.contains(row.load) {
                return Ok(false);
            }
            noted.insert(row.load)?;
        }
    }
    Ok(true)
}

/// Returns whether the load is at this station.
pub(crate) fn is_placed_at(station: Name, place: Option<Place>) -> bool
    ensures { result ≡ is_placed_at station place }
{
    match place {
        Some(place) => place.is_at(station),
        None => false,
    }
}

/// Returns whether the act is an unfinished drop.
pub(crate) fn is_to_drop(act: &Act) -> bool
    ensures { result ≡ is_to_drop act.now }
{
    is_drop(act.kind) && !is_finished(act.status)
}
