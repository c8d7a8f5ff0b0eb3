//! The jobs of an order.
ghost use Rattle.std.specs.Prelude.{◌≡◌, ◌++◌, count_by, IfOk, OnOk, List, ℕ, map};
ghost use Rattle.agv_order.specs.StopPlaces.{stop_picks};
ghost use Rattle.agv_world_core.specs.Asks.{Asks};
ghost use Rattle.agv_world_core.specs.declared.change.Change.TheVariants as row;
ghost use Rattle.agv_world_core.specs.declared.row.JobRow.{JobRow as RowOf};
ghost use Rattle.agv_desk.specs.OrderSteps.{job_for, jobs_for, named, riding, riding_by, waits};
ghost use Rattle.agv_desk.specs.FoundJobs.{AreFound};

use crate::jobs::is_waiting;
use agv_header::{Memory, Name};
use agv_message_core::Sequence;
use agv_order::{Stop, is_drop, job_named};
use agv_stock::{Job, Phase};
use agv_world_core::{Change, Fault, Floor, JobRow};
use std::alloc::Global;

/// Returns the jobs of the stops, in their order, or `None` if one of them is unknown. It asks for
/// each job once.
pub(crate) fn jobs_for<F: Floor>(
    alloc: Global,
    floor: &mut F,
    stops: &[Stop],
) -> Result<Option<Sequence<Job>>, Fault>
    ensures { Asks F.facts floor.old floor.new result (λ world jobs. jobs ≡ jobs_for world stops.now) }
{
    let mut jobs = Vec::new(alloc);
    for stop in stops {
        let Some(job) = job_for(floor, jobs.as_slice(), stop)? else {
            return Ok(None);
        };
        jobs.push(job)?;
    }
    Ok(Some(Sequence::from(jobs)))
}

/// Returns the job of a stop: one of `jobs` if it was found before, or else the one that the floor has.
fn job_for<F: Floor>(floor: &mut F, jobs: &[Job], stop: &Stop) -> Result<Option<Job>, Fault>
    ensures { Asks F.facts floor.old floor.new result (λ world job. AreFound world jobs.now → job ≡ job_for world stop.now) }
{
    if let Some(job) = job_named(jobs, stop.job) {
        return Ok(Some(job));
    }
    match floor.job(stop.job)? {
        Some(row) => Ok(Some(named(&stop.job, &row))),
        None => Ok(None),
    }
}

/// Returns the job with this name and this row.
fn named(name: &Name, row: &JobRow) -> Job
    ensures { result ≡ named name.now row.now }
{
    Job {
        name: *name,
        load: row.load,
        origin: row.origin,
        target: row.target,
        phase: row.phase,
    }
}

/// Returns whether the job waits for a vehicle.
pub(crate) fn waits(job: &Job) -> bool
    ensures { result ≡ waits job.now }
{
    is_waiting(job.phase)
}

/// Returns how many of the stops are picks.
pub(crate) fn count_picks(stops: &[Stop]) -> usize
    ensures { result ≡ count_by stop_picks stops.now }
{
    stops.iter().filter(|stop| stop_picks(stop)).count()
}

/// Returns the rows of an order's jobs once they ride.
pub(crate) fn riding(
    alloc: Global,
    stops: &[Stop],
    jobs: &[Job],
) -> Result<Vec<(Name, JobRow)>, Memory>
    ensures { IfOk result (λ rides. rides.items ≡ riding stops.now jobs.now) }
{
    let rides = stops
        .iter()
        .zip(jobs)
        .filter_map(|(stop, job)| riding_by(stop, job))
        .collect(alloc)?;
    Ok(rides)
}

/// Returns the row of a stop's job once it rides, or `None` for a drop: so each job is listed once.
fn riding_by(stop: &Stop, job: &Job) -> Option<(Name, JobRow)>
    ensures { result ≡ riding_by (stop.now, job.now) }
{
    if !stop_picks(stop) {
        return None;
    }
    let row = JobRow {
        load: job.load,
        origin: job.origin,
        target: job.target,
        phase: Phase::Riding,
    };
    Some((job.name, row))
}

/// Returns whether the stop is a pick.
fn stop_picks(stop: &Stop) -> bool
    ensures { result ≡ stop_picks stop.now }
{
    !is_drop(stop.kind)
}

/// Pushes the changes of the jobs.
pub(crate) fn push_jobs(jobs: &[(Name, JobRow)], changes: &mut Vec<Change>) -> Result<(), Memory>
    ensures { OnOk result (changes.new.items ≡ changes.old.items ++ map (λ (job : List ℕ × RowOf). row.Job job.0 job.1) jobs.now) }
{
    for (name, row) in jobs {
        changes.push(Change::Job(*name, *row))?;
    }
    Ok(())
}
