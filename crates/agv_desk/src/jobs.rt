//! The calls about jobs.
ghost use Rattle.std.specs.Prelude.{◌≡◌, IfOk};
ghost use Rattle.agv_stock.specs.Rooms.{station_of_place};
ghost use Rattle.agv_world_core.specs.Asks.{Asks};
ghost use Rattle.agv_desk.specs.JobSteps.{is_waiting, add_job, job_written, stop_job};
ghost use Rattle.agv_desk.specs.Outcomes.{Made, decided};

use crate::decisions::{made_with, refused};
use crate::shared::{is_in_job, station_goal};
use crate::{Answer, Decision};
use agv_header::limits::MAX_RECORDS;
use agv_header::{Memory, Name, Refusal};
use agv_stock::{Phase, Place, can_job, station_of_place};
use agv_world_core::{Change, Counted, Fault, Floor, JobRow};
use std::alloc::Global;

/// Adds a job that takes a load to a station.
pub(crate) fn add_job<F: Floor>(
    alloc: Global,
    floor: &mut F,
    job: Name,
    load: Name,
    to: Name,
) -> Result<Decision, Fault>
    ensures { Asks F.facts floor.old floor.new result (λ world decision. decision ≡ decided (add_job world job load to)) }
{
    let known = floor.job(job)?.is_some();
    let place = floor.place(load)?;
    let goal = station_goal(floor, to)?;
    let live = is_in_job(floor, load)?;
    if let Err(why) = can_job(known, place, live, goal) {
        return Ok(refused(alloc, why));
    }
    let Some(origin) = station_where(place) else {
        return Ok(refused(alloc, Refusal::Elsewhere));
    };
    if floor.count(Counted::Jobs)? >= MAX_RECORDS {
        return Ok(refused(alloc, Refusal::Limit));
    }
    let row = JobRow {
        load,
        origin,
        target: to,
        phase: Phase::Waiting,
    };
    Ok(job_written(alloc, job, row)?)
}

/// Returns the station where a load is, if it is at one.
fn station_where(place: Option<Place>) -> Option<Name>
    ensures { result ≡ station_of_place place }
{
    match place {
        Some(place) => station_of_place(place),
        None => None,
    }
}

/// Stops a waiting job.
pub(crate) fn stop_job<F: Floor>(alloc: Global, floor: &mut F, job: Name) -> Result<Decision, Fault>
    ensures { Asks F.facts floor.old floor.new result (λ world decision. decision ≡ decided (stop_job world job)) }
{
    let Some(row) = floor.job(job)? else {
        return Ok(refused(alloc, Refusal::NoJob));
    };
    if !is_waiting(row.phase) {
        return Ok(refused(alloc, Refusal::JobState));
    }
    let stopped = JobRow {
        phase: Phase::Stopped,
        ..row
    };
    Ok(job_written(alloc, job, stopped)?)
}

/// Returns whether a job in this phase waits for a vehicle.
pub(crate) fn is_waiting(phase: Phase) -> bool
    ensures { result ≡ is_waiting phase }
{
    match phase {
        Phase::Waiting => true,
        Phase::Riding | Phase::Done | Phase::Stopped => false,
    }
}

/// Returns the effect of writing the row of a job.
fn job_written(alloc: Global, job: Name, row: JobRow) -> Result<Decision, Memory>
    ensures { IfOk result (λ decision. decision ≡ decided (Made (job_written job row))) }
{
    let mut changes = Vec::new(alloc);
    changes.push(Change::Job(job, row))?;
    Ok(made_with(Answer::Done, changes))
}
