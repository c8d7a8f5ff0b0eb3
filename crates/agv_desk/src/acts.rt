//! What happens to the loads and jobs of a trip as its acts are carried out, and as it ends.
ghost use Rattle.std.specs.Prelude.{◌≡◌, ◌++◌, ◌∷◌, [], ℕ, true, List, map, OnOk};
ghost use Rattle.std.specs.List.{zip};
ghost use Rattle.std.specs.Option.{option_map};
ghost use Rattle.agv_world_core.specs.Asks.{Asks};
ghost use Rattle.agv_world_core.specs.declared.change.Change.TheVariants as row;
ghost use Rattle.agv_world_core.specs.declared.row.JobRow.{JobRow as JobRowOf};
ghost use Rattle.agv_desk.specs.ActSteps.{act_jobs, act_moves, as_it_is, becomes_finished, job_in, jobs_stopped, phase_by, taken_to};
ghost use Rattle.agv_desk.specs.Outcomes.{Move};

use agv_header::{Memory, VehicleKey};
use agv_message_core::{ActKind, Status};
use agv_order::{Act, Trip};
use agv_stock::{Phase, Place};
use agv_world_core::{Change, Fault, Floor, JobRow};

/// Pushes the change of the load of each act that becomes finished, in the order of the acts.
pub(crate) fn push_moves(
    key: &VehicleKey,
    acts: &[Act],
    statuses: &[Status],
    changes: &mut Vec<Change>,
) -> Result<(), Memory>
    ensures { (order : List ℕ) → OnOk result (changes.new.items ≡ changes.old.items ++ map (λ (move : Move). row.Load move.load move.place) (act_moves key.now order (zip acts.now statuses.now))) }
{
    for (act, status) in acts.iter().zip(statuses) {
        move_load(key, act, *status, changes)?;
    }
    Ok(())
}

/// Pushes the change of the load of an act, if the act becomes finished.
fn move_load(
    key: &VehicleKey,
    act: &Act,
    status: Status,
    changes: &mut Vec<Change>,
) -> Result<(), Memory>
    ensures { (order : List ℕ) → OnOk result (changes.new.items ≡ changes.old.items ++ map (λ (move : Move). row.Load move.load move.place) (act_moves key.now order ((act.now, status) ∷ []))) }
{
    if becomes_finished(act, status) {
        changes.push(Change::Load(act.load, taken_to(key, act)))?;
    }
    Ok(())
}

/// Returns where the act takes its load: a pick to the vehicle, and a drop to the station.
fn taken_to(key: &VehicleKey, act: &Act) -> Place
    ensures { result ≡ taken_to key.now act.now.kind act.now.station }
{
    match act.kind {
        ActKind::Pick => Place::Vehicle(*key),
        ActKind::Drop => Place::Station(act.station),
    }
}

/// Pushes the change of each job whose phase changes, in the order of the acts; `ended` says whether
/// the trip has ended.
pub(crate) fn push_jobs<F: Floor>(
    floor: &mut F,
    ended: bool,
    acts: &[Act],
    statuses: &[Status],
    changes: &mut Vec<Change>,
) -> Result<(), Fault>
    ensures { Asks F.facts floor.old floor.new result (λ world done. changes.new.items ≡ changes.old.items ++ map (λ (job : List ℕ × JobRowOf). row.Job job.0 job.1) (act_jobs world ended (zip acts.now statuses.now))) }
{
    for (act, status) in acts.iter().zip(statuses) {
        push_job(floor, ended, act, *status, changes)?;
    }
    Ok(())
}

/// Pushes the changes of the jobs that stop if a trip, if there is one, ends with its acts as they are.
pub(crate) fn push_stopped_jobs<F: Floor>(
    floor: &mut F,
    trip: &Option<Trip>,
    changes: &mut Vec<Change>,
) -> Result<(), Fault>
    ensures { Asks F.facts floor.old floor.new result (λ world done. changes.new.items ≡ changes.old.items ++ map (λ (job : List ℕ × JobRowOf). row.Job job.0 job.1) (jobs_stopped world trip.now)) }
{
    match trip {
        Some(trip) => stop_acts(floor, trip.acts.as_slice(), changes),
        None => Ok(()),
    }
}

/// Pushes the changes of the jobs that stop if a trip ends with these acts as they are.
fn stop_acts<F: Floor>(floor: &mut F, acts: &[Act], changes: &mut Vec<Change>) -> Result<(), Fault>
    ensures { Asks F.facts floor.old floor.new result (λ world done. changes.new.items ≡ changes.old.items ++ map (λ (job : List ℕ × JobRowOf). row.Job job.0 job.1) (act_jobs world true (map as_it_is acts.now))) }
{
    for act in acts {
        push_job(floor, true, act, act.status, changes)?;
    }
    Ok(())
}

/// Pushes the change of the job of an act, if its phase changes; `ended` says whether the trip has ended.
fn push_job<F: Floor>(
    floor: &mut F,
    ended: bool,
    act: &Act,
    status: Status,
    changes: &mut Vec<Change>,
) -> Result<(), Fault>
    ensures { Asks F.facts floor.old floor.new result (λ world done. changes.new.items ≡ changes.old.items ++ map (λ (job : List ℕ × JobRowOf). row.Job job.0 job.1) (act_jobs world ended ((act.now, status) ∷ []))) }
{
    if let Some(row) = job_in(floor, act, phase_by(ended, act, status))? {
        changes.push(Change::Job(act.job, row))?;
    }
    Ok(())
}

/// Returns the row of the act's job in this phase, or `None` if there is no phase or the job is unknown.
fn job_in<F: Floor>(floor: &mut F, act: &Act, phase: Option<Phase>) -> Result<Option<JobRow>, Fault>
    ensures { Asks F.facts floor.old floor.new result (λ world row. option_map (λ (job : JobRowOf). (act.now.job, job)) row ≡ job_in world act.now.job phase) }
{
    let Some(phase) = phase else {
        return Ok(None);
    };
    match floor.job(act.job)? {
        Some(row) => Ok(Some(JobRow { phase, ..row })),
        None => Ok(None),
    }
}

/// Returns the phase to which a drop changes its job, or `None` if it does not change it; `ended`
/// says whether the trip has ended.
fn phase_by(ended: bool, act: &Act, status: Status) -> Option<Phase>
    ensures { result ≡ phase_by ended (act.now, status) }
{
    if matches!(act.kind, ActKind::Pick) {
        None
    } else if becomes_finished(act, status) {
        Some(Phase::Done)
    } else if ended && !matches!(status, Status::Finished) {
        Some(Phase::Stopped)
    } else {
        None
    }
}

/// Returns whether the act becomes finished.
fn becomes_finished(act: &Act, status: Status) -> bool
    ensures { result ≡ becomes_finished (act.now, status) }
{
    matches!(status, Status::Finished) && !matches!(act.status, Status::Finished)
}
