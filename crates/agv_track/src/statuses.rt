//! Tests of a trip's acts with their new statuses.
ghost use Rattle.std.specs.Prelude.{◌≡◌, ◌&&◌, not, nat_eq};
ghost use Rattle.std.specs.List.{list_all, list_any, zip};
ghost use Rattle.std.specs.Cmp.Lexicographic.{pointwise};
ghost use Rattle.agv_order.specs.Statuses.{is_active, is_final, is_finished};
ghost use Rattle.agv_order.specs.Stops.{is_drop};
ghost use Rattle.agv_order.specs.WellFormed.{is_reached, is_picked, is_in_turn, is_over};
ghost use Rattle.agv_order.specs.declared.act.Act.{Act as TheAct};
ghost use Rattle.agv_track.specs.Reports.{with_status, renewed};
ghost use Rattle.agv_track.specs.Judgements.{goes_back, is_running, is_carried_out};
ghost use Rattle.agv_track.specs.Acts.{is_pick_of};

use agv_header::Name;
use agv_message_core::Status;
use agv_order::{Act, is_drop, is_final, is_finished, merge};

/// Returns whether some new status can't follow the old one.
pub(crate) fn goes_back(acts: &[Act], statuses: &[Status]) -> bool
    ensures { result ≡ list_any goes_back (zip acts.now statuses.now) }
{
    acts.iter()
        .zip(statuses)
        .any(|(act, status)| merge(act.status, *status).is_none())
}

/// Returns whether each act is finished only if the vehicle has reached its node.
pub(crate) fn are_reached(seen: u32, acts: &[Act], statuses: &[Status]) -> bool
    ensures { result ≡ list_all (λ pair. is_reached seen (with_status pair)) (zip acts.now statuses.now) }
{
    acts.iter()
        .zip(statuses)
        .all(|(act, status)| is_reached(seen, act, *status))
}

/// Returns whether the act is finished only if the vehicle has reached its node.
fn is_reached(seen: u32, act: &Act, status: Status) -> bool
    ensures { result ≡ is_reached seen (with_status (act.now, status)) }
{
    !is_finished(status) || act.place_at <= seen
}

/// Returns whether each act is a finished drop only if its job's load was picked.
pub(crate) fn are_in_turn(acts: &[Act], statuses: &[Status]) -> bool
    ensures { result ≡ list_all (λ pair. is_in_turn (renewed acts.now statuses.now) (with_status pair)) (zip acts.now statuses.now) }
{
    acts.iter()
        .zip(statuses)
        .all(|(act, status)| is_in_turn(acts, statuses, act, *status))
}

/// Returns whether the act is a finished drop only if its job's load was picked.
fn is_in_turn(acts: &[Act], statuses: &[Status], act: &Act, status: Status) -> bool
    ensures { result ≡ is_in_turn (renewed acts.now statuses.now) (with_status (act.now, status)) }
{
    !is_done_drop(act, status) || is_picked(act.job, acts, statuses)
}

/// Returns whether the act is a finished drop.
fn is_done_drop(act: &Act, status: Status) -> bool
    ensures { result ≡ (is_drop act.now.kind && is_finished status) }
{
    is_drop(act.kind) && is_finished(status)
}

/// Returns whether the load of the job was picked.
fn is_picked(job: Name, acts: &[Act], statuses: &[Status]) -> bool
    ensures { result ≡ list_any (λ pair. is_pick_of job (with_status pair)) (zip acts.now statuses.now) }
{
    acts.iter()
        .zip(statuses)
        .any(|(act, status)| is_pick_of(job, act, *status))
}

/// Returns whether the act is a finished pick of the job.
fn is_pick_of(job: Name, act: &Act, status: Status) -> bool
    ensures { result ≡ is_pick_of job (with_status (act.now, status)) }
{
    !is_drop(act.kind) && is_finished(status) && act.job == job
}

/// Returns whether an act is active: begun, and not over. The statuses are those of the acts.
pub(crate) fn is_running(acts: &[Act], statuses: &[Status]) -> bool
    ensures { result ≡ list_any (λ pair. is_running (with_status pair)) (zip acts.now statuses.now) }
{
    acts.iter()
        .zip(statuses)
        .any(|(_, status)| is_active(*status))
}

/// Returns whether an action with this status is active: begun, and not over.
fn is_active(status: Status) -> bool
    ensures { result ≡ is_active status }
{
    matches!(
        status,
        Status::Initializing | Status::Running | Status::Paused
    )
}

/// Returns whether each act is over.
pub(crate) fn are_over(acts: &[Act], statuses: &[Status]) -> bool
    ensures { result ≡ list_all (λ pair. is_over (with_status pair)) (zip acts.now statuses.now) }
{
    acts.iter()
        .zip(statuses)
        .all(|(_, status)| is_final(*status))
}

/// Returns whether each act is finished.
pub(crate) fn are_carried_out(acts: &[Act], statuses: &[Status]) -> bool
    ensures { result ≡ list_all (λ pair. is_carried_out (with_status pair)) (zip acts.now statuses.now) }
{
    acts.iter()
        .zip(statuses)
        .all(|(_, status)| is_finished(*status))
}
