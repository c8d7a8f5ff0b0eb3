//! The actions that a state lists.
ghost use Rattle.std.specs.Prelude.{◌≡◌, length, ◌≤◌};
ghost use Rattle.agv_track.specs.ActionId.{id_text};
ghost use Rattle.agv_track.specs.Reports.{is_twice, told, has_act_twice, status_after, statuses_after, has_pending_twice, pending_told, is_pending_over, is_cancel, is_pending_cancel, is_cancelled};
ghost use Rattle.agv_track.specs.Judgements.{nth_status, eight, new_statuses};

use crate::Pending;
use crate::action_id::ActionId;
use agv_message_core::{InstantKind, StateMessage, Status, Text};
use agv_order::Trip;

/// Returns whether the id of some act is listed twice or more.
pub(crate) fn has_act_twice(trip: &Trip, state: &StateMessage) -> bool
    ensures { result ≡ has_act_twice state.now.actions trip.now.order trip.now.acts }
{
    let order = trip.order;
    let reports = state.actions.as_slice();
    let mut acts = trip.acts.as_slice().iter().enumerate();
    acts.any(|(n, _)| is_twice(reports, ActionId::Act { order, n }))
}

/// Returns the statuses of the acts after the state, filled up to eight with Waiting.
pub(crate) fn statuses_after(trip: &Trip, state: &StateMessage) -> [Status; 8]
    ensures { result ≡ eight (new_statuses trip.now state.now) }
{
    let mut statuses = [Status::Waiting; 8];
    for n in 0..8 {
        statuses[n] = status_after(trip, state, n);
    }
    statuses
}

/// Returns the status of act n after the state, or Waiting if there is no such act.
fn status_after(trip: &Trip, state: &StateMessage, n: usize) -> Status
    ensures { result ≡ nth_status (new_statuses trip.now state.now) n }
{
    let order = trip.order;
    match trip.acts.as_slice().get(n) {
        Some(act) => told(state.actions.as_slice(), ActionId::Act { order, n }).unwrap_or(
            act.status,
        ),
        None => Status::Waiting,
    }
}

/// Returns whether the id of the pending action is listed twice or more.
pub(crate) fn has_pending_twice(pending: Option<Pending>, state: &StateMessage) -> bool
    ensures { result ≡ has_pending_twice state.now.actions pending }
{
    match pending {
        Some(Pending { number, .. }) => is_twice(
            state.actions.as_slice(),
            ActionId::Instant { number },
        ),
        None => false,
    }
}

/// Returns whether the id is listed twice or more.
fn is_twice(reports: &[(Text, Status)], id: ActionId) -> bool
    ensures { result ≡ is_twice reports.now (id_text id) }
{
    reports
        .iter()
        .filter(|report| id.is(report.0.as_str()))
        .count()
        > 1
}

/// Returns whether the pending action is listed as finished or failed.
pub(crate) fn is_pending_over(pending: Option<Pending>, state: &StateMessage) -> bool
    ensures { result ≡ is_pending_over state.now.actions pending }
{
    matches!(
        pending_told(pending, state),
        Some(Status::Finished | Status::Failed)
    )
}

/// Returns whether the pending cancelOrder is listed as finished.
pub(crate) fn is_cancelled(pending: Option<Pending>, state: &StateMessage) -> bool
    ensures { result ≡ is_cancelled state.now.actions pending }
{
    is_pending_cancel(pending) && matches!(pending_told(pending, state), Some(Status::Finished))
}

/// Returns whether the pending action is a cancelOrder.
fn is_pending_cancel(pending: Option<Pending>) -> bool
    ensures { result ≡ is_pending_cancel pending }
{
    match pending {
        Some(Pending { kind, .. }) => matches!(kind, InstantKind::CancelOrder),
        None => false,
    }
}

/// Returns the status of the pending action, if it is listed.
fn pending_told(pending: Option<Pending>, state: &StateMessage) -> Option<Status>
    ensures { result ≡ pending_told state.now.actions pending }
{
    let number = pending?.number;
    told(state.actions.as_slice(), ActionId::Instant { number })
}

/// Returns the status listed for the id, if it is listed; the first if there are several.
fn told(reports: &[(Text, Status)], id: ActionId) -> Option<Status>
    ensures { result ≡ told reports.now (id_text id) }
{
    let report = reports.iter().find(|report| id.is(report.0.as_str()))?;
    Some(report.1)
}
