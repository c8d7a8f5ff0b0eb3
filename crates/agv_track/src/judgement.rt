//! Judging a state against the trip of its vehicle.
ghost use Rattle.std.specs.Prelude.{◌≡◌, ◌≤◌, ◌&&◌, ◌||◌, not, length};
ghost use Rattle.std.specs.List.{list_all, list_any, zip};
ghost use Rattle.agv_order.specs.WellFormed.{is_reached, is_in_turn, is_over};
ghost use Rattle.agv_track.specs.Reached.{reported_node};
ghost use Rattle.agv_track.specs.Reports.{has_act_twice, has_pending_twice, is_pending_over, is_cancelled};
ghost use Rattle.agv_track.specs.Acts.{AreNew};
ghost use Rattle.agv_track.specs.Judgements.{new_statuses, new_acts, goes_back, is_running, is_through, end_by, end_after, next_of, rest_after, eight, progress_of, act_refusals, first_of, judged};

use crate::reached::{reported_node, way_refusal};
use crate::reports::{
    has_act_twice, has_pending_twice, is_cancelled, is_pending_over, statuses_after,
};
use crate::statuses::{are_carried_out, are_in_turn, are_over, are_reached, goes_back, is_running};
use crate::{End, Pending, Progress};
use agv_header::{Name, Refusal};
use agv_message_core::{StateMessage, Status};
use agv_order::Trip;

/// Judges a state of the trip's order against the trip: returns the progress of the trip, or a refusal.
/// It takes no memory.
///
/// The vehicle has reached node 0 if that is still to be traversed, and otherwise the last node that the
/// state names. An act that the state does not list keeps its status. The refusals, in this order:
///
/// - `UpdateNotSent`: the state has a later update than the last one that was sent.
/// - `UpdateBackwards`: it has an earlier one than the confirmed one.
/// - `NotOurNode`: the sequence number of its last node is odd or past the way, or the name is not that node's.
/// - `Backwards`: the node is before the one that the vehicle has reached already.
/// - `BeyondBase`: the node is not released by the update that the vehicle has.
/// - `ActionTwice`: the id of an act or of the pending action is listed twice or more.
/// - `ActionBackwards`: the status of an act can't follow its last one ([`merge`](agv_order::merge)).
/// - `ActionEarly`: an act is finished whose node is not reached.
/// - `DropFirst`: a drop is finished whose pick is not.
/// - `CancelEarly`: the pending cancelOrder is finished while an act is active.
///
/// The trip ends if the last node is reached and each act is over, or otherwise if the pending
/// cancelOrder is finished.
pub fn judge(
    trip: &Trip,
    pending: Option<Pending>,
    state: &StateMessage,
) -> Result<Progress, Refusal>
    requires few_acts { length trip.now.acts ≤ 8 }
    ensures judged { result ≡ judged trip.now pending state.now }
{
    if let Some(refusal) = way_refusal(trip, state) {
        return Err(refusal);
    }
    let statuses = statuses_after(trip, state);
    if let Some(refusal) = act_refusal(trip, pending, state, &statuses) {
        return Err(refusal);
    }
    Ok(Progress {
        seen: reported_node(state),
        confirmed: state.update,
        statuses,
        pending_over: is_pending_over(pending, state),
        end: end_after(trip, pending, state, &statuses),
        rest: rest_after(trip, pending, state, &statuses),
    })
}

/// Returns the first refusal of the actions that the state lists.
#[tactic(auto, unfolding(crate::specs::Judgements::act_refusals))]
fn act_refusal(
    trip: &Trip,
    pending: Option<Pending>,
    state: &StateMessage,
    statuses: &[Status],
) -> Option<Refusal>
    requires { AreNew trip.now state.now statuses.now }
    ensures { result ≡ first_of (act_refusals trip.now pending state.now) }
{
    if is_twice(trip, pending, state) {
        return Some(Refusal::ActionTwice);
    }
    if some_go_back(trip, state, statuses) {
        return Some(Refusal::ActionBackwards);
    }
    if some_are_early(trip, state, statuses) {
        return Some(Refusal::ActionEarly);
    }
    if some_drop_is_first(trip, state, statuses) {
        return Some(Refusal::DropFirst);
    }
    if is_cancelled(pending, state) && some_run(trip, state, statuses) {
        return Some(Refusal::CancelEarly);
    }
    None
}

/// Returns whether the state lists the id of an act, or that of the pending action, twice or more.
fn is_twice(trip: &Trip, pending: Option<Pending>, state: &StateMessage) -> bool
    ensures { result ≡ (has_act_twice state.now.actions trip.now.order trip.now.acts || has_pending_twice state.now.actions pending) }
{
    has_act_twice(trip, state) || has_pending_twice(pending, state)
}

/// Returns whether some act would go back. Here and below, `statuses` are those after the state.
fn some_go_back(trip: &Trip, state: &StateMessage, statuses: &[Status]) -> bool
    requires { AreNew trip.now state.now statuses.now }
    ensures { result ≡ list_any goes_back (zip trip.now.acts (new_statuses trip.now state.now)) }
{
    goes_back(trip.acts.as_slice(), statuses)
}

/// Returns whether some act would be finished before the vehicle has reached its node.
fn some_are_early(trip: &Trip, state: &StateMessage, statuses: &[Status]) -> bool
    requires { AreNew trip.now state.now statuses.now }
    ensures { result ≡ not (list_all (is_reached (reported_node state.now)) (new_acts trip.now state.now)) }
{
    !are_reached(reported_node(state), trip.acts.as_slice(), statuses)
}

/// Returns whether some drop would be finished before its pick.
fn some_drop_is_first(trip: &Trip, state: &StateMessage, statuses: &[Status]) -> bool
    requires { AreNew trip.now state.now statuses.now }
    ensures { result ≡ not (list_all (is_in_turn (new_acts trip.now state.now)) (new_acts trip.now state.now)) }
{
    !are_in_turn(trip.acts.as_slice(), statuses)
}

/// Returns whether some act would be active.
fn some_run(trip: &Trip, state: &StateMessage, statuses: &[Status]) -> bool
    requires { AreNew trip.now state.now statuses.now }
    ensures { result ≡ list_any is_running (new_acts trip.now state.now) }
{
    is_running(trip.acts.as_slice(), statuses)
}

/// Returns how the trip ends, if it ends.
fn end_after(
    trip: &Trip,
    pending: Option<Pending>,
    state: &StateMessage,
    statuses: &[Status],
) -> Option<End>
    requires { AreNew trip.now state.now statuses.now }
    ensures { result ≡ end_after trip.now pending state.now }
{
    if is_through(trip, state, statuses) {
        Some(end_of(trip, state, statuses))
    } else if is_cancelled(pending, state) {
        Some(End::Stopped)
    } else {
        None
    }
}

/// Returns whether the last node would be reached and each act over.
fn is_through(trip: &Trip, state: &StateMessage, statuses: &[Status]) -> bool
    requires { AreNew trip.now state.now statuses.now }
    ensures { result ≡ is_through trip.now state.now }
{
    reported_node(state) as usize == trip.edges.len() && all_are_over(trip, state, statuses)
}

/// Returns whether each act would be over.
fn all_are_over(trip: &Trip, state: &StateMessage, statuses: &[Status]) -> bool
    requires { AreNew trip.now state.now statuses.now }
    ensures { result ≡ list_all is_over (new_acts trip.now state.now) }
{
    are_over(trip.acts.as_slice(), statuses)
}

/// Returns how the trip ends once it is through: `Done` if each act is finished.
fn end_of(trip: &Trip, state: &StateMessage, statuses: &[Status]) -> End
    requires { AreNew trip.now state.now statuses.now }
    ensures { result ≡ end_by (new_acts trip.now state.now) }
{
    if are_carried_out(trip.acts.as_slice(), statuses) {
        End::Done
    } else {
        End::Stopped
    }
}

/// Returns the edge and the node to which a vehicle whose order is cancelled may have gone on.
fn rest_after(
    trip: &Trip,
    pending: Option<Pending>,
    state: &StateMessage,
    statuses: &[Status],
) -> Option<(Name, Name)>
    requires { AreNew trip.now state.now statuses.now }
    ensures { result ≡ rest_after trip.now pending state.now }
{
    if !is_through(trip, state, statuses) && is_cancelled(pending, state) {
        next_of(trip, reported_node(state))
    } else {
        None
    }
}

/// Returns the edge after node k and the node where it finishes, if they are released.
fn next_of(trip: &Trip, k: u32) -> Option<(Name, Name)>
    ensures { result ≡ next_of trip.now k }
{
    if k >= trip.base {
        return None;
    }
    let edge = trip.edges.as_slice().get(k as usize)?;
    Some((edge.id, edge.finish))
}
