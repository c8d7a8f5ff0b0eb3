//! The place on its way where a state puts a vehicle.
ghost use Rattle.std.specs.Prelude.{◌≡◌, Ok, Some};
ghost use Rattle.agv_track.specs.Reached.{is_at_start, reported_node, names_node, is_our_node, is_before, base_of};
ghost use Rattle.agv_track.specs.Judgements.{way_refusals, first_of};

use agv_header::Refusal;
use agv_message_core::StateMessage;
use agv_order::Trip;

/// Returns the place on the way of the node that the vehicle has reached.
pub(crate) fn reported_node(state: &StateMessage) -> u32
    ensures { result ≡ reported_node state.now }
{
    if is_at_start(state) {
        0
    } else {
        state.last_seq / 2
    }
}

/// Returns the first refusal of the update and the node that the state reports.
#[tactic(auto, unfolding(crate::specs::Judgements::way_refusals))]
pub(crate) fn way_refusal(trip: &Trip, state: &StateMessage) -> Option<Refusal>
    ensures { result ≡ first_of (way_refusals trip.now state.now) }
{
    if trip.sent < state.update {
        return Some(Refusal::UpdateNotSent);
    }
    if is_before(state.update, trip.confirmed) {
        return Some(Refusal::UpdateBackwards);
    }
    if !is_our_node(trip, state) {
        return Some(Refusal::NotOurNode);
    }
    if reported_node(state) < trip.seen {
        return Some(Refusal::Backwards);
    }
    if base_of(trip, state.update) < reported_node(state) {
        return Some(Refusal::BeyondBase);
    }
    None
}

/// Returns whether the update is earlier than the confirmed one.
fn is_before(update: u32, confirmed: Option<u32>) -> bool
    ensures { result ≡ is_before update confirmed }
{
    match confirmed {
        Some(confirmed) => update < confirmed,
        None => false,
    }
}

/// Returns whether the state names a node of the trip.
fn is_our_node(trip: &Trip, state: &StateMessage) -> bool
    ensures { result ≡ is_our_node trip.now state.now }
{
    is_at_start(state) || names_node(trip, state)
}

/// Returns whether node 0 is still to be traversed.
fn is_at_start(state: &StateMessage) -> bool
    ensures { result ≡ is_at_start state.now }
{
    state.node_seqs.as_slice().iter().any(|seq| *seq == 0)
}

/// Returns whether the last sequence number is that of a node of the trip, and the last node's name is this node's.
fn names_node(trip: &Trip, state: &StateMessage) -> bool
    ensures { result ≡ names_node trip.now state.now }
{
    if state.last_seq % 2 != 0 {
        return false;
    }
    match trip.node_at(state.last_seq / 2) {
        Some(name) => name.as_str() == state.last_node.as_str(),
        None => false,
    }
}

/// Returns the place of the last node that is released for a vehicle which has this update.
fn base_of(trip: &Trip, update: u32) -> u32
    ensures { result ≡ base_of trip.now update }
{
    if update == trip.sent {
        trip.base
    } else {
        trip.first
    }
}
