//! The call that releases more edges of an order.
ghost use Rattle.std.specs.Prelude.{◌≡◌, ◌+◌, ◌==◌, IfOk, if◌then◌else◌};
ghost use Rattle.agv_order.specs.Releases.{released};
ghost use Rattle.agv_world_core.specs.Asks.{Asks};
ghost use Rattle.agv_world_core.specs.Questions.{trip_of};
ghost use Rattle.agv_desk.specs.OrderSteps.{advance, can_release, is_last_confirmed, send_update, take_update, trip_for, update_sent};
ghost use Rattle.agv_desk.specs.Outcomes.{Made, decided};
ghost use Rattle.agv_desk.specs.Sizes.{IsOfSize, IsShort};

use crate::decisions::{made_with, refused};
use crate::holds::first_held;
use crate::shared::{Addressee, is_cancelling, is_unready, sent_row, standing};
use crate::sizes::is_of_size;
use crate::vehicle_rows::push_vehicle;
use crate::{Answer, Decision};
use agv_header::{Memory, Moment, Name, Refusal, VehicleKey, next_number};
use agv_order::Trip;
use agv_track_holds::{Standing, footprint};
use agv_world_core::{Fault, Floor};
use std::alloc::Global;

/// Releases this many more edges of an open order. A trip larger than any of a lawful world is
/// refused with `Limit`, of which the clause says nothing.
pub(crate) fn advance<F: Floor>(
    alloc: Global,
    floor: &mut F,
    at: Moment,
    key: &VehicleKey,
    order: &Name,
    update: u32,
    edges: u32,
) -> Result<Decision, Fault>
    ensures { Asks F.facts floor.old floor.new result (λ world decision. IsOfSize (trip_of world key.now) → decision ≡ decided (advance world at key.now order.now update edges)) }
{
    let Some(row) = floor.vehicle(*key)? else {
        return Ok(refused(alloc, Refusal::NoVehicle));
    };
    let found = floor.trip(*key)?;
    if !is_of_size(&found) {
        return Ok(refused(alloc, Refusal::Limit));
    }
    let Some(trip) = trip_for(found, order) else {
        return Ok(refused(alloc, Refusal::NoOrder));
    };
    let to = Addressee { at, key, row: &row };
    take_update(alloc, floor, &to, trip, update, edges)
}

/// Returns the open trip if it is of this order.
fn trip_for(found: Option<Trip>, order: &Name) -> Option<Trip>
    ensures trip { result ≡ trip_for found order.now }
    ensures size { IsOfSize found → IsOfSize result }
{
    match found {
        Some(trip) if trip.order == *order => Some(trip),
        _ => None,
    }
}

/// Sends the update, if it is the next one and the vehicle can take it.
fn take_update<F: Floor>(
    alloc: Global,
    floor: &mut F,
    to: &Addressee<'_>,
    trip: Trip,
    update: u32,
    edges: u32,
) -> Result<Decision, Fault>
    requires { IsOfSize (Some trip) }
    ensures { Asks F.facts floor.old floor.new result (λ world decision. decision ≡ decided (take_update world to.now.at to.now.key.now to.now.row.now trip update edges)) }
{
    if !is_next(update, trip.sent) {
        return Ok(refused(alloc, Refusal::WrongUpdate { sent: trip.sent }));
    }
    if !is_last_confirmed(trip.confirmed, trip.sent) {
        return Ok(refused(alloc, Refusal::NotConfirmed));
    }
    if is_unready(to.row) {
        return Ok(refused(alloc, Refusal::NotReady));
    }
    if is_cancelling(to.row.pending) {
        return Ok(refused(alloc, Refusal::InstantPending));
    }
    send_update(alloc, floor, to, trip, update, edges)
}

/// Returns whether the update follows the last one that was sent.
fn is_next(update: u32, sent: u32) -> bool
    ensures { result ≡ (update == sent + 1) }
{
    sent.checked_add(1) == Some(update)
}

/// Returns whether the vehicle has confirmed the last update that was sent.
fn is_last_confirmed(confirmed: Option<u32>, sent: u32) -> bool
    ensures { result ≡ is_last_confirmed confirmed sent }
{
    confirmed == Some(sent)
}

/// Sends the update, if it stays on the way and no other vehicle holds part of the new footprint.
fn send_update<F: Floor>(
    alloc: Global,
    floor: &mut F,
    to: &Addressee<'_>,
    trip: Trip,
    update: u32,
    edges: u32,
) -> Result<Decision, Fault>
    requires { IsOfSize (Some trip) }
    ensures { Asks F.facts floor.old floor.new result (λ world decision. decision ≡ decided (send_update world to.now.at to.now.key.now to.now.row.now trip update edges)) }
{
    let Some(next) = release(&trip, edges)? else {
        return Ok(refused(alloc, Refusal::Beyond));
    };
    let new = standing(to.row, Some(next));
    let things = footprint(alloc, &new)?;
    if let Some((what, by)) = first_held(floor, to.key, &things)? {
        return Ok(refused(alloc, Refusal::Held { what, by }));
    }
    let Some(number) = next_number(to.row.orders.count) else {
        return Ok(refused(alloc, Refusal::Spent));
    };
    let Standing { trip: next, .. } = new;
    Ok(update_sent(alloc, to, Some(trip), next, update, number)?)
}

/// Returns the trip with this many more edges released, or `None` if that is not possible.
fn release(trip: &Trip, edges: u32) -> Result<Option<Trip>, Memory>
    requires { IsOfSize (Some trip.now) }
    ensures { IfOk result (λ next. next ≡ (if can_release trip.now edges then Some (released trip.now edges) else None)) }
{
    let mut next = trip.copy()?;
    match next.release(edges) {
        Ok(()) => Ok(Some(next)),
        Err(_) => Ok(None),
    }
}

/// Returns the effect of sending this update of the trip.
fn update_sent(
    alloc: Global,
    to: &Addressee<'_>,
    old: Option<Trip>,
    new: Option<Trip>,
    update: u32,
    number: u32,
) -> Result<Decision, Memory>
    requires old_short { IsShort old }
    requires new_short { IsShort new }
    ensures { IfOk result (λ decision. decision ≡ decided (Made (update_sent to.now.at to.now.key.now to.now.row.now old new update number))) }
{
    let before = standing(to.row, old);
    let after = standing(to.row, new);
    let mut changes = Vec::new(alloc);
    let sent = sent_row(to.row, to.at, number);
    push_vehicle(alloc, to.key, to.row, &before, sent, &after, &mut changes)?;
    Ok(made_with(Answer::Update(update), changes))
}
