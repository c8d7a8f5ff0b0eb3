//! The call that takes a vehicle's state.
ghost use Rattle.std.specs.Prelude.{◌≡◌, ◌++◌, IfOk, List, ℕ, Some, is_some, map};
ghost use Rattle.std.specs.List.{zip};
ghost use Rattle.agv_track.specs.Progressed.{progressed};
ghost use Rattle.agv_track.specs.Reports.{renewed};
ghost use Rattle.agv_world_core.specs.Asks.{Asks};
ghost use Rattle.agv_world_core.specs.Questions.{trip_of};
ghost use Rattle.agv_world_core.specs.VehicleChanges.{vehicle_changes};
ghost use Rattle.agv_world_core.specs.declared.change.Change.TheVariants as change;
ghost use Rattle.agv_desk.specs.ActSteps.{act_moves};
ghost use Rattle.agv_desk.specs.Outcomes.{Move, decided};
ghost use Rattle.agv_desk.specs.Sizes.{IsOfSize, IsShort};
ghost use Rattle.agv_desk.specs.StateSteps.{driven, fresh_state, with_state, idle_state, pending_of, row_after, take_state, trip_left, trip_state};

use crate::acts::{push_jobs, push_moves};
use crate::decisions::{made_with, refused, row_update};
use crate::shared::standing;
use crate::sizes::is_of_size;
use crate::vehicle_rows::push_vehicle;
use crate::{Answer, Decision};
use agv_header::{Memory, Name, Refusal, VehicleKey, is_fresh};
use agv_message_core::{Sequence, StateMessage, Status};
use agv_order::{Act, Trip};
use agv_track::{Pending, Progress, judge, judge_idle};
use agv_world_core::{Change, Fault, Floor, VehicleRow};
use std::alloc::Global;

/// Takes a state message of a vehicle. A trip larger than any of a lawful world is refused with `Limit`, of
/// which the clause says nothing.
pub(crate) fn take_state<F: Floor>(
    alloc: Global,
    floor: &mut F,
    key: &VehicleKey,
    state: &StateMessage,
) -> Result<Decision, Fault>
    ensures { Asks F.facts floor.old floor.new result (λ world decision. IsOfSize (trip_of world key.now) → decision ≡ decided (take_state world key.now state.now)) }
{
    let Some(row) = floor.vehicle(*key)? else {
        return Ok(refused(alloc, Refusal::NoVehicle));
    };
    if !is_fresh(row.last_header, state.header_id) {
        return Ok(made_with(Answer::Accepted(false), Vec::new(alloc)));
    }
    let trip = floor.trip(*key)?;
    if !is_of_size(&trip) {
        return Ok(refused(alloc, Refusal::Limit));
    }
    fresh_state(alloc, floor, key, &row, trip, state)
}

/// Takes a state that is newer than the last one that was accepted.
fn fresh_state<F: Floor>(
    alloc: Global,
    floor: &mut F,
    key: &VehicleKey,
    row: &VehicleRow,
    trip: Option<Trip>,
    state: &StateMessage,
) -> Result<Decision, Fault>
    requires { IsOfSize trip }
    ensures { Asks F.facts floor.old floor.new result (λ world decision. decision ≡ decided (fresh_state world key.now row.now trip state.now)) }
{
    let Some(trip) = trip else {
        return Ok(idle_state(alloc, key, row, state)?);
    };
    if trip.order.as_str() == state.order_id.as_str() {
        return trip_state(alloc, floor, key, row, trip, state);
    }
    if has_confirmed(&trip) {
        return Ok(refused(alloc, Refusal::OtherOrder));
    }
    Ok(idle_state(alloc, key, row, state)?)
}

/// Takes the state of a vehicle that has no trip, or that has not confirmed its trip yet and
/// reports another order.
fn idle_state(
    alloc: Global,
    key: &VehicleKey,
    row: &VehicleRow,
    state: &StateMessage,
) -> Result<Decision, Memory>
    ensures { IfOk result (λ decision. decision ≡ decided (idle_state key.now row.now state.now)) }
{
    match judge_idle(row.node, pending_of(row), state) {
        Ok(over) => row_update(
            alloc,
            Answer::Accepted(true),
            key,
            row,
            with_state(row, state, over),
        ),
        Err(why) => Ok(refused(alloc, why)),
    }
}

/// Returns the pending action of a vehicle, with the number of the last instantActions message.
fn pending_of(row: &VehicleRow) -> Option<Pending>
    ensures { result ≡ pending_of row.now }
{
    let number = row.instants.count;
    row.pending.map(|kind| Pending { kind, number })
}

/// Returns the row of a vehicle after its state was accepted; `over` says whether its pending
/// action is over.
fn with_state(row: &VehicleRow, state: &StateMessage, over: bool) -> VehicleRow
    ensures { result ≡ with_state row.now state.now over }
{
    VehicleRow {
        last_header: Some(state.header_id),
        reported: Name::of_bytes(state.order_id.as_str().as_bytes()),
        ready: state.ready,
        paused: state.paused,
        pending: if over { None } else { row.pending },
        ..*row
    }
}

/// Takes a state of a vehicle on its trip.
fn trip_state<F: Floor>(
    alloc: Global,
    floor: &mut F,
    key: &VehicleKey,
    row: &VehicleRow,
    trip: Trip,
    state: &StateMessage,
) -> Result<Decision, Fault>
    requires { IsOfSize (Some trip) }
    ensures { Asks F.facts floor.old floor.new result (λ world decision. decision ≡ decided (trip_state world key.now row.now trip state.now)) }
{
    let progress = match judge(&trip, pending_of(row), state) {
        Ok(progress) => progress,
        Err(why) => return Ok(refused(alloc, why)),
    };
    let ended = progress.end.is_some();
    let copied = trip.acts.copy()?;
    let acts = copied.as_slice();
    let mut changes = driven_changes(alloc, key, row, trip, acts, state, &progress)?;
    push_jobs(floor, ended, acts, &progress.statuses, &mut changes)?;
    Ok(made_with(Answer::Accepted(true), changes))
}

/// Returns the changes of a vehicle that has driven on (`driven` of the definition), and of the loads
/// whose acts become finished.
fn driven_changes(
    alloc: Global,
    key: &VehicleKey,
    row: &VehicleRow,
    trip: Trip,
    acts: &[Act],
    state: &StateMessage,
    progress: &Progress,
) -> Result<Vec<Change>, Memory>
    requires { IsShort (Some trip) }
    ensures { IfOk result (λ changes. changes.items ≡ vehicle_changes key.now (Some (record { row = row.now; trip = Some trip })) (driven row.now trip state.now progress.now) ++ map (λ (move : Move). change.Load move.load move.place) (act_moves key.now trip.order (zip acts.now progress.now.statuses))) }
{
    let next = row_after(row, &trip, state, progress);
    let new = standing(&next, trip_left(alloc, &trip, progress)?);
    let old = standing(row, Some(trip));
    let mut changes = Vec::new(alloc);
    push_vehicle(alloc, key, row, &old, next, &new, &mut changes)?;
    push_moves(key, acts, &progress.statuses, &mut changes)?;
    Ok(changes)
}

/// Returns the row of a vehicle after a state of its trip.
fn row_after(row: &VehicleRow, trip: &Trip, state: &StateMessage, progress: &Progress) -> VehicleRow
    ensures { result ≡ row_after row.now trip.now state.now progress.now }
{
    VehicleRow {
        node: trip.node_at(progress.seen).unwrap_or(row.node),
        rest: progress.rest,
        ..with_state(row, state, progress.pending_over)
    }
}

/// Returns the trip after a state, or `None` if it has ended.
fn trip_left(alloc: Global, trip: &Trip, progress: &Progress) -> Result<Option<Trip>, Memory>
    ensures { IfOk result (λ left. left ≡ trip_left trip.now progress.now) }
{
    if progress.end.is_some() {
        return Ok(None);
    }
    Ok(Some(progressed(alloc, trip, progress)?))
}

/// Returns the trip with this progress.
fn progressed(alloc: Global, trip: &Trip, progress: &Progress) -> Result<Trip, Memory>
    ensures { IfOk result (λ next. next ≡ progressed trip.now progress.now) }
{
    let acts = renewed(alloc, trip.acts.as_slice(), &progress.statuses)?;
    Ok(Trip {
        order: trip.order,
        vehicle: trip.vehicle,
        start: trip.start,
        edges: trip.edges.copy()?,
        first: trip.first,
        base: trip.base,
        sent: trip.sent,
        confirmed: Some(progress.confirmed),
        seen: progress.seen,
        acts: Sequence::from(acts),
    })
}

/// Returns the acts with these statuses.
fn renewed(alloc: Global, acts: &[Act], statuses: &[Status]) -> Result<Vec<Act>, Memory>
    ensures { IfOk result (λ made. made.items ≡ renewed acts.now statuses.now) }
{
    let mut made = Vec::new(alloc);
    for (act, status) in acts.iter().zip(statuses) {
        made.push(Act {
            status: *status,
            ..*act
        })?;
    }
    Ok(made)
}

/// Returns whether the vehicle has confirmed an update of its trip.
fn has_confirmed(trip: &Trip) -> bool
    ensures { result ≡ is_some trip.now.confirmed }
{
    trip.confirmed.is_some()
}
