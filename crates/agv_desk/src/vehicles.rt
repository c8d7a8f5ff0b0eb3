//! The calls about a vehicle: register it, place it by a person, or resync it.
ghost use Rattle.std.specs.Prelude.{◌≡◌, ◌++◌, ◌&&◌, nat_le, nat_lt, IfOk, None};
ghost use Rattle.agv_world_core.specs.Asks.{Asks};
ghost use Rattle.agv_world_core.specs.Questions.{trip_of};
ghost use Rattle.agv_desk.specs.Outcomes.{Made, decided};
ghost use Rattle.agv_desk.specs.Sizes.{IsOfSize};
ghost use Rattle.agv_desk.specs.VehicleSteps.{new_vehicle, none_sent, place_vehicle, placed, put_down, register_vehicle, vehicle_registered, resync};

use crate::acts::push_stopped_jobs;
use crate::decisions::{made_with, refused, row_update};
use crate::holds::first_held;
use crate::shared::{is_new, reference_used, standing};
use crate::sizes::is_of_size;
use crate::vehicle_rows::push_vehicle;
use crate::{Answer, Decision};
use agv_header::limits::{MAX_RECORDS, MAX_VEHICLES};
use agv_header::{Memory, Moment, Name, Refusal, Thing, VehicleKey};
use agv_order::Trip;
use agv_world_core::{Change, Counted, Fault, Floor, Sent, VehicleRow};
use std::alloc::Global;

/// Registers a vehicle at a node.
pub(crate) fn register_vehicle<F: Floor>(
    alloc: Global,
    floor: &mut F,
    key: &VehicleKey,
    node: Name,
    capacity: u32,
) -> Result<Decision, Fault>
    ensures { Asks F.facts floor.old floor.new result (λ world decision. decision ≡ decided (register_vehicle (F.facts.seats floor.old) world key.now node capacity)) }
{
    let seats = floor.seats();
    if floor.vehicle(*key)?.is_some() {
        return Ok(refused(alloc, Refusal::Exists));
    }
    if !floor.node(node)? {
        return Ok(refused(alloc, Refusal::NoNode));
    }
    if let Some((what, by)) = first_held(floor, key, &[Thing::Node(node)])? {
        return Ok(refused(alloc, Refusal::Held { what, by }));
    }
    let count = floor.count(Counted::Vehicles)?;
    if count >= MAX_VEHICLES || !may_carry(capacity, seats) {
        return Ok(refused(alloc, Refusal::Limit));
    }
    Ok(vehicle_registered(alloc, key, node, capacity)?)
}

/// Returns whether a vehicle may have this capacity.
fn may_carry(capacity: u32, seats: u32) -> bool
    ensures { result ≡ (nat_lt 0 capacity && nat_le capacity seats) }
{
    0 < capacity && capacity <= seats
}

/// Returns the effect of registering a new vehicle: its row is written, and it holds its node.
#[tactic(auto, unfolding(agv_track_holds::specs::Footprints::footprint_of, crate::specs::Outcomes::decided))]
fn vehicle_registered(
    alloc: Global,
    key: &VehicleKey,
    node: Name,
    capacity: u32,
) -> Result<Decision, Memory>
    ensures { IfOk result (λ decision. decision ≡ decided (Made (vehicle_registered key.now node capacity))) }
{
    let mut changes = Vec::new(alloc);
    changes.push(Change::Vehicle(*key, new_vehicle(capacity, node)))?;
    changes.push(Change::Hold(Thing::Node(node), Some(*key)))?;
    Ok(made_with(Answer::Done, changes))
}

/// Returns the row of a new vehicle.
fn new_vehicle(capacity: u32, node: Name) -> VehicleRow
    ensures { result ≡ (new_vehicle capacity node).row }
{
    VehicleRow {
        capacity,
        node,
        rest: None,
        last_header: None,
        reported: None,
        ready: false,
        paused: false,
        orders: none_sent(),
        instants: none_sent(),
        pending: None,
    }
}

/// Returns the counter of a topic of which no message was sent.
fn none_sent() -> Sent
    ensures { result ≡ none_sent }
{
    match Moment::of(0) {
        Some(at) => Sent { count: 0, at },
        None => unreachable!(),
    }
}

/// Places the vehicle at this node, where a person has put it. A trip larger than any of a lawful
/// world is refused with `Limit`, of which the clause says nothing.
pub(crate) fn place_vehicle<F: Floor>(
    alloc: Global,
    floor: &mut F,
    key: &VehicleKey,
    reference: Name,
    node: Name,
) -> Result<Decision, Fault>
    ensures { Asks F.facts floor.old floor.new result (λ world decision. IsOfSize (trip_of world key.now) → decision ≡ decided (place_vehicle world key.now reference node)) }
{
    if !is_new(floor, reference)? {
        return Ok(refused(alloc, Refusal::RefUsed));
    }
    let Some(row) = floor.vehicle(*key)? else {
        return Ok(refused(alloc, Refusal::NoVehicle));
    };
    if !floor.node(node)? {
        return Ok(refused(alloc, Refusal::NoNode));
    }
    if let Some((what, by)) = first_held(floor, key, &[Thing::Node(node)])? {
        return Ok(refused(alloc, Refusal::Held { what, by }));
    }
    if floor.count(Counted::References)? >= MAX_RECORDS {
        return Ok(refused(alloc, Refusal::Limit));
    }
    let trip = floor.trip(*key)?;
    if !is_of_size(&trip) {
        return Ok(refused(alloc, Refusal::Limit));
    }
    put_down(alloc, floor, key, &row, trip, reference, node)
}

/// Places the vehicle at the node, and ends its open trip, if it has one.
fn put_down<F: Floor>(
    alloc: Global,
    floor: &mut F,
    key: &VehicleKey,
    row: &VehicleRow,
    trip: Option<Trip>,
    reference: Name,
    node: Name,
) -> Result<Decision, Fault>
    requires { IsOfSize trip }
    ensures { Asks F.facts floor.old floor.new result (λ world decision. decision ≡ decided (put_down world key.now row.now trip reference node)) }
{
    let next = placed(row, node);
    let old = standing(row, trip);
    let new = standing(&next, None);
    let mut changes = Vec::new(alloc);
    push_vehicle(alloc, key, row, &old, next, &new, &mut changes)?;
    push_stopped_jobs(floor, &old.trip, &mut changes)?;
    changes.push(reference_used(reference))?;
    Ok(made_with(Answer::Done, changes))
}

/// Returns the row of a vehicle after a person has put it on a node.
fn placed(row: &VehicleRow, node: Name) -> VehicleRow
    ensures { result ≡ (placed row.now node).row }
{
    VehicleRow {
        node,
        rest: None,
        pending: None,
        ..*row
    }
}

/// Forgets the `headerId` of the vehicle's last state, for a vehicle that counts from the start again.
pub(crate) fn resync<F: Floor>(
    alloc: Global,
    floor: &mut F,
    key: &VehicleKey,
) -> Result<Decision, Fault>
    ensures { Asks F.facts floor.old floor.new result (λ world decision. decision ≡ decided (resync world key.now)) }
{
    let Some(row) = floor.vehicle(*key)? else {
        return Ok(refused(alloc, Refusal::NoVehicle));
    };
    Ok(row_update(alloc, Answer::Done, key, &row, without_last_state(&row))?)
}

/// Returns the row without the `headerId` of the last state.
fn without_last_state(row: &VehicleRow) -> VehicleRow
    ensures { result ≡ record row.now { last_header = None } }
{
    VehicleRow {
        last_header: None,
        ..*row
    }
}
