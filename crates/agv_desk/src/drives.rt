//! The call that starts a drive: an order that leads a vehicle to a node, without actions.
ghost use Rattle.std.specs.Prelude.{◌≡◌, Some};
ghost use Rattle.agv_world_core.specs.Asks.{Asks};
ghost use Rattle.agv_desk.specs.DriveSteps.{start_drive};
ghost use Rattle.agv_desk.specs.OrderParts.{send_drive, send_drive_trip, take_drive};
ghost use Rattle.agv_desk.specs.Outcomes.{decided};
ghost use Rattle.agv_desk.specs.Sizes.{IsShort};

use crate::Decision;
use crate::decisions::refused;
use crate::orders::{NewOrder, is_reported, plan_refusal, send_trip};
use crate::shared::{Addressee, is_cancelling, is_unready};
use agv_header::{Moment, Name, Refusal, VehicleKey};
use agv_order::Trip;
use agv_world_core::{Fault, Floor, UseKind};
use std::alloc::Global;

/// A new drive: the vehicle that gets it, the name of its order, the node where it is to go, and how many edges are
/// released.
#[derive(Clone, Copy)]
struct NewDrive<'a> {
    to: Addressee<'a>,
    name: &'a Name,
    goal: Name,
    edges: u32,
}

/// Gives a vehicle an order that leads it to this node, of which the first `edges` edges are released.
pub(crate) fn start_drive<'a, F: Floor>(
    alloc: Global,
    floor: &mut F,
    at: Moment,
    order: &'a Name,
    key: &'a VehicleKey,
    to: Name,
    edges: u32,
) -> Result<Decision, Fault>
    ensures { Asks F.facts floor.old floor.new result (λ world decision. decision ≡ decided (start_drive world (record { at = at; order = order.now; key = key.now; to = to; edges = edges }))) }
{
    if floor.used(UseKind::Order, *order)? {
        return Ok(refused(alloc, Refusal::Exists));
    }
    let Some(row) = floor.vehicle(*key)? else {
        return Ok(refused(alloc, Refusal::NoVehicle));
    };
    if !floor.node(to)? {
        return Ok(refused(alloc, Refusal::NoNode));
    }
    let drive = NewDrive {
        to: Addressee { at, key, row: &row },
        name: order,
        goal: to,
        edges,
    };
    take_drive(alloc, floor, &drive)
}

/// Sends the drive, if the vehicle can take it.
fn take_drive<F: Floor>(
    alloc: Global,
    floor: &mut F,
    drive: &NewDrive<'_>,
) -> Result<Decision, Fault>
    ensures { Asks F.facts floor.old floor.new result (λ world decision. decision ≡ decided (take_drive world (record { at = drive.now.to.at; order = drive.now.name.now; key = drive.now.to.key.now; to = drive.now.goal; edges = drive.now.edges }) drive.now.to.row.now)) }
{
    let Addressee { key, row, .. } = drive.to;
    if is_reported(row.reported, drive.name) {
        return Ok(refused(alloc, Refusal::OrderKnown));
    }
    if floor.has_trip(*key)? {
        return Ok(refused(alloc, Refusal::Busy));
    }
    if row.rest.is_some() {
        return Ok(refused(alloc, Refusal::Astray));
    }
    if is_unready(row) {
        return Ok(refused(alloc, Refusal::NotReady));
    }
    if is_cancelling(row.pending) {
        return Ok(refused(alloc, Refusal::InstantPending));
    }
    send_drive(alloc, floor, drive)
}

/// Sends the drive, if there is a plan for it.
#[tactic(auto, using(crate::proofs::outcomes::Plans::drive_short), unfolding(crate::specs::Outcomes::refuse_if_none, crate::specs::Outcomes::decided, crate::specs::OrderSteps::if_planned))]
fn send_drive<F: Floor>(
    alloc: Global,
    floor: &mut F,
    drive: &NewDrive<'_>,
) -> Result<Decision, Fault>
    ensures { Asks F.facts floor.old floor.new result (λ world decision. decision ≡ decided (send_drive world (record { at = drive.now.to.at; order = drive.now.name.now; key = drive.now.to.key.now; to = drive.now.goal; edges = drive.now.edges }) drive.now.to.row.now)) }
{
    let Some(layout) = floor.layout()? else {
        return Ok(refused(alloc, Refusal::NoWalk));
    };
    let to = &drive.to;
    let plan = Trip::plan_drive(
        alloc,
        &layout,
        *to.key,
        *drive.name,
        to.row.node,
        drive.goal,
        drive.edges,
    );
    match plan {
        Ok(trip) => send_without_stops(alloc, floor, drive, trip),
        Err(none) => Ok(refused(alloc, plan_refusal(none)?)),
    }
}

/// Sends the drive with this trip, as an order that has no stops, if no other vehicle holds part of its footprint.
fn send_without_stops<F: Floor>(
    alloc: Global,
    floor: &mut F,
    drive: &NewDrive<'_>,
    trip: Trip,
) -> Result<Decision, Fault>
    requires { IsShort (Some trip) }
    ensures { Asks F.facts floor.old floor.new result (λ world decision. decision ≡ decided (send_drive_trip world (record { at = drive.now.to.at; order = drive.now.name.now; key = drive.now.to.key.now; to = drive.now.goal; edges = drive.now.edges }) drive.now.to.row.now trip)) }
{
    let Addressee { at, key, row } = drive.to;
    let to = Addressee { at, key, row };
    let order = NewOrder {
        to,
        name: drive.name,
        stops: &[],
        edges: drive.edges,
        jobs: &[],
    };
    send_trip(alloc, floor, &order, trip)
}
