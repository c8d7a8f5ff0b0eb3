//! What several families of calls share: references, the goals of loads, and what is sent to a vehicle or held by it.
ghost use Rattle.std.specs.Prelude.{◌≡◌, ◌≢◌, not, Bool, IfOk, Some, if◌then◌else◌};
ghost use Rattle.std.specs.Option.{option_map};
ghost use Rattle.agv_stock.specs.declared.goal.Goal.TheVariants as goals;
ghost use Rattle.agv_world_core.specs.Asks.{Asks};
ghost use Rattle.agv_world_core.specs.declared.change.Change.TheVariants as row;
ghost use Rattle.agv_desk.specs.OrderSteps.{is_cancelling};
ghost use Rattle.agv_desk.specs.Shared.{goal_at, goal_of, is_in_job, is_new, reference_key};

use agv_header::{Moment, Name, VehicleKey};
use agv_message_core::InstantKind;
use agv_order::Trip;
use agv_stock::Goal;
use agv_track_holds::Standing;
use agv_world_core::{Change, Fault, Floor, Sent, UseKey, UseKind, VehicleRow};

/// A vehicle to which an order message is sent, and the moment of the call that sends it.
#[derive(Clone, Copy)]
pub(crate) struct Addressee<'a> {
    pub(crate) at: Moment,
    pub(crate) key: &'a VehicleKey,
    /// Its row before the call.
    pub(crate) row: &'a VehicleRow,
}

/// Returns whether a reference was not used yet.
pub(crate) fn is_new<F: Floor>(floor: &mut F, reference: Name) -> Result<bool, Fault>
    ensures { Asks F.facts floor.old floor.new result (λ world new. new ≡ is_new world reference) }
{
    Ok(!floor.used(UseKind::Reference, reference)?)
}

/// Returns the change that notes the reference as used.
pub(crate) fn reference_used(reference: Name) -> Change
    ensures { result ≡ row.Used (reference_key reference) }
{
    Change::Used(UseKey {
        kind: UseKind::Reference,
        name: reference,
    })
}

/// Returns a station as a goal, with room for one load if one more fits.
pub(crate) fn station_goal<F: Floor>(floor: &mut F, station: Name) -> Result<Goal, Fault>
    ensures is { Asks F.facts floor.old floor.new result (λ world goal. goal ≡ goal_of world (Some station)) }
    ensures stored { IfOk result (λ goal. goal ≢ goals.Checking) }
{
    let has_room = floor.has_room(station)?;
    Ok(goal_at(station, has_room))
}

/// Returns a station as a goal: with room for one load if one more fits, and `Unknown` if the
/// station is unknown.
fn goal_at(station: Name, has_room: Option<bool>) -> Goal
    ensures is { result ≡ goal_at station (option_map (λ (fits : Bool). if fits then 1 else 0) has_room) }
    ensures stored { result ≢ goals.Checking }
{
    match has_room {
        Some(true) => Goal::At(station, 1),
        Some(false) => Goal::At(station, 0),
        None => Goal::Unknown,
    }
}

/// Returns whether a load is in a live job.
pub(crate) fn is_in_job<F: Floor>(floor: &mut F, load: Name) -> Result<bool, Fault>
    ensures { Asks F.facts floor.old floor.new result (λ world live. live ≡ is_in_job world load) }
{
    Ok(floor.job_of(load)?.is_some())
}

/// Returns whether the desk is not in control of the vehicle, or the vehicle cannot drive.
pub(crate) fn is_unready(row: &VehicleRow) -> bool
    ensures { result ≡ not row.now.ready }
{
    !row.ready
}

/// Returns whether a cancelOrder is pending.
pub(crate) fn is_cancelling(pending: Option<InstantKind>) -> bool
    ensures { result ≡ is_cancelling pending }
{
    matches!(pending, Some(InstantKind::CancelOrder))
}

/// Returns the row of a vehicle after this order message was sent to it.
pub(crate) fn sent_row(row: &VehicleRow, at: Moment, number: u32) -> VehicleRow
    ensures { result ≡ record row.now { orders = record { count = number; at = at } } }
{
    VehicleRow {
        orders: Sent { count: number, at },
        ..*row
    }
}

/// Returns where the vehicle stands with this trip: its node, its rest and the trip.
pub(crate) fn standing(row: &VehicleRow, trip: Option<Trip>) -> Standing
    ensures { result ≡ record { node = row.now.node; rest = row.now.rest; trip = trip } }
{
    Standing {
        node: row.node,
        rest: row.rest,
        trip,
    }
}
