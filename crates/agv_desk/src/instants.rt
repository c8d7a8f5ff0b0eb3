//! The calls that send a vehicle an instant action: to cancel its order, to pause or to resume.
ghost use Rattle.std.specs.Prelude.{◌≡◌, IfOk, Some};
ghost use Rattle.agv_world_core.specs.Asks.{Asks};
ghost use Rattle.agv_desk.specs.InstantSteps.{cancel, instruct, pause, resume};
ghost use Rattle.agv_desk.specs.Outcomes.{decided};

use crate::decisions::{refused, row_update};
use crate::{Answer, Decision};
use agv_header::{Memory, Moment, Refusal, VehicleKey, next_number};
use agv_message_core::InstantKind;
use agv_world_core::{Fault, Floor, Sent, VehicleRow};
use std::alloc::Global;

/// Sends the vehicle a cancelOrder for its open order.
pub(crate) fn cancel<F: Floor>(
    alloc: Global,
    floor: &mut F,
    at: Moment,
    key: &VehicleKey,
) -> Result<Decision, Fault>
    ensures { Asks F.facts floor.old floor.new result (λ world decision. decision ≡ decided (cancel world at key.now)) }
{
    let Some(row) = floor.vehicle(*key)? else {
        return Ok(refused(alloc, Refusal::NoVehicle));
    };
    if !floor.has_trip(*key)? {
        return Ok(refused(alloc, Refusal::NoOrder));
    }
    Ok(instruct(alloc, at, key, &row, InstantKind::CancelOrder)?)
}

/// Sends the vehicle a startPause.
pub(crate) fn pause<F: Floor>(
    alloc: Global,
    floor: &mut F,
    at: Moment,
    key: &VehicleKey,
) -> Result<Decision, Fault>
    ensures { Asks F.facts floor.old floor.new result (λ world decision. decision ≡ decided (pause world at key.now)) }
{
    let Some(row) = floor.vehicle(*key)? else {
        return Ok(refused(alloc, Refusal::NoVehicle));
    };
    Ok(instruct(alloc, at, key, &row, InstantKind::StartPause)?)
}

/// Sends the vehicle a stopPause.
pub(crate) fn resume<F: Floor>(
    alloc: Global,
    floor: &mut F,
    at: Moment,
    key: &VehicleKey,
) -> Result<Decision, Fault>
    ensures { Asks F.facts floor.old floor.new result (λ world decision. decision ≡ decided (resume world at key.now)) }
{
    let Some(row) = floor.vehicle(*key)? else {
        return Ok(refused(alloc, Refusal::NoVehicle));
    };
    Ok(instruct(alloc, at, key, &row, InstantKind::StopPause)?)
}

/// Sends the vehicle an instant action, if none is pending.
fn instruct(
    alloc: Global,
    at: Moment,
    key: &VehicleKey,
    row: &VehicleRow,
    kind: InstantKind,
) -> Result<Decision, Memory>
    ensures { IfOk result (λ decision. decision ≡ decided (instruct at key.now row.now kind)) }
{
    if row.pending.is_some() {
        return Ok(refused(alloc, Refusal::InstantPending));
    }
    let Some(number) = next_number(row.instants.count) else {
        return Ok(refused(alloc, Refusal::Spent));
    };
    row_update(
        alloc,
        Answer::Instructed(number),
        key,
        row,
        instructed(row, at, number, kind),
    )
}

/// Returns the row of a vehicle after this instant action was sent to it.
fn instructed(row: &VehicleRow, at: Moment, number: u32, kind: InstantKind) -> VehicleRow
    ensures { result ≡ record row.now { instants = record { count = number; at = at }; pending = Some kind } }
{
    VehicleRow {
        instants: Sent { count: number, at },
        pending: Some(kind),
        ..*row
    }
}
