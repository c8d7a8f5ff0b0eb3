//! Which count a call increases.
ghost use Rattle.std.specs.Prelude.{◌≡◌};
ghost use Rattle.agv_desk.specs.Counts.{adds_to as adds_to_of, counted_by as counted_by_of};

use crate::{Answer, Call};
use agv_world_core::Counted;

/// Returns which count a call with this answer increases by one: that of vehicles, loads, jobs, orders or
/// references. Returns `None` if the call was refused, or increases no count.
pub fn counted_by(call: &Call, answer: &Answer) -> Option<Counted>
    ensures { result ≡ counted_by_of call.now answer.now }
{
    match answer {
        Answer::Refused(_) => None,
        _ => adds_to(call),
    }
}

/// Returns which count a call increases by one if it is not refused.
fn adds_to(call: &Call) -> Option<Counted>
    ensures { result ≡ adds_to_of call.now }
{
    match call {
        Call::RegisterVehicle { .. } => Some(Counted::Vehicles),
        Call::RegisterLoad { .. } => Some(Counted::Loads),
        Call::CorrectLoad { .. } => Some(Counted::References),
        Call::LeaveLoad { .. } => Some(Counted::References),
        Call::AddJob { .. } => Some(Counted::Jobs),
        Call::StartOrder { .. } => Some(Counted::Orders),
        Call::StartDrive { .. } => Some(Counted::Orders),
        Call::PlaceVehicle { .. } => Some(Counted::References),
        Call::Stocktake { .. } => Some(Counted::References),
        _ => None,
    }
}
