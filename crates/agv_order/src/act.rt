//! Acts: the picks and drops of a trip.
ghost use Rattle.std.specs.Prelude.{◌≡◌};
ghost use Rattle.agv_order.specs.Stops.{is_drop};

use agv_header::Name;
use agv_message_core::{ActKind, Status};

/// A pick or drop of a load on a node of a trip. Act `n` of the order `O`, counted from 0, is the
/// action `O.n` of its messages.
#[derive(Clone, Copy, Debug, PartialEq, Eq)]
pub struct Act {
    /// Whether the load is picked or dropped.
    pub kind: ActKind,
    /// The job that it belongs to.
    pub job: Name,
    /// The load of the job.
    pub load: Name,
    /// The station: the origin of the job at a pick, its target at a drop.
    pub station: Name,
    /// The place, on the way, of its node: 0 is the start, at most 200.
    pub place_at: u32,
    /// Its status, as the vehicle last reported it.
    pub status: Status,
}

/// Returns whether it is a drop, and not a pick.
pub fn is_drop(kind: ActKind) -> bool
    ensures { result ≡ is_drop kind }
{
    matches!(kind, ActKind::Drop)
}
