//! The progress of a trip.

use agv_header::Name;
use agv_message_core::Status;

/// How a trip ends.
#[derive(Clone, Copy, Debug, PartialEq, Eq)]
pub enum End {
    /// All its acts are finished.
    Done,
    /// It was cancelled, or an act has failed.
    Stopped,
}

/// The progress of a trip after a state of its vehicle.
#[derive(Clone, Copy, Debug, PartialEq, Eq)]
pub struct Progress {
    /// The place on the way of the last node that the vehicle has reached.
    pub seen: u32,
    /// The number of the last update that the vehicle has accepted.
    pub confirmed: u32,
    /// The statuses of the acts, in their order. The others, up to eight, are Waiting.
    pub statuses: [Status; 8],
    /// Whether the pending action is over, finished or failed.
    pub pending_over: bool,
    /// How the trip ends, if it ends.
    pub end: Option<End>,
    /// The edge and the node where a vehicle whose order was cancelled may be, and which it holds.
    pub rest: Option<(Name, Name)>,
}
