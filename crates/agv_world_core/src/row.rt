//! The rows of vehicles, trips and jobs, without their keys.
ghost use Rattle.std.specs.Prelude.{◌≡◌};

use agv_header::{Moment, Name, VehicleKey};
use agv_message_core::{InstantKind, Sequence};
use agv_order::Act;
use agv_stock::Phase;
use std::alloc::AllocError;

/// How many messages of a topic were sent to a vehicle, and when the last one was made: 0 and the
/// moment 0 if none was sent. The next message has the number `count + 1`.
#[derive(Clone, Copy, Debug, PartialEq, Eq)]
pub struct Sent {
    pub count: u32,
    pub at: Moment,
}

/// What is known of a vehicle, without its open trip.
#[derive(Clone, Copy, Debug, PartialEq, Eq)]
pub struct VehicleRow {
    /// How many loads it can carry at once: 1 to 4.
    pub capacity: u32,
    /// The node where it stands, or the last one that it has reported (`lastNodeId`).
    pub node: Name,
    /// The edge and the node to which it may have driven on after a cancelled order.
    pub rest: Option<(Name, Name)>,
    /// The `headerId` of the last state that was accepted; `None` before the first one and after a resync.
    pub last_header: Option<u32>,
    /// The last `orderId` that it has reported, if that is a name.
    pub reported: Option<Name>,
    /// Whether the desk is in control of it and it can drive.
    pub ready: bool,
    /// Whether its last accepted state says `paused`.
    pub paused: bool,
    /// The order messages that were sent to it.
    pub orders: Sent,
    /// The instantActions messages that were sent to it.
    pub instants: Sent,
    /// The action of the last instantActions message, until the vehicle has reported its end or a person has placed
    /// the vehicle.
    pub pending: Option<InstantKind>,
}

/// An open trip, without its order's name and its edges.
#[derive(Debug, Drop)]
pub struct TripRow {
    /// The vehicle that carries it out.
    pub vehicle: VehicleKey,
    /// The node where it starts.
    pub start: Name,
    /// The index of the node with which the last message begins: half of that node's `sequenceId`.
    pub first: u32,
    /// The index of the last node that is `released`.
    pub base: u32,
    /// The `orderUpdateId` of the last message that was sent.
    pub sent: u32,
    /// The `orderUpdateId` of the last update that the vehicle has confirmed; `None` before the first one.
    pub confirmed: Option<u32>,
    /// The index of the last node that the vehicle has reported: half of `lastNodeSequenceId`.
    pub seen: u32,
    /// The picks and drops on the way, in this order.
    pub acts: Sequence<Act>,
}

impl Clone for TripRow {
    ghost use Rattle.std.specs.Prelude.{◌≡◌};

    ghost is_clone = { λ row clone. clone ≡ row };

    fn clone(&self) -> Result<TripRow, AllocError> {
        Ok(TripRow {
            vehicle: self.vehicle,
            start: self.start,
            first: self.first,
            base: self.base,
            sent: self.sent,
            confirmed: self.confirmed,
            seen: self.seen,
            acts: self.acts.clone()?,
        })
    }
}

/// A job, without its name.
#[derive(Clone, Copy, Debug, PartialEq, Eq)]
pub struct JobRow {
    pub load: Name,
    pub origin: Name,
    pub target: Name,
    pub phase: Phase,
}

impl JobRow {
    ghost use Rattle.agv_world_core.specs.Questions.{is_live_for, is_live_to};

    /// Returns whether the job is live and for this load.
    pub fn is_live_for(&self, load: Name) -> bool
        ensures { result ≡ is_live_for load self.now }
    {
        self.phase.is_live() && self.load == load
    }

    /// Returns whether the job is live and goes to this station.
    pub fn is_live_to(&self, station: Name) -> bool
        ensures { result ≡ is_live_to station self.now }
    {
        self.phase.is_live() && self.target == station
    }
}
