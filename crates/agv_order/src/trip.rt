//! Trips.
ghost use Rattle.std.specs.Prelude.{◌≡◌, IfOk};
ghost use Rattle.agv_order.specs.Trips.{node_at};

use crate::Act;
use agv_header::{Memory, Name, VehicleKey};
use agv_layout::Edge;
use agv_message_core::Sequence;

/// An order that a vehicle carries out.
///
/// Node 0 of its way is the start, and node k + 1 the finish of edge k. The nodes up to `base` are the
/// base of the order: the vehicle may drive there. The others are its horizon (VDA 5050 2.0, order).
#[derive(Debug, Drop, PartialEq, Eq)]
pub struct Trip {
    /// The order's name (`orderId`), which is used only once.
    pub order: Name,
    /// The vehicle that carries it out.
    pub vehicle: VehicleKey,
    /// The node where it starts.
    pub start: Name,
    /// The edges that it drives, in this order: of a well-formed trip at most 200.
    pub edges: Sequence<Edge>,
    /// The place of the first node of the last message, half of that node's `sequenceId`: 0 for the order itself, and
    /// for an update the stitching node.
    pub first: u32,
    /// The place of the last node that is `released`.
    pub base: u32,
    /// The number of the last update that was sent (`orderUpdateId`), 0 for the order itself.
    pub sent: u32,
    /// The number of the last update that the vehicle has confirmed by a state with that `orderUpdateId`: `sent`, the
    /// one before, or none.
    pub confirmed: Option<u32>,
    /// The place of the last node that the vehicle has reported, half of `lastNodeSequenceId`.
    pub seen: u32,
    /// The acts on the way (the `actions` of nodes), in this order: of a well-formed trip two for each of at most four
    /// jobs. A drive has none.
    pub acts: Sequence<Act>,
}

impl Trip {
    /// Returns a trip equal to this one.
    ///
    /// Returns `Memory` only when out of memory.
    pub fn copy(&self) -> Result<Trip, Memory>
        ensures { IfOk result (λ copy. copy ≡ self.now) }
    {
        Ok(Trip {
            order: self.order,
            vehicle: self.vehicle,
            start: self.start,
            edges: self.edges.copy()?,
            first: self.first,
            base: self.base,
            sent: self.sent,
            confirmed: self.confirmed,
            seen: self.seen,
            acts: self.acts.copy()?,
        })
    }

    /// Returns the name of node `k` of the way (the start, and then the finish of each edge), or `None` past the end.
    pub fn node_at(&self, k: u32) -> Option<Name>
        ensures { result ≡ node_at self.now k }
    {
        if k == 0 {
            return Some(self.start);
        }
        let edge = self.edges.as_slice().get(k as usize - 1)?;
        Some(edge.finish)
    }
}
