//! State messages.

use crate::{Sequence, Status, Text};
use agv_header::Moment;

/// A vehicle's report of itself (VDA 5050 2.0, state), as far as the desk reads it.
#[derive(Debug, Drop, PartialEq, Eq)]
pub struct StateMessage {
    /// The message's number, one more than the last one's.
    pub header_id: u32,
    /// When it was sent.
    pub at: Moment,
    pub manufacturer: Text,
    pub serial: Text,
    /// The order that the vehicle has or had last; empty if there was none.
    pub order_id: Text,
    /// The number of the order's last update that the vehicle accepted.
    pub update: u32,
    /// The last node that it reached, or on which it stands; empty if none is known.
    pub last_node: Text,
    /// That node's sequence number in the order.
    pub last_seq: u32,
    /// The sequence numbers of the nodes still to be traversed.
    pub node_seqs: Sequence<u32>,
    /// The actions of the order and the instant actions, each with its id and its status.
    pub actions: Sequence<(Text, Status)>,
    /// Whether the desk is in control: an automatic mode, no emergency stop, no fatal error.
    pub ready: bool,
    /// Whether the vehicle is paused.
    pub paused: bool,
}
