//! Where a vehicle is.

use agv_header::Name;
use agv_order::Trip;

/// Where a vehicle is, as far as the desk knows.
#[derive(Debug, Drop)]
pub struct Standing {
    /// The node that it reached last (`lastNodeId`), or where a person placed it.
    pub node: Name,
    /// The next edge of its way and the node where that finishes, to which it may have gone on when its order was
    /// cancelled before the last released node.
    pub rest: Option<(Name, Name)>,
    /// Its open order.
    pub trip: Option<Trip>,
}
