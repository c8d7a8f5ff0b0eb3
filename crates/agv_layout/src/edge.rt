//! Edges: stretches of track in one direction.

use agv_header::Name;

/// The ends of an edge, which leads from its start to its finish.
#[derive(Clone, Copy, Debug, PartialEq, Eq)]
pub struct EdgeEnds {
    pub start: Name,
    pub finish: Name,
}

/// An edge and its two nodes.
#[derive(Clone, Copy, Debug, PartialEq, Eq)]
pub struct Edge {
    pub id: Name,
    pub start: Name,
    pub finish: Name,
}
