//! The rows of a layout, as a file or a table lists them.
ghost use Rattle.std.specs.Prelude.{◌↔◌, ◌⊎◌, ◌<◌, IsTrue};
ghost use Rattle.agv_header.specs.Name.{IsName};
ghost use Rattle.agv_layout.specs.Rows.{IsOverLimit, id_in};

use agv_header::Name;
use agv_header::limits::{MAX_LAYOUT_EDGES, MAX_LAYOUT_NODES, MAX_LAYOUT_STATIONS};

/// A row of a layout: one node, edge or station.
#[derive(Clone, Copy, Debug, PartialEq, Eq)]
pub enum LayoutRow {
    /// A place where a vehicle can stand.
    Node { id: Name },
    /// A stretch of track from one node to another.
    Edge { id: Name, start: Name, finish: Name },
    /// A place for loads at a node, where `capacity` loads fit.
    Station { id: Name, node: Name, capacity: u32 },
}

impl LayoutRow {
    /// Proves that the id of a row is a name. It does nothing: a proof calls it for its clause.
    pub fn name_law(&self)
        ensures { IsName (id_in self.now) }
    {
        let _bytes = match self {
            LayoutRow::Node { id } => id.as_bytes(),
            LayoutRow::Edge { id, .. } => id.as_bytes(),
            LayoutRow::Station { id, .. } => id.as_bytes(),
        };
    }
}

/// Returns whether there are more than 500 nodes, 1,500 edges or 500 stations among the rows.
pub(crate) fn are_over_limit(rows: &[LayoutRow]) -> bool
    ensures { IsTrue result ↔ IsOverLimit rows.now }
{
    let mut nodes: usize = 0;
    let mut edges: usize = 0;
    let mut stations: usize = 0;
    for row in rows {
        match row {
            LayoutRow::Node { .. } => nodes += 1,
            LayoutRow::Edge { .. } => edges += 1,
            LayoutRow::Station { .. } => stations += 1,
        }
    }
    are_too_many(nodes, edges, stations)
}

/// Returns whether the numbers are over the limits of a layout.
fn are_too_many(nodes: usize, edges: usize, stations: usize) -> bool
    ensures { IsTrue result ↔ ((500 < nodes) ⊎ ((1500 < edges) ⊎ (500 < stations))) }
{
    nodes > MAX_LAYOUT_NODES || edges > MAX_LAYOUT_EDGES || stations > MAX_LAYOUT_STATIONS
}
