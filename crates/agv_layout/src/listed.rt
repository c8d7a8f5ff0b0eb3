//! The rows of a layout.
ghost use Rattle.std.specs.Prelude.{◌≡◌, ◌++◌, map, IfOk, OnOk};
ghost use Rattle.std.specs.BTreeMap as tree;
ghost use Rattle.std.specs.BTreeSet as set;
ghost use Rattle.agv_header.specs.Name.{name_cmp};
ghost use Rattle.agv_layout.specs.declared.row.LayoutRow.TheVariants as row;
ghost use Rattle.agv_layout.specs.LayoutOf.{edge_row, station_row, rows_in};

use crate::{EdgeEnds, Layout, LayoutRow, StationSite};
use agv_header::{Memory, Name};
use std::alloc::Global;
use std::collections::{BTreeMap, BTreeSet};

impl Layout {
    /// Lists the rows of this layout: its nodes, its edges and its stations, each in the order of their names.
    /// [`Layout::of_rows`] makes the same layout from them.
    ///
    /// Returns `Memory` only when out of memory.
    pub fn rows(&self, alloc: Global) -> Result<Vec<LayoutRow>, Memory>
        ensures rows { IfOk result (λ rows. rows.items ≡ rows_in self.now) }
    {
        let mut rows = Vec::new(alloc);
        push_nodes(&mut rows, &self.nodes)?;
        push_edges(&mut rows, &self.edges)?;
        push_stations(&mut rows, &self.stations)?;
        Ok(rows)
    }
}

/// Adds the rows of nodes.
fn push_nodes(rows: &mut Vec<LayoutRow>, nodes: &BTreeSet<Name>) -> Result<(), Memory>
    ensures items { OnOk result (rows.new.items ≡ rows.old.items ++ map (λ id. row.Node id) nodes.now.keys) }
    ensures ordered { set.IsOrdered name_cmp nodes.now }
{
    for id in nodes {
        rows.push(LayoutRow::Node { id: *id })?;
    }
    Ok(())
}

/// Adds the rows of edges.
fn push_edges(rows: &mut Vec<LayoutRow>, edges: &BTreeMap<Name, EdgeEnds>) -> Result<(), Memory>
    ensures items { OnOk result (rows.new.items ≡ rows.old.items ++ map edge_row edges.now.entries) }
    ensures ordered { tree.IsOrdered name_cmp edges.now }
{
    for (id, ends) in edges {
        rows.push(LayoutRow::Edge {
            id: *id,
            start: ends.start,
            finish: ends.finish,
        })?;
    }
    Ok(())
}

/// Adds the rows of stations.
fn push_stations(
    rows: &mut Vec<LayoutRow>,
    stations: &BTreeMap<Name, StationSite>,
) -> Result<(), Memory>
    ensures items { OnOk result (rows.new.items ≡ rows.old.items ++ map station_row stations.now.entries) }
    ensures ordered { tree.IsOrdered name_cmp stations.now }
{
    for (id, site) in stations {
        rows.push(LayoutRow::Station {
            id: *id,
            node: site.node,
            capacity: site.capacity,
        })?;
    }
    Ok(())
}
