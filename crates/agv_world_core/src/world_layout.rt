//! The layout of the world in memory.
ghost use Rattle.std.specs.Prelude.{◌≡◌, ◌++◌, map, Ok, Err, IfOk, OnOk, MatchResult};
ghost use Rattle.std.specs.FinMap as finite;
ghost use Rattle.agv_layout.specs.LayoutOf.{layout_of, nodes_of, rows_in, edge_row, station_row};
ghost use Rattle.agv_layout.specs.declared.row.LayoutRow.TheVariants as row;
ghost use Rattle.agv_world_core.specs.Questions.{given, layout_set};
ghost use Rattle.agv_world_core.specs.Told.{layout_of_tables, world_of};

use crate::World;
use agv_header::Memory;
use agv_layout::{Layout, LayoutFault, LayoutRow};
use std::alloc::Global;

impl World {
    /// Returns the layout, or `None` before it is set.
    ///
    /// Returns `Memory` if an allocation was refused.
    pub fn layout(&self, alloc: Global) -> Result<Option<Layout>, Memory>
        ensures { IfOk result (λ layout. layout ≡ layout_set (world_of self.now)) }
    {
        let mut rows = Vec::new(alloc);
        self.push_nodes(&mut rows)?;
        self.push_edges(&mut rows)?;
        self.push_stations(&mut rows)?;
        layout_given(alloc, rows.as_slice())
    }

    /// Adds the rows of the nodes.
    fn push_nodes(&self, rows: &mut Vec<LayoutRow>) -> Result<(), Memory>
        ensures { OnOk result (rows.new.items ≡ rows.old.items ++ map (λ id. row.Node id) (nodes_of (layout_of_tables self.now))) }
    {
        for id in self.nodes.iter() {
            rows.push(LayoutRow::Node { id: *id })?;
        }
        Ok(())
    }

    /// Adds the rows of the edges.
    fn push_edges(&self, rows: &mut Vec<LayoutRow>) -> Result<(), Memory>
        ensures { OnOk result (rows.new.items ≡ rows.old.items ++ map edge_row (finite.entries self.now.edges)) }
    {
        for (id, ends) in self.edges.iter() {
            rows.push(LayoutRow::Edge {
                id: *id,
                start: ends.start,
                finish: ends.finish,
            })?;
        }
        Ok(())
    }

    /// Adds the rows of the stations.
    fn push_stations(&self, rows: &mut Vec<LayoutRow>) -> Result<(), Memory>
        ensures { OnOk result (rows.new.items ≡ rows.old.items ++ map station_row (finite.entries self.now.stations)) }
    {
        for (id, site) in self.stations.iter() {
            rows.push(LayoutRow::Station {
                id: *id,
                node: site.node,
                capacity: site.capacity,
            })?;
        }
        Ok(())
    }
}

/// Returns the layout that these rows give, or `None` if they give none.
fn layout_given(alloc: Global, rows: &[LayoutRow]) -> Result<Option<Layout>, Memory>
    ensures { IfOk result (λ layout. layout ≡ given (layout_of rows.now)) }
{
    match Layout::of_rows(alloc, rows) {
        Ok(layout) => Ok(Some(layout)),
        Err(LayoutFault::Limit | LayoutFault::Bad) => Ok(None),
        Err(LayoutFault::Memory) => Err(Memory),
    }
}
