//! Layouts, and lookups in them by name.
ghost use Rattle.std.specs.Prelude.{◌≡◌, ◌≢◌, ◌↔◌, Ok, Err, IfOk, IfErr, option_map};
ghost use Rattle.std.specs.FinMap as map;
ghost use Rattle.std.specs.FinSet as set;
ghost use Rattle.agv_layout.specs.declared.fault.LayoutFault.TheVariants as fault;
ghost use Rattle.agv_layout.specs.Layout.{Layout as Plan, AreNodesInOrder, edge_of, station_of, KeepsRules};
ghost use Rattle.agv_layout.specs.LayoutOf.{layout_of};
ghost use Rattle.agv_layout.specs.Rows.{IsOverLimit, IsSound, IsLayoutOf};

use crate::draft::Draft;
use crate::row::are_over_limit;
use crate::{Edge, EdgeEnds, LayoutFault, LayoutRow, Station, StationSite};
use agv_header::{Memory, Name};
use std::alloc::Global;
use std::collections::{BTreeMap, BTreeSet, btree_map, btree_set};
use std::marker::Model;

/// The nodes, edges and stations of one warehouse, made from rows that describe a layout.
#[derive(Debug, Drop)]
pub struct Layout {
    pub(crate) nodes: BTreeSet<Name>,
    pub(crate) edges: BTreeMap<Name, EdgeEnds>,
    pub(crate) stations: BTreeMap<Name, StationSite>,
}

impl Model for Layout {
    ghost use Rattle.agv_layout.specs.Layout.{Layout as Plan, KeepsRules};
    ghost use Rattle.agv_layout.specs.Code.{layout_code};
    ghost use Rattle.agv_layout.specs.Shown.{shown};

    ghost Value = { Plan };

    ghost coded = { layout_code };

    ghost view = { shown };

    ghost invariant = { λ layout. KeepsRules (shown layout) };
}

impl Layout {
    /// Makes the layout that the rows give, in whatever order they are.
    ///
    /// It returns
    ///
    /// - `Limit` if there are more than 500 nodes, 1,500 edges or 500 stations;
    /// - otherwise `Bad` if there is no node, if an id is twice within a kind (a node and a station may
    ///   have the same), if an edge or a station has a node that is not listed, if an edge leads from a
    ///   node to itself, or if a capacity is not 1 to 999;
    /// - `Memory` only when out of memory.
    ///
    /// It takes time in proportion to the rows, times the logarithm of their number.
    pub fn of_rows(alloc: Global, rows: &[LayoutRow]) -> Result<Layout, LayoutFault>
        ensures ok { IfOk result (λ layout. (¬ (IsOverLimit rows.now)) × IsSound rows.now × IsLayoutOf rows.now layout) }
        ensures limit { (result ≡ Err fault.Limit) ↔ IsOverLimit rows.now }
        ensures bad { result ≡ Err fault.Bad → (¬ (IsOverLimit rows.now)) × (¬ (IsSound rows.now)) }
        ensures given { IfOk result (λ layout. layout_of rows.now ≡ Ok layout) }
        ensures refused { IfErr result (λ error. error ≢ fault.Memory → layout_of rows.now ≡ Err error) }
    {
        if are_over_limit(rows) {
            return Err(LayoutFault::Limit);
        }
        let draft = Draft::of_rows(alloc, rows)?;
        if !draft.is_whole() {
            return Err(LayoutFault::Bad);
        }
        Ok(Layout {
            nodes: draft.nodes,
            edges: draft.edges,
            stations: draft.stations,
        })
    }

    /// Proves what holds of every layout: it has a node, edges lead from a node to another, stations are
    /// at nodes and hold 1 to 999 loads, all ids are names, and there are at most 500 nodes, 1,500
    /// edges and 500 stations. It does nothing: a proof calls it for its clause, which the type's
    /// invariant gives when a field is read.
    pub fn layout_law(&self)
        ensures { KeepsRules self.now }
    {
        let _ = &self.nodes;
    }

    /// Returns a layout equal to this one, or `Memory` when out of memory.
    pub fn copy(&self) -> Result<Layout, Memory>
        ensures copied { IfOk result (λ copy. copy ≡ self.now) }
    {
        Ok(Layout {
            nodes: self.nodes.clone()?,
            edges: copy_edges(&self.edges)?,
            stations: self.stations.clone()?,
        })
    }

    /// Returns an iterator over the nodes, in the order of their names.
    pub fn nodes(&self) -> btree_set::Iter<'_, Name>
        ensures nodes { AreNodesInOrder self.now result }
    {
        self.nodes.iter()
    }

    /// Returns an iterator over the edges, in the order of their names: the name and the ends of each.
    pub fn edges(&self) -> btree_map::Iter<'_, Name, EdgeEnds>
        ensures edges { result ≡ map.entries self.now.edges }
    {
        self.edges.iter()
    }

    /// Returns an iterator over the stations, in the order of their names: the name, node and capacity of each.
    pub fn stations(&self) -> btree_map::Iter<'_, Name, StationSite>
        ensures stations { result ≡ map.entries self.now.stations }
    {
        self.stations.iter()
    }

    /// Returns the number of nodes: 1 to 500.
    pub fn node_count(&self) -> usize
        ensures { result ≡ set.len self.now.nodes }
    {
        self.nodes.len()
    }

    /// Returns the number of edges: at most 1,500.
    pub fn edge_count(&self) -> usize
        ensures { result ≡ map.len self.now.edges }
    {
        self.edges.len()
    }

    /// Returns the number of stations: at most 500.
    pub fn station_count(&self) -> usize
        ensures { result ≡ map.len self.now.stations }
    {
        self.stations.len()
    }

    /// Returns whether the layout has a node of this name.
    pub fn node(&self, id: Name) -> bool
        ensures { result ≡ set.contains self.now.nodes id }
    {
        self.nodes.contains(&id)
    }

    /// Returns the edge of this name, if there is one.
    pub fn edge(&self, id: Name) -> Option<Edge>
        ensures { result ≡ option_map (edge_of id) (map.get self.now.edges id) }
    {
        let ends = self.edges.get(&id)?;
        Some(Edge {
            id,
            start: ends.start,
            finish: ends.finish,
        })
    }

    /// Returns the station of this name, if there is one.
    pub fn station(&self, id: Name) -> Option<Station>
        ensures { result ≡ option_map (station_of id) (map.get self.now.stations id) }
    {
        let site = self.stations.get(&id)?;
        Some(Station {
            id,
            node: site.node,
            capacity: site.capacity,
        })
    }
}

/// Copies the edges.
fn copy_edges(edges: &BTreeMap<Name, EdgeEnds>) -> Result<BTreeMap<Name, EdgeEnds>, Memory>
    ensures { IfOk result (λ copy. copy.entries ≡ edges.now.entries) }
{
    let copy = edges.clone()?;
    Ok(copy)
}
