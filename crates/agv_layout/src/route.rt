//! The least number of edges between two nodes, and the route.
ghost use Rattle.std.specs.Prelude.{◌≡◌, cond, IfOk, OnOk, Some, None, option_map};
ghost use Rattle.std.specs.BTreeMap as tree;
ghost use Rattle.std.specs.Option.{option_or};
ghost use Rattle.agv_header.specs.Name.{name_cmp};
ghost use Rattle.agv_layout.specs.Layout.{Name as NameOf, edge_of};
ghost use Rattle.agv_layout.specs.RouteOf.{route_of, hops_of};
ghost use Rattle.agv_layout.specs.Walk.{IsHops, IsWayTo};
ghost use Rattle.agv_layout.specs.Ways.{is_nearer, is_way, first_way, followed};

use crate::distances::{Distances, distances_to};
use crate::{Edge, EdgeEnds, Layout};
use agv_header::{Memory, Name};
use std::alloc::Global;
use std::collections::BTreeMap;

/// The edge to take at each node from which the goal can be reached.
type Ways = BTreeMap<Name, Edge>;

impl Layout {
    /// Returns the least number of edges of a walk from one node to another: 0 from a node to itself,
    /// and `None` if no walk leads there, as when one of the names is unknown.
    ///
    /// The time is that of the nodes and the edges, each times the depth of a map. Returns `Memory` only
    /// when out of memory.
    pub fn hops(&self, alloc: Global, from: Name, to: Name) -> Result<Option<u32>, Memory>
        ensures hops { IfOk result (IsHops self.now from to) }
        ensures exact { IfOk result (λ hops. hops ≡ hops_of self.now from to) }
    {
        if !self.nodes.contains(&to) {
            return Ok(None);
        }
        let distances = distances_to(alloc, &self.nodes, &self.edges, to)?;
        Ok(hops_from(&distances, from))
    }

    /// Returns the route from one node to another, as the names of its edges: of all shortest walks the
    /// first, names being compared one by one. It is the empty list from a node to itself, and `None` if
    /// no walk leads there, as when one of the names is unknown.
    ///
    /// At each node it takes the edge of least name that leads nearer. The time is that of the nodes
    /// and the edges, each times the depth of a map. Returns `Memory` only when out of memory.
    pub fn route(&self, alloc: Global, from: Name, to: Name) -> Result<Option<Vec<Name>>, Memory>
        ensures route { IfOk result (λ route. IsWayTo self.now from to (option_map (λ ids. ids.items) route)) }
        ensures exact { IfOk result (λ route. option_map (λ ids. ids.items) route ≡ route_of self.now from to) }
    {
        if !self.nodes.contains(&to) {
            return Ok(None);
        }
        let distances = distances_to(alloc, &self.nodes, &self.edges, to)?;
        let Some(hops) = hops_from(&distances, from) else {
            return Ok(None);
        };
        let ways = first_ways(alloc, &self.edges, &distances)?;
        Ok(Some(follow(alloc, &ways, from, hops)?))
    }
}

/// Returns the distance of a node, if it has one.
fn hops_from(distances: &Distances, from: Name) -> Option<u32>
    ensures { result ≡ tree.get name_cmp distances.now from }
{
    distances.get(&from).copied()
}

/// Finds for each node the edge of least name that leads nearer to the goal. The edges come in the order of names.
fn first_ways(
    alloc: Global,
    edges: &BTreeMap<Name, EdgeEnds>,
    distances: &Distances,
) -> Result<Ways, Memory>
    ensures first { IfOk result (λ ways. (at : NameOf) → tree.get name_cmp ways at ≡ first_way distances.now at edges.now.entries) }
    ensures ordered { tree.IsOrdered name_cmp edges.now }
{
    let mut ways = BTreeMap::new(alloc);
    for (id, ends) in edges {
        consider(&mut ways, distances, *id, *ends)?;
    }
    Ok(ways)
}

/// Records an edge that leads nearer to the goal as the one to take at its start, if there is none yet.
fn consider(ways: &mut Ways, distances: &Distances, id: Name, ends: EdgeEnds) -> Result<(), Memory>
    ensures { OnOk result ((at : NameOf) → tree.get name_cmp ways.new at
        ≡ option_or (tree.get name_cmp ways.old at) (cond (is_way distances.now at ends) (Some (edge_of id ends)) None)) }
{
    if !is_nearer(distances, &ends) {
        return Ok(());
    }
    if ways.contains_key(&ends.start) {
        return Ok(());
    }
    let edge = Edge {
        id,
        start: ends.start,
        finish: ends.finish,
    };
    ways.insert(ends.start, edge)?;
    Ok(())
}

/// Returns whether an edge leads nearer to the goal.
fn is_nearer(distances: &Distances, ends: &EdgeEnds) -> bool
    ensures { result ≡ is_nearer distances.now ends.now }
{
    match (distances.get(&ends.start), distances.get(&ends.finish)) {
        (Some(here), Some(there)) => *there < *here,
        _ => false,
    }
}

/// Returns the walk of at most this many edges that takes each node's edge.
fn follow(alloc: Global, ways: &Ways, from: Name, hops: u32) -> Result<Vec<Name>, Memory>
    ensures { IfOk result (λ ids. ids.items ≡ followed ways.now from hops) }
{
    let mut ids = Vec::new(alloc);
    let mut at = from;
    for _ in 0..hops {
        let Some(edge) = ways.get(&at) else {
            break;
        };
        ids.push(edge.id)?;
        at = edge.finish;
    }
    Ok(ids)
}
