//! The nodes and edges that a vehicle holds.
ghost use Rattle.std.specs.Prelude.{◌≡◌, ◌++◌, ◌∷◌, [], IfOk, OnOk, Some};
ghost use Rattle.agv_track_holds.specs.OrderedSet.{KnowsAll, with_things};
ghost use Rattle.agv_track_holds.specs.Footprints.{along, released_edges, from_node, rest_things, things_by, once, footprint_of};
ghost use Rattle.agv_order.specs.Trips.{node_at};
ghost use Rattle.agv_header.specs.declared.key.Thing.TheVariants.{Node};

use crate::Standing;
use crate::ordered_set::OrderedSet;
use agv_header::{Memory, Name, Thing};
use agv_layout::Edge;
use agv_order::Trip;
use std::alloc::Global;

/// Lists what the vehicle holds, each node and edge once, in the order of its way.
///
/// Without an open order that is its node, and the edge and the node of its rest. With one it is the
/// node that it has reached last, and every node and edge after it up to the last released one; a
/// node or edge that the way passes more than once is listed where it comes first.
///
/// Returns `Memory` only when out of memory. It takes time in proportion to the way, times its logarithm.
pub fn footprint(alloc: Global, standing: &Standing) -> Result<Vec<Thing>, Memory>
    ensures { IfOk result (λ things. things.items ≡ footprint_of standing.now) }
{
    let mut held = OrderedSet::new(alloc);
    add_standing(&mut held, standing)?;
    Ok(held.things)
}

/// Adds what the vehicle holds.
fn add_standing(held: &mut OrderedSet, standing: &Standing) -> Result<(), Memory>
    requires { KnowsAll held.old }
    ensures added { OnOk result (held.new.things.items ≡ with_things held.old.things.items (things_by standing.now.node standing.now.rest standing.now.trip)) }
{
    match &standing.trip {
        Some(trip) => add_trip(held, trip),
        None => add_rest(held, standing.node, standing.rest),
    }
}

/// Adds what a vehicle on the trip holds.
fn add_trip(held: &mut OrderedSet, trip: &Trip) -> Result<(), Memory>
    requires { KnowsAll held.old }
    ensures added { OnOk result (held.new.things.items ≡ with_things held.old.things.items (from_node (node_at trip.now trip.now.seen) (released_edges trip.now))) }
{
    let Some(node) = trip.node_at(trip.seen) else {
        return Ok(());
    };
    held.add(&Thing::Node(node))?;
    add_edges(held, released_edges(trip))
}

/// Adds the edges, each followed by the node where it finishes.
fn add_edges(held: &mut OrderedSet, edges: &[Edge]) -> Result<(), Memory>
    requires { KnowsAll held.old }
    ensures added { OnOk result (held.new.things.items ≡ with_things held.old.things.items (along edges.now)) }
{
    for edge in edges {
        held.add(&Thing::Edge(edge.id))?;
        held.add(&Thing::Node(edge.finish))?;
    }
    Ok(())
}

/// Returns the edges after node `seen` up to node `base`.
fn released_edges(trip: &Trip) -> &[Edge]
    ensures { result.now ≡ released_edges trip.now }
{
    let edges = trip.edges.as_slice();
    let from = edges.len().min(trip.seen as usize);
    let rest = &edges[from..];
    let count = rest.len().min(trip.base.saturating_sub(trip.seen) as usize);
    &rest[..count]
}

/// Adds what a vehicle without a trip holds.
fn add_rest(held: &mut OrderedSet, node: Name, rest: Option<(Name, Name)>) -> Result<(), Memory>
    requires { KnowsAll held.old }
    ensures added { OnOk result (held.new.things.items ≡ with_things held.old.things.items (Node node ∷ rest_things rest)) }
{
    held.add(&Thing::Node(node))?;
    if let Some((edge, finish)) = rest {
        held.add(&Thing::Edge(edge))?;
        held.add(&Thing::Node(finish))?;
    }
    Ok(())
}
