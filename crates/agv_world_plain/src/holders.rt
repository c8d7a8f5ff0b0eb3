//! Which vehicle holds a node or an edge, from the tables of a world.
ghost use Rattle.std.specs.Prelude.{◌≡◌, [], ◌∷◌, None};
ghost use Rattle.agv_order.specs.Trips.{node_at};
ghost use Rattle.agv_track_holds.specs.Footprints.{along, from_node, released_edges, rest_things, things_by};
ghost use Rattle.agv_track_holds.specs.Holds.{is_in};
ghost use Rattle.agv_world_core.specs.Questions.{holder_of};
ghost use Rattle.agv_world_core.specs.Told.{world_of, trip_in, is_held_by};

use agv_header::{Name, Thing, VehicleKey};
use agv_layout::Edge;
use agv_world_core::{TripRow, VehicleRow, World};

/// Returns the vehicle in whose footprint a node or edge is, or `None` if it is free.
pub(crate) fn holder(world: &World, thing: Thing) -> Option<VehicleKey>
    ensures { result ≡ holder_of (world_of world.now) thing }
{
    for (key, row) in world.vehicles.iter() {
        if is_holder(world, *key, row, &thing) {
            return Some(*key);
        }
    }
    None
}

/// Returns whether the node or edge is in the footprint of the vehicle of this row.
fn is_holder(world: &World, key: VehicleKey, row: &VehicleRow, thing: &Thing) -> bool
    ensures { result ≡ is_held_by world.now thing.now (key, row.now) }
{
    for (order, trip) in world.trips.iter() {
        if trip.vehicle == key {
            return is_on_trip(world, *order, trip, thing);
        }
    }
    holds_without_trip(row, thing)
}

/// Returns whether the node or edge is in the footprint of a vehicle with the trip of this row.
fn is_on_trip(world: &World, order: Name, row: &TripRow, thing: &Thing) -> bool
    ensures { result ≡ is_in thing.now (from_node (node_at (trip_in world.now (order, row.now)) row.now.seen) (released_edges (trip_in world.now (order, row.now)))) }
{
    let Some(node) = node_reached(world, order, row) else {
        return false;
    };
    *thing == Thing::Node(node) || drives_on(world, order, row, thing)
}

/// Returns the last node that the trip of a row has reached, or `None` if `seen` is past its end.
fn node_reached(world: &World, order: Name, row: &TripRow) -> Option<Name>
    ensures { result ≡ node_at (trip_in world.now (order, row.now)) row.now.seen }
{
    if row.seen == 0 {
        return Some(row.start);
    }
    let edge = world
        .legs
        .iter()
        .filter(|(key, _)| key.order == order)
        .filter_map(|(_, id)| world.edge(*id))
        .nth(row.seen as usize - 1)?;
    Some(edge.finish)
}

/// Returns whether the node or edge is on the trip of a row after the last node that it has reached, up
/// to the last node that is released.
fn drives_on(world: &World, order: Name, row: &TripRow, thing: &Thing) -> bool
    ensures { result ≡ is_in thing.now (along (released_edges (trip_in world.now (order, row.now)))) }
{
    world
        .legs
        .iter()
        .filter(|(key, _)| key.order == order)
        .filter_map(|(_, id)| world.edge(*id))
        .skip(row.seen as usize)
        .take(row.base.saturating_sub(row.seen) as usize)
        .any(|edge| is_edge_or_finish(thing, &edge))
}

/// Returns whether the node or edge is in the footprint of the vehicle of this row, if it has no trip.
fn holds_without_trip(row: &VehicleRow, thing: &Thing) -> bool
    ensures { result ≡ is_in thing.now (things_by row.now.node row.now.rest None) }
{
    *thing == Thing::Node(row.node) || is_on_rest(row.rest, thing)
}

/// Returns whether the node or edge is part of this rest.
fn is_on_rest(rest: Option<(Name, Name)>, thing: &Thing) -> bool
    ensures { result ≡ is_in thing.now (rest_things rest) }
{
    let Some((edge, node)) = rest else {
        return false;
    };
    *thing == Thing::Edge(edge) || *thing == Thing::Node(node)
}

/// Returns whether this is the edge, or the node where the edge ends.
fn is_edge_or_finish(thing: &Thing, edge: &Edge) -> bool
    ensures { result ≡ is_in thing.now (along (edge.now ∷ [])) }
{
    *thing == Thing::Edge(edge.id) || *thing == Thing::Node(edge.finish)
}
