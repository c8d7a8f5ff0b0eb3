//! Whether the tables of the layout are empty, or follow the rules of a layout.
ghost use Rattle.std.specs.Prelude.{◌≡◌};
ghost use Rattle.agv_world_lawful.specs.LawfulTests.{does_lead, does_stand, is_in_limits, is_unset, all_lead, all_stand, is_laid};

use agv_header::limits::{
    MAX_LAYOUT_EDGES, MAX_LAYOUT_NODES, MAX_LAYOUT_STATIONS, MAX_STATION_CAPACITY,
};
use agv_layout::{EdgeEnds, StationSite};
use agv_world_core::World;

/// Returns whether the layout is not set, or follows the rules of a layout.
pub(crate) fn is_laid(world: &World) -> bool
    ensures { result ≡ is_laid world.now }
{
    is_unset(world) || (is_in_limits(world) && all_lead(world) && all_stand(world))
}

/// Returns whether the layout is not set.
fn is_unset(world: &World) -> bool
    ensures { result ≡ is_unset world.now }
{
    world.nodes.len() == 0 && world.edges.len() == 0 && world.stations.len() == 0
}

/// Returns whether the numbers of nodes, edges and stations are within the limits of a layout.
fn is_in_limits(world: &World) -> bool
    ensures { result ≡ is_in_limits world.now }
{
    let nodes = world.nodes.len();
    1 <= nodes
        && nodes <= MAX_LAYOUT_NODES
        && world.edges.len() <= MAX_LAYOUT_EDGES
        && world.stations.len() <= MAX_LAYOUT_STATIONS
}

/// Returns whether each edge leads from a node to another node.
fn all_lead(world: &World) -> bool
    ensures { result ≡ all_lead world.now }
{
    world.edges.iter().all(|(_, ends)| does_lead(world, *ends))
}

/// Returns whether the edge leads from a node to another node.
fn does_lead(world: &World, ends: EdgeEnds) -> bool
    ensures { result ≡ does_lead world.now ends }
{
    world.nodes.contains(ends.start)
        && world.nodes.contains(ends.finish)
        && ends.start != ends.finish
}

/// Returns whether each station is at a node, and has room for 1 to 999 loads.
fn all_stand(world: &World) -> bool
    ensures { result ≡ all_stand world.now }
{
    world
        .stations
        .iter()
        .all(|(_, site)| does_stand(world, *site))
}

/// Returns whether the station is at a node, and has room for 1 to 999 loads.
fn does_stand(world: &World, site: StationSite) -> bool
    ensures { result ≡ does_stand world.now site }
{
    world.nodes.contains(site.node) && 1 <= site.capacity && site.capacity <= MAX_STATION_CAPACITY
}
