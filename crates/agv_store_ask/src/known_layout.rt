//! Looking up names in a layout that is already known, so that the tables need not be queried.
ghost use Rattle.std.specs.Prelude.{◌≡◌, false, true, Some, IfSome};
ghost use Rattle.std.specs.FinMap as map;
ghost use Rattle.std.specs.FinSet as set;
ghost use Rattle.std.specs.Option.{option_and_then, option_map, unwrap_or};
ghost use Rattle.agv_layout.specs.Layout.{Layout as Plan};
ghost use Rattle.agv_world_core.specs.Told.{edge_named};
ghost use Rattle.agv_world_core.specs.Worlds.{World};
ghost use Rattle.agv_store_read.specs.WorldAnswers.{AgreesWith};

use agv_header::Name;
use agv_layout::{Edge, Layout, StationSite};

/// Returns whether a layout is known that has this node.
pub fn knows_node(known: &Option<Layout>, id: Name) -> bool
    ensures is { result ≡ unwrap_or (option_map (λ (layout : Plan). set.contains layout.nodes id) known.now) false }
    ensures agrees { result ≡ true → (world : World) → AgreesWith known.now world → set.contains world.layout.nodes id ≡ true }
{
    match known {
        None => false,
        Some(layout) => layout.node(id),
    }
}

/// Returns the edge of this id, if a layout is known that has it.
pub fn known_edge(known: &Option<Layout>, id: Name) -> Option<Edge>
    ensures is { result ≡ option_and_then (λ (layout : Plan). edge_named layout.edges id) known.now }
    ensures agrees { IfSome result (λ edge. (world : World) → AgreesWith known.now world → Some edge ≡ edge_named world.layout.edges id) }
{
    match known {
        None => None,
        Some(layout) => layout.edge(id),
    }
}

/// Returns the node of a station and how many loads fit there, if a layout is known that has the station.
pub fn known_station(known: &Option<Layout>, id: Name) -> Option<StationSite>
    ensures is { result ≡ option_and_then (λ (layout : Plan). map.get layout.stations id) known.now }
    ensures agrees { IfSome result (λ site. (world : World) → AgreesWith known.now world → map.get world.layout.stations id ≡ Some site) }
{
    match known {
        None => None,
        Some(layout) => match layout.station(id) {
            None => None,
            Some(station) => Some(StationSite {
                node: station.node,
                capacity: station.capacity,
            }),
        },
    }
}
