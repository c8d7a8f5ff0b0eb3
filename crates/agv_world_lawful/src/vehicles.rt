//! Whether the vehicles are lawful, each by itself.
ghost use Rattle.std.specs.Prelude.{◌≡◌};
ghost use Rattle.agv_world_lawful.specs.LawfulTests.{are_few, are_vehicles, is_counted, is_numbered, is_rest, is_seated, is_vehicle_row, leads_so};

use agv_header::Name;
use agv_header::limits::{MAX_RECORDS, MAX_VEHICLES};
use agv_layout::EdgeEnds;
use agv_world_core::{Sent, UseKind, VehicleRow, World};

/// Returns whether each row of a vehicle follows the rules.
pub(crate) fn are_vehicles(world: &World, seats: u32) -> bool
    ensures { result ≡ are_vehicles seats world.now }
{
    world
        .vehicles
        .iter()
        .all(|(_, row)| is_vehicle_row(world, seats, row))
}

/// Returns whether the row of a vehicle follows the rules, by itself.
fn is_vehicle_row(world: &World, seats: u32, row: &VehicleRow) -> bool
    ensures { result ≡ is_vehicle_row seats world.now row.now }
{
    is_seated(seats, row)
        && world.nodes.contains(row.node)
        && is_rest(world, row.node, row.rest)
        && is_numbered(row)
}

/// Returns whether the rest, if there is one, is an edge from the vehicle's node to the rest's node.
fn is_rest(world: &World, node: Name, rest: Option<(Name, Name)>) -> bool
    ensures { result ≡ is_rest world.now node rest }
{
    match rest {
        None => true,
        Some((edge, finish)) => leads_so(world.edges.get(edge).copied(), node, finish),
    }
}

/// Returns whether there are at most 100 vehicles, 1,000,000 orders and 1,000,000 references.
pub(crate) fn are_few(world: &World) -> bool
    ensures { result ≡ are_few world.now }
{
    world.vehicles.len() <= MAX_VEHICLES
        && world.used_count(UseKind::Order) <= MAX_RECORDS
        && world.used_count(UseKind::Reference) <= MAX_RECORDS
}

/// Returns whether the capacity of the vehicle is from 1 to `seats`.
fn is_seated(seats: u32, row: &VehicleRow) -> bool
    ensures { result ≡ is_seated seats row.now }
{
    1 <= row.capacity && row.capacity <= seats
}

/// Returns whether the counters of both topics are valid, and an instant action is pending only if
/// one was sent.
fn is_numbered(row: &VehicleRow) -> bool
    ensures { result ≡ is_numbered row.now }
{
    is_counted(row.orders)
        && is_counted(row.instants)
        && (row.pending.is_none() || 0 < row.instants.count)
}

/// Returns whether the moment is 0 if no message was sent.
fn is_counted(sent: Sent) -> bool
    ensures { result ≡ is_counted sent }
{
    sent.count != 0 || sent.at.ms() == 0
}

/// Returns whether the edge is known, and leads from `start` to `finish`.
fn leads_so(ends: Option<EdgeEnds>, start: Name, finish: Name) -> bool
    ensures { result ≡ leads_so ends start finish }
{
    match ends {
        Some(ends) => ends.start == start && ends.finish == finish,
        None => false,
    }
}
