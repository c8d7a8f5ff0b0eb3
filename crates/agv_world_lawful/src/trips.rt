//! Whether the open trips agree with their vehicles, and their edges are numbered in order.
ghost use Rattle.std.specs.Prelude.{◌≡◌, count_by, IfOk, Some};
ghost use Rattle.std.specs.FinMap as map;
ghost use Rattle.agv_world_core.specs.Lawful.{picks};
ghost use Rattle.agv_world_lawful.specs.LawfulTests.{are_fit, are_fit_on, is_fit, are_in_turn, are_legs, are_trips, has_trip_row, is_trip_of, is_trip_of_row, is_first, is_name_of, is_trip_row, is_used_order};

use agv_header::{Memory, Name, VehicleKey};
use agv_layout::Layout;
use agv_order::{Act, Trip, is_drop};
use agv_world_core::{LegKey, TripRow, UseKey, UseKind, VehicleRow, World};
use std::alloc::Global;

/// Returns whether each row of a trip follows the rules.
pub(crate) fn are_trips(alloc: Global, world: &World) -> Result<bool, Memory>
    ensures { IfOk result (λ are. are ≡ are_trips world.now) }
{
    for (order, row) in world.trips.iter() {
        if !is_trip_row(alloc, world, *order, row)? {
            return Ok(false);
        }
    }
    Ok(true)
}

/// Returns whether the row of a trip follows the rules: it is the first that names its vehicle, its
/// order was used, its edges are numbered from 0, and the vehicle's row agrees with it.
fn is_trip_row(alloc: Global, world: &World, order: Name, row: &TripRow) -> Result<bool, Memory>
    ensures { IfOk result (λ is. is ≡ is_trip_row world.now (order, row.now)) }
{
    if !is_first(world, row.vehicle, order) {
        return Ok(false);
    }
    if !is_used_order(world, order) || !are_in_turn(world, order) {
        return Ok(false);
    }
    let trip = world.trip_in(alloc, order, row)?;
    Ok(is_trip_of(world, row.vehicle, &trip))
}

/// Returns whether the first row that names the vehicle is the row of this order.
fn is_first(world: &World, key: VehicleKey, order: Name) -> bool
    ensures { result ≡ is_first world.now key order }
{
    is_name_of(world.first_order(key), order)
}

/// Returns whether the name was used for an order.
fn is_used_order(world: &World, order: Name) -> bool
    ensures { result ≡ is_used_order world.now order }
{
    world.used.contains(UseKey {
        kind: UseKind::Order,
        name: order,
    })
}

/// Returns whether the edge rows of the order are numbered from 0, and each names an edge of the layout.
fn are_in_turn(world: &World, order: Name) -> bool
    ensures { result ≡ are_in_turn world.now order 0 (map.entries world.now.legs) }
{
    let mut k = 0u64;
    for (leg, id) in world.legs.iter() {
        if leg.order == order {
            if u64::from(leg.k) != k || world.edges.get(*id).is_none() {
                return false;
            }
            k += 1;
        }
    }
    true
}

/// Returns whether the vehicle is known, and its row agrees with the trip.
fn is_trip_of(world: &World, key: VehicleKey, trip: &Trip) -> bool
    ensures { result ≡ is_trip_of (map.get world.now.vehicles key) trip.now }
{
    match world.vehicles.get(key) {
        Some(row) => is_trip_of_row(row, trip),
        None => false,
    }
}

/// Returns whether each trip is well formed on the layout of the tables; without a layout there
/// must be no trip.
pub(crate) fn are_fit(alloc: Global, world: &World) -> Result<bool, Memory>
    ensures { IfOk result (λ are. are ≡ are_fit world.now) }
{
    match world.layout(alloc)? {
        Some(layout) => are_fit_on(alloc, world, &layout),
        None => Ok(world.trips.len() == 0),
    }
}

/// Returns whether each trip is well formed on the layout.
fn are_fit_on(alloc: Global, world: &World, layout: &Layout) -> Result<bool, Memory>
    ensures { IfOk result (λ are. are ≡ are_fit_on world.now (Some layout.now)) }
{
    for (order, row) in world.trips.iter() {
        if !is_fit(alloc, world, layout, *order, row)? {
            return Ok(false);
        }
    }
    Ok(true)
}

/// Returns whether the trip of a row is well formed on the layout.
fn is_fit(
    alloc: Global,
    world: &World,
    layout: &Layout,
    order: Name,
    row: &TripRow,
) -> Result<bool, Memory>
    ensures { IfOk result (λ fit. fit ≡ is_fit world.now layout.now (order, row.now)) }
{
    let trip = world.trip_in(alloc, order, row)?;
    Ok(trip.is_well_formed(layout))
}

/// Returns whether the order of each edge row has an open trip.
pub(crate) fn are_legs(world: &World) -> bool
    ensures { result ≡ are_legs world.now }
{
    world
        .legs
        .iter()
        .all(|(leg, id)| has_trip_row(world, *leg, *id))
}

/// Returns whether the order of an edge row has an open trip.
fn has_trip_row(world: &World, leg: LegKey, id: Name) -> bool
    ensures { result ≡ has_trip_row world.now (leg, id) }
{
    let _id = id;
    world.trips.get(leg.order).is_some()
}

/// Returns whether there is a name, and it is the second one.
fn is_name_of(other: Option<Name>, name: Name) -> bool
    ensures { result ≡ is_name_of other name }
{
    match other {
        Some(other) => other == name,
        None => false,
    }
}

/// Returns whether the vehicle's row agrees with the trip: the capacity is at least the number of
/// picks, an order was sent, and the vehicle is at the last node that was seen, without a rest.
fn is_trip_of_row(row: &VehicleRow, trip: &Trip) -> bool
    ensures { result ≡ is_trip_of_row row.now trip.now }
{
    pick_count(trip.acts.as_slice()) <= row.capacity as usize
        && 0 < row.orders.count
        && is_name_of(trip.node_at(trip.seen), row.node)
        && row.rest.is_none()
}

/// Returns how many of the acts are picks.
fn pick_count(acts: &[Act]) -> usize
    ensures { result ≡ count_by picks acts.now }
{
    acts.iter().filter(|act| picks(act)).count()
}

/// Returns whether the act is a pick.
fn picks(act: &Act) -> bool
    ensures { result ≡ picks act.now }
{
    !is_drop(act.kind)
}
