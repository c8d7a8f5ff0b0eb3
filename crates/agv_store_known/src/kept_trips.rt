//! The open trips of orders, cached beside the tables once they were read, so that a state message of a vehicle does
//! not read its trip again, and the vehicles that are known to have none. A change that writes the row of a cached trip
//! updates it; one that removes the row, or writes an edge of its order or a row of the layout, drops it. A vehicle
//! whose trip is written is no longer one of those without.
ghost use Rattle.std.specs.Prelude.{◌≡◌, IfOk, IfSome};
ghost use Rattle.agv_world_core.specs.Changes.{change};
ghost use Rattle.agv_world_core.specs.Maps.{Maps};
ghost use Rattle.agv_header.specs.Spread.{edit};
ghost use Rattle.agv_store_rows.specs.DecodedTrips.{HasTripRows};
ghost use Rattle.agv_store_known.specs.KeptTrips.{AreOpen, AreTrips, HasNoTrip, HaveNoTrip, IsTripOf, with_row};

use crate::kept_layout::is_of_layout;
use agv_header::{Memory, Name, VehicleKey};
use agv_order::Trip;
use agv_world_core::{ByVehicle, Change, TripRow};
use std::alloc::Global;
use std::collections::{BTreeMap, BTreeSet};

/// Open trips by their order ids.
pub type OpenTrips = BTreeMap<Name, Trip>;

/// What is known of open trips.
#[derive(Drop)]
pub struct KeptTrips {
    /// Open trips by their order ids.
    pub by_order: OpenTrips,
    /// Vehicles, each with the order id of its trip that was cached last. Nothing relies on it: a trip found this way
    /// is used only if it names the vehicle.
    pub order_of: ByVehicle<Name>,
    /// Vehicles without an open trip.
    pub without: BTreeSet<VehicleKey>,
}

/// Caches a trip.
///
/// # Errors
/// `Memory` when out of memory.
pub fn put_trip(trips: &mut KeptTrips, key: VehicleKey, trip: Trip) -> Result<(), Memory>
    ensures { (maps : Maps) → HasTripRows maps trip → AreTrips trips.old maps → AreTrips trips.new maps }
{
    let order = trip.order;
    trips.by_order.insert(order, trip)?;
    trips.order_of.insert(key, order)
}

/// Caches that the vehicle has no open trip.
///
/// # Errors
/// `Memory` when out of memory.
pub fn put_no_trip(trips: &mut KeptTrips, key: VehicleKey) -> Result<(), Memory>
    ensures { (maps : Maps) → HasNoTrip maps key → AreTrips trips.old maps → AreTrips trips.new maps }
{
    trips.without.insert(key)?;
    Ok(())
}

/// Returns the cache without trips and vehicles.
pub(crate) fn none(alloc: Global) -> KeptTrips
    ensures { (maps : Maps) → AreTrips result maps }
{
    KeptTrips {
        by_order: BTreeMap::new(alloc),
        order_of: ByVehicle::new(alloc),
        without: BTreeSet::new(alloc),
    }
}

/// Returns a copy of the cached trip of an order, if there is one and it is the vehicle's.
///
/// # Errors
/// `Memory` when out of memory.
pub fn trip_of_vehicle(
    trips: &OpenTrips,
    order: Name,
    key: &VehicleKey,
) -> Result<Option<Trip>, Memory>
    ensures { IfOk result (λ kept. IfSome kept (λ trip. (trip.vehicle ≡ key.now) × ((maps : Maps) → AreOpen trips.now maps → IsTripOf maps order trip))) }
{
    match trips.get(&order) {
        None => Ok(None),
        Some(trip) => {
            if trip.vehicle == *key {
                let copy = trip.copy()?;
                return Ok(Some(copy));
            }
            Ok(None)
        }
    }
}

/// Updates what is known of open trips for a change.
pub(crate) fn follow(trips: &mut KeptTrips, one: &Change)
    ensures { (maps : Maps) → AreTrips trips.old maps → AreTrips trips.new (change maps one.now) }
{
    follow_open(&mut trips.by_order, one);
    follow_without(&mut trips.without, one);
}

/// Updates the cached trips for a change: drops all of them if it writes a row of the layout, drops that of an order if
/// it writes one of the order's edges, and updates it if it writes the trip's row.
fn follow_open(trips: &mut OpenTrips, one: &Change)
    ensures { (maps : Maps) → AreOpen trips.old maps → AreOpen trips.new (change maps one.now) }
{
    if is_of_layout(one) {
        trips.clear();
        return;
    }
    if let Change::Leg(leg, _) = one {
        trips.remove(&leg.order);
    } else if let Change::Trip(order, row) = one {
        put_row(trips, *order, row);
    }
}

/// Updates the cached trip of an order from its row; drops it if the row is removed, or if there is no memory for its
/// acts.
fn put_row(trips: &mut OpenTrips, order: Name, row: &Option<TripRow>)
    ensures { (maps : Maps) → AreOpen trips.old maps → AreOpen trips.new (record maps { trips = edit maps.trips order row.now }) }
{
    let Some(trip) = trips.remove(&order) else {
        return;
    };
    let Some(row) = row else {
        return;
    };
    if let Ok(trip) = with_row(trip, row) {
        let _kept = trips.insert(order, trip);
    }
}

/// Returns the trip with the values of this row.
fn with_row(trip: Trip, row: &TripRow) -> Result<Trip, Memory>
    ensures { IfOk result (λ written. written ≡ with_row trip row.now) }
{
    let acts = row.acts.copy()?;
    let Trip { order, edges, .. } = trip;
    Ok(Trip {
        order,
        vehicle: row.vehicle,
        start: row.start,
        edges,
        first: row.first,
        base: row.base,
        sent: row.sent,
        confirmed: row.confirmed,
        seen: row.seen,
        acts,
    })
}

/// Updates the vehicles that are known to have no open trip for a change: takes out the one whose trip is written.
fn follow_without(without: &mut BTreeSet<VehicleKey>, one: &Change)
    ensures { (maps : Maps) → HaveNoTrip without.old maps → HaveNoTrip without.new (change maps one.now) }
{
    if let Change::Trip(order, row) = one {
        take_out(without, *order, row);
    }
}

/// Takes out the vehicle of the written row, if any, from the vehicles that are known to have no open trip.
fn take_out(without: &mut BTreeSet<VehicleKey>, _order: Name, row: &Option<TripRow>)
    ensures { (maps : Maps) → HaveNoTrip without.old maps → HaveNoTrip without.new (record maps { trips = edit maps.trips _order row.now }) }
{
    let Some(row) = row else {
        return;
    };
    without.remove(&row.vehicle);
}
