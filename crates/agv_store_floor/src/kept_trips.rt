//! The open trips of orders, cached beside the connection once they were read, so that a state message of a vehicle
//! does not read its trip again, and the vehicles that are known to have none (`kept_trips` of agv_store_known).
ghost use Rattle.std.specs.Prelude.{◌≡◌, IfOk, IfSome, IsTrue, None, Some, is_some};
ghost use Rattle.agv_world_core.specs.Asks.{Asks};
ghost use Rattle.agv_world_core.specs.Questions.{trip_of};
ghost use Rattle.agv_store_schema.specs.Connections.{IsClean, IsOpen};
ghost use Rattle.agv_store_floor.specs.Floors.{facts_of, world_at};

use crate::flags::note;
use crate::keyed_floor::KeyedFloor;
use agv_header::{Memory, VehicleKey};
use agv_order::Trip;
use agv_store_ask::trip_queries::{query_has_trip, query_trip};
use agv_store_known::kept_trips::{put_no_trip, put_trip, trip_of_vehicle};
use agv_store_rows::trip_laws::rows_have_trips;
use agv_world_core::Fault;
use sqlite::Alter;

impl<S: Alter + Drop> KeyedFloor<S> {
    /// Returns a copy of the cached open trip of a vehicle, if any.
    pub(crate) fn kept_trip(&self, key: &VehicleKey) -> Result<Option<Trip>, Memory>
        ensures { IfOk result (λ kept. IfSome kept (λ trip. IsClean S.Store self.now.held → IsOpen S.Store self.now.held → Some trip ≡ trip_of (world_at S.Store self.now.held) key.now)) }
    {
        rows_have_trips();
        self.knows();
        let Some(order) = self.known.trips.order_of.get(*key) else {
            return Ok(None);
        };
        trip_of_vehicle(&self.known.trips.by_order, *order, key)
    }

    /// Returns whether the vehicle is known to have no open trip. If not, it may have one or none: the tables say which.
    pub(crate) fn is_known_without_trip(&self, key: &VehicleKey) -> bool
        ensures { IsTrue result → IsClean S.Store self.now.held → IsOpen S.Store self.now.held → trip_of (world_at S.Store self.now.held) key.now ≡ None }
    {
        rows_have_trips();
        self.knows();
        self.known.trips.without.contains(key)
    }

    /// Reads the open trip of a vehicle from the tables.
    pub(crate) fn trip_asked(&mut self, key: &VehicleKey) -> Result<Option<Trip>, Fault>
        ensures { Asks (facts_of S.Store) self.old self.new result (λ world trip. trip ≡ trip_of world key.now) }
    {
        let asked = query_trip(self.alloc, &mut self.conn, &self.known.layout, key);
        note(&mut self.failed, &mut self.in_doubt, asked)
    }

    /// Reads from the tables whether a vehicle has an open trip.
    pub(crate) fn has_trip_asked(&mut self, key: &VehicleKey) -> Result<bool, Fault>
        ensures { Asks (facts_of S.Store) self.old self.new result (λ world has. has ≡ is_some (trip_of world key.now)) }
    {
        let asked = query_has_trip(&mut self.conn, key);
        note(&mut self.failed, &mut self.in_doubt, asked)
    }

    /// Caches a copy of the open trip of a vehicle.
    pub(crate) fn keep_trip(&mut self, key: &VehicleKey, trip: &Trip) -> Result<(), Memory>
        requires { IsClean S.Store self.old.held → IsOpen S.Store self.old.held → Some trip.now ≡ trip_of (world_at S.Store self.old.held) key.now }
        ensures { self.new ≡ self.old }
    {
        rows_have_trips();
        let copy = trip.copy()?;
        put_trip(&mut self.known.trips, *key, copy)
    }

    /// Caches that a vehicle has no open trip, if its row is cached: so only for vehicles that are registered.
    pub(crate) fn keep_no_trip(&mut self, key: &VehicleKey) -> Result<(), Memory>
        requires { IsClean S.Store self.old.held → IsOpen S.Store self.old.held → trip_of (world_at S.Store self.old.held) key.now ≡ None }
        ensures { self.new ≡ self.old }
    {
        rows_have_trips();
        if self.known.vehicles.get(*key).is_none() {
            return Ok(());
        }
        put_no_trip(&mut self.known.trips, *key)
    }
}
