//! The rows of vehicles, cached beside the connection once they were read or written, so that none is read again while
//! there is memory for it (`kept_vehicles` of agv_store_known).
ghost use Rattle.std.specs.Prelude.{◌≡◌, IfSome, Some};
ghost use Rattle.agv_world_core.specs.Asks.{Asks};
ghost use Rattle.agv_world_core.specs.Questions.{row_of};
ghost use Rattle.agv_store_schema.specs.Connections.{IsClean, IsOpen};
ghost use Rattle.agv_store_floor.specs.Floors.{facts_of, world_at};

use crate::flags::note;
use crate::keyed_floor::KeyedFloor;
use agv_header::{Memory, VehicleKey};
use agv_store_ask::key_queries::query_vehicle;
use agv_store_known::kept_vehicles::kept_row;
use agv_store_rows::trip_laws::rows_have_vehicles;
use agv_world_core::{Fault, VehicleRow};
use sqlite::Alter;

impl<S: Alter + Drop> KeyedFloor<S> {
    /// Returns the cached row of a vehicle, if any.
    pub(crate) fn kept_vehicle(&self, key: &VehicleKey) -> Option<VehicleRow>
        ensures { IfSome result (λ vehicle. IsClean S.Store self.now.held → IsOpen S.Store self.now.held → Some vehicle ≡ row_of (world_at S.Store self.now.held) key.now) }
    {
        rows_have_vehicles();
        kept_row(&self.known.vehicles, key)
    }

    /// Reads the row of a vehicle from the tables.
    pub(crate) fn vehicle_asked(&mut self, key: &VehicleKey) -> Result<Option<VehicleRow>, Fault>
        ensures { Asks (facts_of S.Store) self.old self.new result (λ world row. row ≡ row_of world key.now) }
    {
        let asked = query_vehicle(&mut self.conn, key);
        note(&mut self.failed, &mut self.in_doubt, asked)
    }

    /// Caches the row of a vehicle.
    pub(crate) fn keep_vehicle(
        &mut self,
        key: &VehicleKey,
        vehicle: &VehicleRow,
    ) -> Result<(), Memory>
        requires { IsClean S.Store self.old.held → IsOpen S.Store self.old.held → Some vehicle.now ≡ row_of (world_at S.Store self.old.held) key.now }
        ensures { self.new ≡ self.old }
    {
        rows_have_vehicles();
        self.known.vehicles.insert(*key, *vehicle)
    }
}
