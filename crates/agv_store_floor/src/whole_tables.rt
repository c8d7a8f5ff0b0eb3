//! Reading whole tables for a report or an export.
ghost use Rattle.std.specs.Prelude.{◌≡◌};
ghost use Rattle.agv_world_core.specs.Asks.{Asks};
ghost use Rattle.agv_world_core.specs.Maps.{maps_of};
ghost use Rattle.agv_store_floor.specs.Floors.{facts_of};

use crate::flags::note;
use crate::keyed_floor::KeyedFloor;
use agv_layout::{EdgeEnds, StationSite};
use agv_stock::Place;
use agv_store_read::HeldThings;
use agv_store_read_tables::hold_reading::query_holds;
use agv_store_read_tables::table_reading::{
    query_edges, query_jobs, query_nodes, query_places, query_stations, query_vehicles,
};
use agv_world_core::{ByName, ByVehicle, Fault, JobRow, Names, VehicleRow};
use sqlite::Alter;

impl<S: Alter + Drop> KeyedFloor<S> {
    /// Reads the nodes of the layout.
    pub(crate) fn all_nodes(&mut self) -> Result<Names, Fault>
        ensures { Asks (facts_of S.Store) self.old self.new result (λ world table. table ≡ world.layout.nodes) }
    {
        let asked = query_nodes(self.alloc, &mut self.conn);
        note(&mut self.failed, &mut self.in_doubt, asked)
    }

    /// Reads the edges of the layout.
    pub(crate) fn all_edges(&mut self) -> Result<ByName<EdgeEnds>, Fault>
        ensures { Asks (facts_of S.Store) self.old self.new result (λ world table. table ≡ world.layout.edges) }
    {
        let asked = query_edges(self.alloc, &mut self.conn);
        note(&mut self.failed, &mut self.in_doubt, asked)
    }

    /// Reads the stations of the layout.
    pub(crate) fn all_stations(&mut self) -> Result<ByName<StationSite>, Fault>
        ensures { Asks (facts_of S.Store) self.old self.new result (λ world table. table ≡ world.layout.stations) }
    {
        let asked = query_stations(self.alloc, &mut self.conn);
        note(&mut self.failed, &mut self.in_doubt, asked)
    }

    /// Reads the vehicles, without their open trips.
    pub(crate) fn all_vehicles(&mut self) -> Result<ByVehicle<VehicleRow>, Fault>
        ensures { Asks (facts_of S.Store) self.old self.new result (λ world table. table ≡ (maps_of world).vehicles) }
    {
        let asked = query_vehicles(self.alloc, &mut self.conn);
        note(&mut self.failed, &mut self.in_doubt, asked)
    }

    /// Reads the place of each load.
    pub(crate) fn all_places(&mut self) -> Result<ByName<Place>, Fault>
        ensures { Asks (facts_of S.Store) self.old self.new result (λ world table. table ≡ world.places) }
    {
        let asked = query_places(self.alloc, &mut self.conn);
        note(&mut self.failed, &mut self.in_doubt, asked)
    }

    /// Reads the jobs, also those that have ended.
    pub(crate) fn all_jobs(&mut self) -> Result<ByName<JobRow>, Fault>
        ensures { Asks (facts_of S.Store) self.old self.new result (λ world table. table ≡ world.jobs) }
    {
        let asked = query_jobs(self.alloc, &mut self.conn);
        note(&mut self.failed, &mut self.in_doubt, asked)
    }

    /// Reads the holds: each held node or edge with its vehicle.
    pub(crate) fn all_holds(&mut self) -> Result<HeldThings, Fault>
        ensures { Asks (facts_of S.Store) self.old self.new result (λ world held. held.table ≡ (maps_of world).holds) }
    {
        let asked = query_holds(self.alloc, &mut self.conn);
        note(&mut self.failed, &mut self.in_doubt, asked)
    }
}
