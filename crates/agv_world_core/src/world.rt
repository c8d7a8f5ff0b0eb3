//! The world in memory: its tables.
ghost use Rattle.std.specs.Prelude.{◌≡◌, [], IfOk, IsOk, OnOk, OnErr};
ghost use Rattle.agv_world_core.specs.Changes.{change, changed};
ghost use Rattle.agv_world_core.specs.Kept.{Agrees, Keeps};
ghost use Rattle.agv_world_core.specs.Maps.{Maps, maps_of};
ghost use Rattle.agv_header.specs.Spread.{edit};
ghost use Rattle.agv_world_core.specs.Worlds.{World as WorldOf, empty_world};

use crate::{
    ByLeg, ByName, ByVehicle, Change, JobRow, LegKey, Names, TripRow, UsedNames, VehicleRow,
};
use agv_header::{Memory, Name};
use agv_layout::{EdgeEnds, StationSite};
use agv_stock::Place;
use std::alloc::Global;

/// What the desk knows, as the tables of its rows. No table says who holds a node or an edge: that
/// follows from the vehicles and their trips.
#[derive(Debug, Drop)]
pub struct World {
    /// The nodes of the layout.
    pub nodes: Names,
    /// The edges of the layout.
    pub edges: ByName<EdgeEnds>,
    /// The stations of the layout.
    pub stations: ByName<StationSite>,
    /// The vehicles, without their open trips.
    pub vehicles: ByVehicle<VehicleRow>,
    /// The open trips by their orders, without their edges.
    pub trips: ByName<TripRow>,
    /// The edges of the open trips.
    pub legs: ByLeg,
    /// Where each load is.
    pub loads: ByName<Place>,
    /// The jobs.
    pub jobs: ByName<JobRow>,
    /// The names of orders, and the references, that were used.
    pub used: UsedNames,
}

impl World {
    /// Returns the world of a desk that knows nothing yet: no layout, vehicle, load or job.
    pub fn empty(alloc: Global) -> World
        ensures { Keeps result empty_world }
    {
        World {
            nodes: Names::new(alloc),
            edges: ByName::new(alloc),
            stations: ByName::new(alloc),
            vehicles: ByVehicle::new(alloc),
            trips: ByName::new(alloc),
            legs: ByLeg::new(alloc),
            loads: ByName::new(alloc),
            jobs: ByName::new(alloc),
            used: UsedNames::new(alloc),
        }
    }

    /// Returns a world equal to this one.
    ///
    /// Returns `Memory` if an allocation was refused.
    pub fn copy(&self) -> Result<World, Memory>
        ensures { IfOk result (λ copy. copy ≡ self.now) }
    {
        Ok(World {
            nodes: self.nodes.copy()?,
            edges: self.edges.copy()?,
            stations: self.stations.copy()?,
            vehicles: self.vehicles.copy()?,
            trips: self.trips.copy()?,
            legs: self.legs.copy()?,
            loads: self.loads.copy()?,
            jobs: self.jobs.copy()?,
            used: self.used.copy()?,
        })
    }

    /// Carries out the changes. If they lead from the maps of this world to those of some other world,
    /// this is that world afterwards.
    ///
    /// Returns `Memory` if an allocation was refused; then nothing has changed. It copies the world, so it
    /// takes time and memory in proportion to it, and for each change time in proportion to the logarithm
    /// of the rows. Without changes it takes neither.
    pub fn apply(&mut self, changes: &[Change]) -> Result<(), Memory>
        ensures applied { OnOk result ((world next : WorldOf) → Keeps self.old world → changed changes.now (maps_of world) ≡ maps_of next → Keeps self.new next) }
        ensures agrees { OnOk result ((maps : Maps) → Agrees self.old maps → Agrees self.new (changed changes.now maps)) }
        ensures refused { OnErr result (self.new ≡ self.old) }
        ensures unchanged { changes.now ≡ [] → IsOk result × (self.new ≡ self.old) }
    {
        if changes.is_empty() {
            return Ok(());
        }
        let mut next = self.copy()?;
        next.put_all(changes)?;
        *self = next;
        Ok(())
    }

    /// Carries out the changes one after the other; after an error it has carried out some of them.
    fn put_all(&mut self, changes: &[Change]) -> Result<(), Memory>
        ensures { OnOk result ((maps : Maps) → Agrees self.old maps → Agrees self.new (changed changes.now maps)) }
    {
        for written in changes {
            self.put(written)?;
        }
        Ok(())
    }

    /// Carries out one change; a hold is ignored, since holds have no table here.
    fn put(&mut self, written: &Change) -> Result<(), Memory>
        ensures { OnOk result ((maps : Maps) → Agrees self.old maps → Agrees self.new (change maps written.now)) }
    {
        match written {
            Change::Node(id) => self.nodes.insert(*id),
            Change::Edge(id, ends) => self.edges.insert(*id, *ends),
            Change::Station(id, site) => self.stations.insert(*id, *site),
            Change::Vehicle(key, row) => self.vehicles.insert(*key, *row),
            Change::Trip(order, row) => put_trip(&mut self.trips, *order, row),
            Change::Leg(key, edge) => put_leg(&mut self.legs, *key, *edge),
            Change::Load(id, place) => self.loads.insert(*id, *place),
            Change::Job(id, row) => self.jobs.insert(*id, *row),
            Change::Hold(_, _) => Ok(()),
            Change::Used(key) => self.used.insert(*key),
        }
    }
}

/// Writes the row of an open trip, or removes it if there is none to write.
fn put_trip(trips: &mut ByName<TripRow>, order: Name, row: &Option<TripRow>) -> Result<(), Memory>
    ensures { OnOk result (trips.new ≡ edit trips.old order row.now) }
{
    match row {
        Some(row) => trips.insert(order, row.clone()?)?,
        None => trips.remove(order),
    }
    Ok(())
}

/// Writes the edge of an open trip, or removes it if there is none to write.
fn put_leg(legs: &mut ByLeg, key: LegKey, edge: Option<Name>) -> Result<(), Memory>
    ensures { OnOk result (legs.new ≡ edit legs.old key edge) }
{
    match edge {
        Some(edge) => legs.insert(key, edge)?,
        None => legs.remove(key),
    }
    Ok(())
}
