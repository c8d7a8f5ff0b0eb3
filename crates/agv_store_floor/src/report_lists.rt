//! The lists of a report and of the exports, each in its order.
ghost use Rattle.std.specs.Prelude.{◌≡◌, ◌<◌, ◌+◌, ◌^◌, ℕ, List, map, IfOk, IfSome};
ghost use Rattle.std.specs.FinMap as finite;
ghost use Rattle.std.specs.FinSet as set;
ghost use Rattle.std.specs.Map.{keys_of};
ghost use Rattle.agv_layout.specs.Layout.{station_of};
ghost use Rattle.agv_layout.specs.LayoutOf.{rows_in};
ghost use Rattle.agv_layout.specs.declared.station.StationSite.{StationSite as SiteOf};
ghost use Rattle.agv_count_exports.specs.Exports.{jobs_told, vehicles_told};
ghost use Rattle.agv_world_core.specs.Asks.{Asks};
ghost use Rattle.agv_world_core.specs.Lawful.{IsLawful};
ghost use Rattle.agv_world_core.specs.Questions.{reserved, stations_told};
ghost use Rattle.agv_world_core.specs.Maps.{maps_of};
ghost use Rattle.agv_store_schema.specs.SchemaNumbers.{desk_seats};
ghost use Rattle.agv_store_schema.specs.Connections.{IsClean, IsOpen};
ghost use Rattle.agv_store_floor.specs.Floors.{facts_of, world_at};
ghost use Rattle.agv_store_floor.specs.ReportLists.{entered, rows_of, with_trip};

use crate::keyed_floor::KeyedFloor;
use agv_count_exports::VehicleTold;
use agv_header::{Memory, Name, Thing, VehicleKey};
use agv_layout::laws::{gives_itself, needs_a_node};
use agv_layout::{Layout, LayoutRow, Station, StationSite};
use agv_stock::Place;
use agv_store_known::kept_jobs;
use agv_store_read::HeldThings;
use agv_world_core::{ByVehicle, Fault, Floor, JobRow, VehicleRow};
use sqlite::Alter;
use std::alloc::Global;
use std::collections::BTreeMap;

impl<S: Alter + Drop> KeyedFloor<S> {
    /// Returns the stations by id, each with the number of live jobs to it.
    pub fn stations_told(&mut self) -> Result<Vec<(Station, u32)>, Fault>
        ensures { Asks (facts_of S.Store) self.old self.new result (λ world stations. IsLawful desk_seats world → stations.items ≡ stations_told world) }
    {
        let table = self.all_stations()?;
        let sites = table.list(self.alloc)?;
        self.with_jobs(&sites)
    }

    /// Returns these stations, each with the number of live jobs to it.
    fn with_jobs(&mut self, sites: &[(Name, StationSite)]) -> Result<Vec<(Station, u32)>, Fault>
        ensures { Asks (facts_of S.Store) self.old self.new result (λ world stations. IsLawful desk_seats world → stations.items ≡ map (λ (site : List ℕ × SiteOf). (station_of site.0 site.1, reserved world site.0)) sites.now) }
    {
        let mut stations = Vec::new(self.alloc);
        for (id, site) in sites {
            let jobs = self.jobs_to(*id)?;
            stations.push((station_of(*id, site), jobs))?;
        }
        Ok(stations)
    }

    /// Returns the number of live jobs to a station.
    fn jobs_to(&mut self, station: Name) -> Result<u32, Fault>
        ensures { Asks (facts_of S.Store) self.old self.new result (λ world jobs. IsLawful desk_seats world → jobs ≡ reserved world station) }
    {
        let jobs = self.reserved(station)?;
        Ok(told_number(jobs))
    }

    /// Returns the loads by id, each with its place.
    pub fn loads_told(&mut self) -> Result<Vec<(Name, Place)>, Fault>
        ensures { Asks (facts_of S.Store) self.old self.new result (λ world loads. loads.items ≡ finite.entries world.places) }
    {
        let table = self.all_places()?;
        let loads = table.list(self.alloc)?;
        Ok(loads)
    }

    /// Returns the vehicles by manufacturer and serial number.
    pub fn vehicles_told(&mut self) -> Result<Vec<VehicleKey>, Fault>
        ensures { Asks (facts_of S.Store) self.old self.new result (λ world keys. keys.items ≡ keys_of (finite.entries world.vehicles)) }
    {
        let table = self.all_vehicles()?;
        let keys = keys_of(self.alloc, &table)?;
        Ok(keys)
    }

    /// Returns the vehicles by manufacturer and serial number, each with its row and its open trip, if any.
    pub fn vehicles_with_trips_told(&mut self) -> Result<Vec<VehicleTold>, Fault>
        ensures { Asks (facts_of S.Store) self.old self.new result (λ world vehicles. vehicles.items ≡ vehicles_told world) }
    {
        let table = self.all_vehicles()?;
        let vehicles = self.with_trips(&table)?;
        Ok(vehicles)
    }

    /// Returns these vehicles with their rows, each with its open trip, if any.
    fn with_trips(&mut self, table: &ByVehicle<VehicleRow>) -> Result<Vec<VehicleTold>, Fault>
        ensures { Asks (facts_of S.Store) self.old self.new result (λ world vehicles. vehicles.items ≡ map (with_trip world) (finite.entries table.now)) }
    {
        let mut vehicles = Vec::new(self.alloc);
        for (key, row) in table.iter() {
            let trip = self.trip(*key)?;
            vehicles.push(VehicleTold {
                key: *key,
                row: *row,
                trip,
            })?;
        }
        Ok(vehicles)
    }

    /// Returns the live jobs by name. Unless they are cached, it reads all jobs, and caches the live ones.
    pub fn jobs_told(&mut self) -> Result<Vec<(Name, JobRow)>, Fault>
        ensures { Asks (facts_of S.Store) self.old self.new result (λ world jobs. jobs.items ≡ jobs_told world) }
    {
        let kept = self.kept_jobs()?;
        if let Some(jobs) = kept {
            self.settle()?;
            return Ok(jobs);
        }
        let table = self.all_jobs()?;
        let live = kept_jobs::of(self.alloc, &table)?;
        let jobs = live.list(self.alloc)?;
        self.keep_jobs(live);
        Ok(jobs)
    }

    /// Returns the rows of the layout: its nodes, its edges and its stations, each by id. Before the layout is set there
    /// are none.
    pub fn layout_told(&mut self) -> Result<Vec<LayoutRow>, Fault>
        ensures { Asks (facts_of S.Store) self.old self.new result (λ world rows. IsLawful desk_seats world → rows.items ≡ rows_in world.layout) }
    {
        gives_itself();
        needs_a_node();
        let layout = self.layout()?;
        let rows = rows_of(self.alloc, &layout)?;
        Ok(rows)
    }

    /// Returns the held nodes and edges with their vehicles: the nodes first, then the edges, each by id.
    pub fn holds_told(&mut self) -> Result<Vec<(Thing, VehicleKey)>, Fault>
        ensures { Asks (facts_of S.Store) self.old self.new result (λ world holds. holds.items ≡ finite.entries (maps_of world).holds) }
    {
        let held = self.all_holds()?;
        let holds = holds_of(self.alloc, &held)?;
        Ok(holds)
    }

    /// Returns how many nodes and edges there are: in the cached layout, if any, else in the tables.
    pub fn things_counted(&mut self) -> Result<u32, Fault>
        ensures { Asks (facts_of S.Store) self.old self.new result (λ world count. IsLawful desk_seats world → count ≡ set.len world.layout.nodes + finite.len world.layout.edges) }
    {
        if let Some(things) = self.kept_things() {
            self.settle()?;
            return Ok(things);
        }
        let nodes = self.all_nodes()?;
        let edges = self.all_edges()?;
        Ok(told_number(nodes.len().saturating_add(edges.len())))
    }

    /// Returns how many nodes and edges the cached layout has, if any.
    fn kept_things(&self) -> Option<u32>
        ensures { IfSome result (λ things. IsClean S.Store self.now.held → IsOpen S.Store self.now.held → IsLawful desk_seats (world_at S.Store self.now.held)
            → things ≡ set.len (world_at S.Store self.now.held).layout.nodes + finite.len (world_at S.Store self.now.held).layout.edges) }
    {
        match &self.known.layout {
            None => None,
            Some(layout) => Some(told_number(
                layout.node_count().saturating_add(layout.edge_count()),
            )),
        }
    }
}

/// Returns the station of this id at this site.
fn station_of(id: Name, site: &StationSite) -> Station
    ensures { result ≡ station_of id site.now }
{
    Station {
        id,
        node: site.node,
        capacity: site.capacity,
    }
}

/// Converts a number to the type that reports use; no count of a lawful world is too large for it.
fn told_number(number: usize) -> u32
    ensures { number < 2 ^ 32 → result ≡ number }
{
    u32::try_from(number).unwrap_or(u32::MAX)
}

/// Returns the vehicles of a table, in its order.
fn keys_of(alloc: Global, table: &ByVehicle<VehicleRow>) -> Result<Vec<VehicleKey>, Memory>
    ensures { IfOk result (λ keys. keys.items ≡ keys_of (finite.entries table.now)) }
{
    let mut keys = Vec::new(alloc);
    for (key, _) in table.iter() {
        keys.push(*key)?;
    }
    Ok(keys)
}

/// Returns the rows of a layout, if there is one: its nodes, its edges and its stations, each by id.
fn rows_of(alloc: Global, layout: &Option<Layout>) -> Result<Vec<LayoutRow>, Memory>
    ensures { IfOk result (λ rows. rows.items ≡ rows_of layout.now) }
{
    match layout {
        None => Ok(Vec::new(alloc)),
        Some(layout) => layout.rows(alloc),
    }
}

/// Returns the held nodes and edges with their vehicles: the nodes first, then the edges, each by id.
fn holds_of(alloc: Global, held: &HeldThings) -> Result<Vec<(Thing, VehicleKey)>, Memory>
    ensures { IfOk result (λ holds. holds.items ≡ finite.entries held.now.table) }
{
    let holders = in_order(alloc, &held.pairs)?;
    let mut holds = Vec::new(alloc);
    for (thing, key) in holders.iter() {
        holds.push((*thing, *key))?;
    }
    Ok(holds)
}

/// Returns these pairs in the order of their things, each thing once.
fn in_order(
    alloc: Global,
    pairs: &[(Thing, VehicleKey)],
) -> Result<BTreeMap<Thing, VehicleKey>, Memory>
    ensures { IfOk result (λ holders. finite.from_entries holders.entries ≡ entered finite.empty pairs.now) }
{
    let mut holders = BTreeMap::new(alloc);
    for (thing, key) in pairs {
        holders.insert(*thing, *key)?;
    }
    Ok(holders)
}
