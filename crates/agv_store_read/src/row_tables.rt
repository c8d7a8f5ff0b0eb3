//! Decoding the rows of whole tables, except those that a floor also queries in part (`asked_tables` of
//! agv_store_read).
//!
//! Each row encodes one entry, and no two rows the same key; otherwise the rows are damaged.
ghost use Rattle.std.specs.Prelude.{◌≡◌, is_some};
ghost use Rattle.std.specs.FinMap as map;
ghost use Rattle.std.specs.FinSet as set;
ghost use Rattle.agv_store_rows.specs.Columns.{capacity_in, edge_in, job_in, journey_in, node_in, station_in, used_in};
ghost use Rattle.agv_store_rows.specs.DecodedTrips.{vehicle_with};
ghost use Rattle.agv_store_read.specs.ReadTables.{Reads, read_members, read_rows};

use crate::OpenFault;
use agv_header::VehicleKey;
use agv_layout::{EdgeEnds, StationSite};
use agv_store_rows::decode_row::{
    decode_capacity, decode_edge, decode_job, decode_journey, decode_node, decode_station,
    decode_used, decode_vehicle,
};
use agv_store_rows::{CapacityRow, JourneyRow};
use agv_world_core::{ByName, ByVehicle, JobRow, Names, UseKey, UsedNames, VehicleRow};
use sqlite::Row;
use std::alloc::Global;

/// Decodes these rows into the set of nodes.
pub fn nodes_in_rows(alloc: Global, rows: &[Row]) -> Result<Names, OpenFault>
    ensures { Reads result (read_members node_in set.empty rows.now) }
{
    let mut table = Names::new(alloc);
    for row in rows {
        match decode_node(row) {
            None => return Err(OpenFault::Damaged),
            Some(key) => {
                if table.contains(key) {
                    return Err(OpenFault::Damaged);
                }
                table.insert(key)?;
            }
        }
    }
    Ok(table)
}

/// Decodes these rows into a table of edges.
pub fn edges_in_rows(alloc: Global, rows: &[Row]) -> Result<ByName<EdgeEnds>, OpenFault>
    ensures { Reads result (read_rows edge_in map.empty rows.now) }
{
    let mut table = ByName::new(alloc);
    for row in rows {
        match decode_edge(row) {
            None => return Err(OpenFault::Damaged),
            Some((id, value)) => {
                if !table.insert_new(id, value)? {
                    return Err(OpenFault::Damaged);
                }
            }
        }
    }
    Ok(table)
}

/// Decodes these rows into a table of stations.
pub fn stations_in_rows(alloc: Global, rows: &[Row]) -> Result<ByName<StationSite>, OpenFault>
    ensures { Reads result (read_rows station_in map.empty rows.now) }
{
    let mut table = ByName::new(alloc);
    for row in rows {
        match decode_station(row) {
            None => return Err(OpenFault::Damaged),
            Some((id, value)) => {
                if !table.insert_new(id, value)? {
                    return Err(OpenFault::Damaged);
                }
            }
        }
    }
    Ok(table)
}

/// Returns whether the table has a row of this key.
pub fn has_vehicle(table: &ByVehicle<VehicleRow>, key: &VehicleKey) -> bool
    ensures { result ≡ is_some (map.get table.now key.now) }
{
    table.get(*key).is_some()
}

/// Decodes these rows into a table of vehicles with these capacities.
pub fn vehicles_in_rows(
    alloc: Global,
    rows: &[Row],
    capacities: &ByVehicle<CapacityRow>,
) -> Result<ByVehicle<VehicleRow>, OpenFault>
    ensures { Reads result (read_rows (vehicle_with capacities.now) map.empty rows.now) }
{
    let mut table = ByVehicle::new(alloc);
    for row in rows {
        match vehicle_in_row(row, capacities) {
            None => return Err(OpenFault::Damaged),
            Some((key, value)) => {
                if has_vehicle(&table, &key) {
                    return Err(OpenFault::Damaged);
                }
                table.insert(key, value)?;
            }
        }
    }
    Ok(table)
}

/// Decodes a row into a vehicle with its capacity; `None` if the capacity is missing or the row cannot be decoded.
fn vehicle_in_row(
    row: &Row,
    capacities: &ByVehicle<CapacityRow>,
) -> Option<(VehicleKey, VehicleRow)>
    ensures { result ≡ vehicle_with capacities.now row.now }
{
    let (key, mut vehicle) = decode_vehicle(row)?;
    vehicle.capacity = capacities.get(key)?.capacity;
    Some((key, vehicle))
}

/// Decodes these rows into a table of capacities.
pub fn capacities_in_rows(alloc: Global, rows: &[Row]) -> Result<ByVehicle<CapacityRow>, OpenFault>
    ensures { Reads result (read_rows capacity_in map.empty rows.now) }
{
    let mut table = ByVehicle::new(alloc);
    for row in rows {
        match decode_capacity(row) {
            None => return Err(OpenFault::Damaged),
            Some((key, value)) => {
                if has_capacity(&table, &key) {
                    return Err(OpenFault::Damaged);
                }
                table.insert(key, value)?;
            }
        }
    }
    Ok(table)
}

/// Returns whether the table has a row of this key.
fn has_capacity(table: &ByVehicle<CapacityRow>, key: &VehicleKey) -> bool
    ensures { result ≡ is_some (map.get table.now key.now) }
{
    table.get(*key).is_some()
}

/// Decodes these rows into a table of journeys.
pub fn journeys_in_rows(alloc: Global, rows: &[Row]) -> Result<ByName<JourneyRow>, OpenFault>
    ensures { Reads result (read_rows journey_in map.empty rows.now) }
{
    let mut table = ByName::new(alloc);
    for row in rows {
        match decode_journey(row) {
            None => return Err(OpenFault::Damaged),
            Some((id, value)) => {
                if !table.insert_new(id, value)? {
                    return Err(OpenFault::Damaged);
                }
            }
        }
    }
    Ok(table)
}

/// Decodes these rows into a table of jobs.
pub fn jobs_in_rows(alloc: Global, rows: &[Row]) -> Result<ByName<JobRow>, OpenFault>
    ensures { Reads result (read_rows job_in map.empty rows.now) }
{
    let mut table = ByName::new(alloc);
    for row in rows {
        match decode_job(row) {
            None => return Err(OpenFault::Damaged),
            Some((id, value)) => {
                if !table.insert_new(id, value)? {
                    return Err(OpenFault::Damaged);
                }
            }
        }
    }
    Ok(table)
}

/// Decodes these rows into the set of used names.
pub fn used_in_rows(alloc: Global, rows: &[Row]) -> Result<UsedNames, OpenFault>
    ensures { Reads result (read_members used_in set.empty rows.now) }
{
    let mut table = UsedNames::new(alloc);
    for row in rows {
        match decode_used(row) {
            None => return Err(OpenFault::Damaged),
            Some(key) => {
                if has_used(&table, &key) {
                    return Err(OpenFault::Damaged);
                }
                table.insert(key)?;
            }
        }
    }
    Ok(table)
}

/// Returns whether the set has this key.
fn has_used(table: &UsedNames, key: &UseKey) -> bool
    ensures { result ≡ set.contains table.now key.now }
{
    table.contains(*key)
}
