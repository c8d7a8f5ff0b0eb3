//! Decoding the world and the holds from the rows of the eleven tables.
ghost use Rattle.std.specs.Prelude.{◌≡◌, map};
ghost use Rattle.std.specs.FinMap as finite;
ghost use Rattle.agv_store_migrate.specs.FirstTold.{Finds, TellFirst, TellTables, has_first_row, is_first_row, rows_listed, tables_and_holds};
ghost use Rattle.agv_store_read.specs.ReadTables.{Reads, read_rows};
ghost use Rattle.agv_store_rows.specs.Columns.{meta_in, vehicle_in};
ghost use Rattle.agv_store_schema.specs.DeskRows.{place_of, table_at};

use crate::trip_reading::trips_in_rows;
use agv_store_read::asked_tables::{legs_in_rows, places_in_rows};
use agv_store_read::held_rows::holds_in_rows;
use agv_store_read::row_tables::{
    edges_in_rows, has_vehicle, jobs_in_rows, nodes_in_rows, stations_in_rows, used_in_rows,
};
use agv_store_read::{HeldThings, OpenFault};
use agv_store_rows::decode_row::{decode_meta, decode_vehicle};
use agv_store_schema::TableName;
use agv_world_core::{ByVehicle, VehicleRow, World};
use sqlite::Row;
use std::alloc::Global;

// The number of the first schema, as `meta` stores it.
const SCHEMA_NUMBER: u32 = 1;

/// Decodes the lists into the tables of a world and its holds.
pub(crate) fn world_in_lists(
    alloc: Global,
    lists: &[Vec<Row>],
) -> Result<(World, HeldThings), OpenFault>
    ensures { Finds (tables_and_holds result) (λ read. TellFirst (rows_listed lists.now) read.0 read.1) }
{
    if !has_first_row(list_of(lists, TableName::Meta)) {
        return Err(OpenFault::Damaged);
    }
    let tables = tables_in_lists(alloc, lists)?;
    let held = holds_in_rows(alloc, list_of(lists, TableName::Hold))?;
    Ok((tables, held))
}

/// Returns whether the only row is that of `meta` of the first schema.
fn has_first_row(rows: &[Row]) -> bool
    ensures { result ≡ has_first_row rows.now }
{
    match rows {
        [row] => is_first_row(row),
        _ => false,
    }
}

/// Returns whether this is the row of `meta` of the first schema.
fn is_first_row(row: &Row) -> bool
    ensures { result ≡ is_first_row (meta_in row.now) }
{
    match decode_meta(row) {
        None => false,
        Some((id, schema)) => id == 1 && schema == SCHEMA_NUMBER,
    }
}

/// Returns the list of a table; empty if it is missing.
fn list_of(lists: &[Vec<Row>], table: TableName) -> &[Row]
    ensures { result.now ≡ table_at (place_of table) (rows_listed lists.now) }
{
    match lists.get(place_of(table)) {
        Some(rows) => rows.as_slice(),
        None => &[],
    }
}

/// Returns the position of the list of a table.
fn place_of(table: TableName) -> usize
    ensures { result ≡ place_of table }
{
    match table {
        TableName::Meta => 0,
        TableName::Node => 1,
        TableName::Edge => 2,
        TableName::Station => 3,
        TableName::Vehicle => 4,
        TableName::Trip => 5,
        TableName::Leg => 6,
        TableName::Load => 7,
        TableName::Job => 8,
        TableName::Hold => 9,
        TableName::Used => 10,
        TableName::Capacity => 11,
        TableName::Journey => 12,
        TableName::Act => 13,
    }
}

/// Decodes the lists into the tables of a world, without `meta` and the holds.
fn tables_in_lists(alloc: Global, lists: &[Vec<Row>]) -> Result<World, OpenFault>
    ensures { Finds result (TellTables (rows_listed lists.now)) }
{
    let nodes = nodes_in_rows(alloc, list_of(lists, TableName::Node))?;
    let edges = edges_in_rows(alloc, list_of(lists, TableName::Edge))?;
    let stations = stations_in_rows(alloc, list_of(lists, TableName::Station))?;
    let vehicles = first_vehicles_in_rows(alloc, list_of(lists, TableName::Vehicle))?;
    let jobs = jobs_in_rows(alloc, list_of(lists, TableName::Job))?;
    let trips = trips_in_rows(alloc, list_of(lists, TableName::Trip), &jobs)?;
    let legs = legs_in_rows(alloc, list_of(lists, TableName::Leg))?;
    let loads = places_in_rows(alloc, list_of(lists, TableName::Load))?;
    let used = used_in_rows(alloc, list_of(lists, TableName::Used))?;
    Ok(World {
        nodes,
        edges,
        stations,
        vehicles,
        trips,
        legs,
        loads,
        jobs,
        used,
    })
}

/// Decodes these rows into a table of vehicles, each with capacity 1.
fn first_vehicles_in_rows(alloc: Global, rows: &[Row]) -> Result<ByVehicle<VehicleRow>, OpenFault>
    ensures { Reads result (read_rows vehicle_in finite.empty rows.now) }
{
    let mut table = ByVehicle::new(alloc);
    for row in rows {
        match decode_vehicle(row) {
            None => return Err(OpenFault::Damaged),
            Some((key, value)) => {
                if has_vehicle(&table, &key) {
                    return Err(OpenFault::Damaged);
                }
                table.insert(key, value)?;
            }
        }
    }
    Ok(table)
}
