//! Reading whole tables: those of the layout, of the vehicles, of the loads and of the jobs.
//!
//! Each result is that part of the lawful world whose rows the tables have (`WorldAnswers.antt` of agv_store_read),
//! and it has exactly the rows of the tables, whatever these are (`TablesRead.antt` of agv_store_read). The places of
//! the loads are read one row at a time, any other table as a list of its rows.
ghost use Rattle.std.specs.Prelude.{◌≡◌, IsPermutation};
ghost use Rattle.agv_world_core.specs.Maps.{maps_of};
ghost use Rattle.agv_store_rows.specs.Columns.{capacity_columns, edge_columns, job_columns, load_columns, node_columns, vehicle_capacity_columns, station_columns, vehicle_columns};
ghost use Rattle.agv_store_rows.specs.DecodedTrips.{capacities_of};
ghost use Rattle.agv_store_schema.specs.DeskRows.{place_of, table_at};
ghost use Rattle.agv_store_rows.specs.Rows.{rows_for, rows_in};
ghost use Rattle.agv_store_read.specs.TableChecks.{are_of_vehicles};
ghost use Rattle.agv_store_read.specs.TablesRead.{TellsAll};
ghost use Rattle.agv_store_schema.specs.declared.table_name.TableName.TheVariants as the;

use agv_layout::{EdgeEnds, StationSite};
use agv_stock::Place;
use agv_store_read::OpenFault;
use agv_store_read::all_rows::query_all_rows;
use agv_store_read::asked_tables::take_place;
use agv_store_read::row_tables::{
    capacities_in_rows, edges_in_rows, jobs_in_rows, nodes_in_rows, stations_in_rows,
    vehicles_in_rows,
};
use agv_store_rows::CapacityRow;
use agv_store_schema::table_name::TableName;
use agv_store_sql::query_texts::all_rows;
use agv_world_core::{ByName, ByVehicle, JobRow, Names, VehicleRow};
use sqlite::{Alter, Connection};
use std::alloc::Global;

/// Reads the nodes of the layout.
///
/// # Errors
/// As [`OpenFault`] says.
pub fn query_nodes<S: Alter>(alloc: Global, conn: &mut Connection<S>) -> Result<Names, OpenFault>
    ensures { TellsAll S.Store conn.old conn.new result (λ world table. table ≡ world.layout.nodes) (λ lists table. IsPermutation (table_at (place_of the.Node) lists) (rows_for node_columns table)) }
{
    let rows = query_all_rows(conn, TableName::Node)?;
    nodes_in_rows(alloc, rows.as_slice())
}

/// Reads the edges of the layout by their ids, with the nodes that they join.
///
/// # Errors
/// As [`OpenFault`] says.
pub fn query_edges<S: Alter>(
    alloc: Global,
    conn: &mut Connection<S>,
) -> Result<ByName<EdgeEnds>, OpenFault>
    ensures { TellsAll S.Store conn.old conn.new result (λ world table. table ≡ world.layout.edges) (λ lists table. IsPermutation (table_at (place_of the.Edge) lists) (rows_in edge_columns table)) }
{
    let rows = query_all_rows(conn, TableName::Edge)?;
    edges_in_rows(alloc, rows.as_slice())
}

/// Reads the stations of the layout by their ids, with their nodes and how many loads they take.
///
/// # Errors
/// As [`OpenFault`] says.
pub fn query_stations<S: Alter>(
    alloc: Global,
    conn: &mut Connection<S>,
) -> Result<ByName<StationSite>, OpenFault>
    ensures { TellsAll S.Store conn.old conn.new result (λ world table. table ≡ world.layout.stations) (λ lists table. IsPermutation (table_at (place_of the.Station) lists) (rows_in station_columns table)) }
{
    let rows = query_all_rows(conn, TableName::Station)?;
    stations_in_rows(alloc, rows.as_slice())
}

/// Reads the vehicles by manufacturer and serial number, with their capacities and without their open trips. Each has a
/// row with its capacity, and there are no other such rows.
///
/// # Errors
/// As [`OpenFault`] says.
pub fn query_vehicles<S: Alter>(
    alloc: Global,
    conn: &mut Connection<S>,
) -> Result<ByVehicle<VehicleRow>, OpenFault>
    ensures { TellsAll S.Store conn.old conn.new result (λ world table. table ≡ (maps_of world).vehicles)
        (λ lists table. IsPermutation (table_at (place_of the.Vehicle) lists) (rows_in vehicle_columns table)
        × IsPermutation (table_at (place_of the.Capacity) lists) (rows_in vehicle_capacity_columns table)) }
{
    let capacities = query_capacities(alloc, conn)?;
    let rows = query_all_rows(conn, TableName::Vehicle)?;
    let vehicles = vehicles_in_rows(alloc, rows.as_slice(), &capacities)?;
    if are_of_vehicles(&vehicles, &capacities) {
        Ok(vehicles)
    } else {
        Err(OpenFault::Damaged)
    }
}

/// Reads the capacity of each vehicle.
fn query_capacities<S: Alter>(
    alloc: Global,
    conn: &mut Connection<S>,
) -> Result<ByVehicle<CapacityRow>, OpenFault>
    ensures { TellsAll S.Store conn.old conn.new result
        (λ world table. table ≡ capacities_of (maps_of world).vehicles)
        (λ lists table. IsPermutation (table_at (place_of the.Capacity) lists) (rows_in capacity_columns table)) }
{
    let rows = query_all_rows(conn, TableName::Capacity)?;
    capacities_in_rows(alloc, rows.as_slice())
}

/// Returns whether each of the capacities is that of a vehicle.
fn are_of_vehicles(vehicles: &ByVehicle<VehicleRow>, capacities: &ByVehicle<CapacityRow>) -> bool
    ensures { result ≡ are_of_vehicles vehicles.now capacities.now }
{
    capacities
        .iter()
        .all(|(key, _)| vehicles.get(*key).is_some())
}

/// Reads the place of each load by its id. There may be a million loads, so each row is decoded into the table as the
/// query returns it, and the rows are not collected first.
///
/// # Errors
/// As [`OpenFault`] says.
pub fn query_places<S: Alter>(
    alloc: Global,
    conn: &mut Connection<S>,
) -> Result<ByName<Place>, OpenFault>
    ensures { TellsAll S.Store conn.old conn.new result (λ world table. table ≡ world.places) (λ lists table. IsPermutation (table_at (place_of the.Load) lists) (rows_in load_columns table)) }
{
    let mut table = ByName::new(alloc);
    let mut rows = conn.query(all_rows(TableName::Load), &[])?;
    'rows: loop {
        rows.advance()?;
        let Some(row) = rows.get() else {
            return Ok(table);
        };

        // The count bounds how far the table grows, so that the loop is proved to end.
        let _count = table.len();
        take_place(&mut table, row)?;
    }
}

/// Reads the jobs by their names, also those that have ended.
///
/// # Errors
/// As [`OpenFault`] says.
pub fn query_jobs<S: Alter>(
    alloc: Global,
    conn: &mut Connection<S>,
) -> Result<ByName<JobRow>, OpenFault>
    ensures { TellsAll S.Store conn.old conn.new result (λ world table. table ≡ world.jobs) (λ lists table. IsPermutation (table_at (place_of the.Job) lists) (rows_in job_columns table)) }
{
    let rows = query_all_rows(conn, TableName::Job)?;
    jobs_in_rows(alloc, rows.as_slice())
}
