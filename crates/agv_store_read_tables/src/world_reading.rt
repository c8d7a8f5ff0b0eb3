//! Reading the whole world.
//!
//! The results are as for the other whole tables (`TablesRead.antt` of agv_store_read).
ghost use Rattle.std.specs.Prelude.{◌≡◌, IsPermutation};
ghost use Rattle.agv_world_core.specs.Kept.{Keeps};
ghost use Rattle.agv_world_core.specs.Maps.{maps_of};
ghost use Rattle.agv_store_rows.specs.Columns.{leg_columns, load_columns, vehicle_capacity_columns, used_columns, vehicle_columns};
ghost use Rattle.agv_store_schema.specs.DeskRows.{place_of, table_at};
ghost use Rattle.agv_store_rows.specs.Rows.{rows_for, rows_in};
ghost use Rattle.agv_store_read.specs.TablesRead.{HaveAll, HaveTables, TellsAll};
ghost use Rattle.agv_store_schema.specs.declared.table_name.TableName.TheVariants as the;

use crate::hold_reading::query_holds;
use crate::layout_reading::query_layout_tables;
use crate::meta_reading::query_meta;
use crate::table_reading::{query_places, query_vehicles};
use crate::trip_reading::query_trips;
use crate::world_tables::{query_legs, query_used};
use agv_stock::Place;
use agv_store_read::OpenFault;
use agv_store_read::held_things::HeldThings;
use agv_world_core::{ByLeg, ByName, ByVehicle, UsedNames, VehicleRow, World};
use sqlite::{Alter, Connection};
use std::alloc::Global;

/// Reads all tables except `meta` and that of the holds.
pub fn read_tables<S: Alter>(alloc: Global, conn: &mut Connection<S>) -> Result<World, OpenFault>
    ensures { TellsAll S.Store conn.old conn.new result (λ world tables. Keeps tables world) (λ lists tables. HaveTables lists tables) }
{
    let layout = query_layout_tables(alloc, conn)?;
    let traffic = query_traffic_tables(alloc, conn)?;
    let work = query_trips(alloc, conn)?;
    let stock = query_stock_tables(alloc, conn)?;
    let (nodes, edges, stations) = layout;
    let (vehicles, legs) = traffic;
    let (jobs, trips) = work;
    let (loads, used) = stock;
    Ok(World {
        nodes,
        edges,
        stations,
        vehicles,
        trips,
        legs,
        loads,
        jobs,
        used,
    })
}

/// Reads the vehicles, and the edges of all open trips.
fn query_traffic_tables<S: Alter>(
    alloc: Global,
    conn: &mut Connection<S>,
) -> Result<(ByVehicle<VehicleRow>, ByLeg), OpenFault>
    ensures { TellsAll S.Store conn.old conn.new result
        (λ world tables. (tables.0 ≡ (maps_of world).vehicles) × (tables.1 ≡ (maps_of world).legs))
        (λ lists tables. IsPermutation (table_at (place_of the.Vehicle) lists) (rows_in vehicle_columns tables.0)
        × IsPermutation (table_at (place_of the.Capacity) lists) (rows_in vehicle_capacity_columns tables.0)
        × IsPermutation (table_at (place_of the.Leg) lists) (rows_in leg_columns tables.1)) }
{
    let vehicles = query_vehicles(alloc, conn)?;
    let legs = query_legs(alloc, conn)?;
    Ok((vehicles, legs))
}

/// Reads the place of each load, and the names that were used.
fn query_stock_tables<S: Alter>(
    alloc: Global,
    conn: &mut Connection<S>,
) -> Result<(ByName<Place>, UsedNames), OpenFault>
    ensures { TellsAll S.Store conn.old conn.new result
        (λ world tables. (tables.0 ≡ world.places) × (tables.1 ≡ (maps_of world).used))
        (λ lists tables. IsPermutation (table_at (place_of the.Load) lists) (rows_in load_columns tables.0)
        × IsPermutation (table_at (place_of the.Used) lists) (rows_for used_columns tables.1)) }
{
    let places = query_places(alloc, conn)?;
    let used = query_used(alloc, conn)?;
    Ok((places, used))
}

/// Reads all tables: those of the world in memory, and the holds. The row of `meta` has to be that of the second
/// schema.
///
/// If `is_lawful` of `agv_world_lawful`, called with [`DESK_SEATS`](agv_store_schema::DESK_SEATS) seats, and
/// [`HeldThings::are_footprints`] both return `true`, the database has the rows of a lawful world, in which no capacity
/// is above the seats (`reading_laws`); if one returns `false`, it has the rows of no such world.
///
/// # Errors
/// As [`OpenFault`] says.
pub fn read_world<S: Alter>(
    alloc: Global,
    conn: &mut Connection<S>,
) -> Result<(World, HeldThings), OpenFault>
    ensures { TellsAll S.Store conn.old conn.new result
        (λ world read. Keeps read.0 world × (read.1.table ≡ (maps_of world).holds))
        (λ lists read. HaveAll lists read.0 read.1.table) }
{
    query_meta(conn)?;
    let tables = read_tables(alloc, conn)?;
    let holds = query_holds(alloc, conn)?;
    Ok((tables, holds))
}
