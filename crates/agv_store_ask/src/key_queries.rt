//! Queries of the tables by a key: a vehicle, a load's place, a job, a station, an edge, a node, a holder, a used name.
//!
//! Each result is that of the lawful world whose rows the tables have (`WorldAnswers.antt` of agv_store_read).
ghost use Rattle.std.specs.Prelude.{◌≡◌};
ghost use Rattle.std.specs.FinMap as map;
ghost use Rattle.std.specs.FinSet as set;
ghost use Rattle.std.specs.Option.{option_map};
ghost use Rattle.agv_world_core.specs.Questions.{row_of, holder_of, is_used};
ghost use Rattle.agv_world_core.specs.declared.row.VehicleRow.{VehicleRow as RowOfVehicle};
ghost use Rattle.agv_store_rows.specs.Columns.{capacity_in, edge_in, hold_in, job_in, load_in, station_in, vehicle_in};
ghost use Rattle.agv_store_read.specs.FirstRow.{first_in};
ghost use Rattle.agv_store_rows.specs.TypedRows.{IsThing};
ghost use Rattle.agv_store_read.specs.WorldAnswers.{AnswersQuery};

use agv_header::{Name, Thing, VehicleKey};
use agv_layout::{EdgeEnds, StationSite};
use agv_stock::Place;
use agv_store_read::OpenFault;
use agv_store_read::queried_rows::query_rows;
use agv_store_rows::CapacityRow;
use agv_store_rows::decode_row::{
    decode_capacity, decode_edge, decode_hold, decode_job, decode_load, decode_station,
    decode_vehicle,
};
use agv_store_rows::key_values::{hold_key_values, name_key_values, vehicle_key_values};
use agv_store_rows::row_values::used_values;
use agv_store_schema::table_name::TableName;
use agv_world_core::{JobRow, UseKey, VehicleRow};
use sqlite::{Alter, Connection, Row};

/// Returns the row of a vehicle, with its capacity; `None` if there is no such vehicle.
///
/// # Errors
/// As [`OpenFault`] says.
pub fn query_vehicle<S: Alter>(
    conn: &mut Connection<S>,
    key: &VehicleKey,
) -> Result<Option<VehicleRow>, OpenFault>
    ensures { AnswersQuery S.Store conn.old conn.new result (λ world row. row ≡ row_of world key.now) }
{
    let vehicle = query_vehicle_row(conn, key)?;
    match vehicle {
        None => Ok(None),
        Some(vehicle) => {
            let capacity = query_capacity(conn, key)?;
            match capacity {
                None => Err(OpenFault::Damaged),
                Some(capacity) => Ok(Some(VehicleRow {
                    capacity: capacity.capacity,
                    ..vehicle
                })),
            }
        }
    }
}

/// Returns the row of a vehicle, with capacity 1 as a placeholder; `None` if there is no such vehicle.
fn query_vehicle_row<S: Alter>(
    conn: &mut Connection<S>,
    key: &VehicleKey,
) -> Result<Option<VehicleRow>, OpenFault>
    ensures { AnswersQuery S.Store conn.old conn.new result (λ world row. row ≡ option_map (λ (vehicle : RowOfVehicle). record vehicle { capacity = 1 }) (row_of world key.now)) }
{
    let rows = query_rows(conn, TableName::Vehicle, &vehicle_key_values(key))?;
    vehicle_in_rows(rows.as_slice())
}

/// Decodes the row of a vehicle from the rows of its key, with capacity 1 as a placeholder.
fn vehicle_in_rows(rows: &[Row]) -> Result<Option<VehicleRow>, OpenFault>
    ensures { result ≡ first_in vehicle_in rows.now }
{
    match rows.first() {
        None => Ok(None),
        Some(row) => match decode_vehicle(row) {
            None => Err(OpenFault::Damaged),
            Some((_, vehicle)) => Ok(Some(vehicle)),
        },
    }
}

/// Returns the capacity of a vehicle; `None` if there is no such vehicle.
fn query_capacity<S: Alter>(
    conn: &mut Connection<S>,
    key: &VehicleKey,
) -> Result<Option<CapacityRow>, OpenFault>
    ensures { AnswersQuery S.Store conn.old conn.new result (λ world row. row ≡ option_map (λ (vehicle : RowOfVehicle). record { capacity = vehicle.capacity }) (row_of world key.now)) }
{
    let rows = query_rows(conn, TableName::Capacity, &vehicle_key_values(key))?;
    capacity_in_rows(rows.as_slice())
}

/// Decodes the capacity of a vehicle from the rows of its key.
fn capacity_in_rows(rows: &[Row]) -> Result<Option<CapacityRow>, OpenFault>
    ensures { result ≡ first_in capacity_in rows.now }
{
    match rows.first() {
        None => Ok(None),
        Some(row) => match decode_capacity(row) {
            None => Err(OpenFault::Damaged),
            Some((_, capacity)) => Ok(Some(capacity)),
        },
    }
}

/// Returns where a load is; `None` if the load is unknown.
///
/// # Errors
/// As [`OpenFault`] says.
pub fn query_place<S: Alter>(
    conn: &mut Connection<S>,
    load: &Name,
) -> Result<Option<Place>, OpenFault>
    ensures { AnswersQuery S.Store conn.old conn.new result (λ world place. place ≡ map.get world.places load.now) }
{
    let rows = query_rows(conn, TableName::Load, &name_key_values(load))?;
    place_in_rows(rows.as_slice())
}

/// Decodes the place of a load from the rows of its id.
fn place_in_rows(rows: &[Row]) -> Result<Option<Place>, OpenFault>
    ensures { result ≡ first_in load_in rows.now }
{
    match rows.first() {
        None => Ok(None),
        Some(row) => match decode_load(row) {
            None => Err(OpenFault::Damaged),
            Some((_, place)) => Ok(Some(place)),
        },
    }
}

/// Returns the row of a job; `None` if the job is unknown.
///
/// # Errors
/// As [`OpenFault`] says.
pub fn query_job<S: Alter>(
    conn: &mut Connection<S>,
    job: &Name,
) -> Result<Option<JobRow>, OpenFault>
    ensures { AnswersQuery S.Store conn.old conn.new result (λ world row. row ≡ map.get world.jobs job.now) }
{
    let rows = query_rows(conn, TableName::Job, &name_key_values(job))?;
    job_in_rows(rows.as_slice())
}

/// Decodes the row of a job from the rows of its id.
fn job_in_rows(rows: &[Row]) -> Result<Option<JobRow>, OpenFault>
    ensures { result ≡ first_in job_in rows.now }
{
    match rows.first() {
        None => Ok(None),
        Some(row) => match decode_job(row) {
            None => Err(OpenFault::Damaged),
            Some((_, job)) => Ok(Some(job)),
        },
    }
}

/// Returns the node of a station and how many loads fit there; `None` if the station is unknown.
///
/// # Errors
/// As [`OpenFault`] says.
pub fn query_station<S: Alter>(
    conn: &mut Connection<S>,
    id: &Name,
) -> Result<Option<StationSite>, OpenFault>
    ensures { AnswersQuery S.Store conn.old conn.new result (λ world site. site ≡ map.get world.layout.stations id.now) }
{
    let rows = query_rows(conn, TableName::Station, &name_key_values(id))?;
    station_in_rows(rows.as_slice())
}

/// Decodes the site of a station from the rows of its id.
fn station_in_rows(rows: &[Row]) -> Result<Option<StationSite>, OpenFault>
    ensures { result ≡ first_in station_in rows.now }
{
    match rows.first() {
        None => Ok(None),
        Some(row) => match decode_station(row) {
            None => Err(OpenFault::Damaged),
            Some((_, site)) => Ok(Some(site)),
        },
    }
}

/// Returns the ends of an edge; `None` if the edge is unknown.
///
/// # Errors
/// As [`OpenFault`] says.
pub fn query_edge<S: Alter>(
    conn: &mut Connection<S>,
    id: &Name,
) -> Result<Option<EdgeEnds>, OpenFault>
    ensures { AnswersQuery S.Store conn.old conn.new result (λ world ends. ends ≡ map.get world.layout.edges id.now) }
{
    let rows = query_rows(conn, TableName::Edge, &name_key_values(id))?;
    ends_in_rows(rows.as_slice())
}

/// Decodes the ends of an edge from the rows of its id.
fn ends_in_rows(rows: &[Row]) -> Result<Option<EdgeEnds>, OpenFault>
    ensures { result ≡ first_in edge_in rows.now }
{
    match rows.first() {
        None => Ok(None),
        Some(row) => match decode_edge(row) {
            None => Err(OpenFault::Damaged),
            Some((_, ends)) => Ok(Some(ends)),
        },
    }
}

/// Returns the vehicle that holds a node or an edge; `None` if it is free.
///
/// # Errors
/// As [`OpenFault`] says.
pub fn query_holder<S: Alter>(
    conn: &mut Connection<S>,
    thing: &Thing,
) -> Result<Option<VehicleKey>, OpenFault>
    ensures { AnswersQuery S.Store conn.old conn.new result (λ world key. key ≡ holder_of world thing.now) }
{
    thing_is_named(thing);
    let rows = query_rows(conn, TableName::Hold, &hold_key_values(thing))?;
    holder_in_rows(rows.as_slice())
}

/// Proves that the id of a node or an edge is a valid name.
fn thing_is_named(thing: &Thing)
    ensures { IsThing thing.now }
{
    match thing {
        Thing::Node(id) => {
            let _ = id.as_bytes();
        }
        Thing::Edge(id) => {
            let _ = id.as_bytes();
        }
    }
}

/// Decodes the holder of a node or an edge from the rows of its key.
fn holder_in_rows(rows: &[Row]) -> Result<Option<VehicleKey>, OpenFault>
    ensures { result ≡ first_in hold_in rows.now }
{
    match rows.first() {
        None => Ok(None),
        Some(row) => match decode_hold(row) {
            None => Err(OpenFault::Damaged),
            Some((_, key)) => Ok(Some(key)),
        },
    }
}

/// Returns whether this is a node of the layout.
///
/// # Errors
/// As [`OpenFault`] says.
pub fn query_node<S: Alter>(conn: &mut Connection<S>, id: &Name) -> Result<bool, OpenFault>
    ensures { AnswersQuery S.Store conn.old conn.new result (λ world known. known ≡ set.contains world.layout.nodes id.now) }
{
    let rows = query_rows(conn, TableName::Node, &name_key_values(id))?;
    Ok(!rows.is_empty())
}

/// Returns whether a name was used for this kind.
///
/// # Errors
/// As [`OpenFault`] says.
pub fn query_used<S: Alter>(conn: &mut Connection<S>, key: &UseKey) -> Result<bool, OpenFault>
    ensures { AnswersQuery S.Store conn.old conn.new result (λ world known. known ≡ is_used world key.now.kind key.now.name) }
{
    let rows = query_rows(conn, TableName::Used, &used_values(key))?;
    Ok(!rows.is_empty())
}
