//! Making a change of the rows of a world in the desk's tables, inside a transaction.
//!
//! Each clause `made` states for one kind of change what the definition of all changes says, in any database that has
//! the desk's tables. What a failed write changed is not committed.
ghost use Rattle.std.specs.Prelude.{None, Some};
ghost use Rattle.agv_world_core.specs.declared.change.Change.TheVariants as row;
ghost use Rattle.agv_store_rows.specs.Columns.{journey_columns, vehicle_columns};
ghost use Rattle.agv_store_schema.specs.DeskRows.{Makes, with_put, without_key};
ghost use Rattle.agv_store_rows.specs.RowKeys.{name_key, vehicle_key};
ghost use Rattle.agv_store_rows.specs.Rows.{listed};
ghost use Rattle.agv_store_schema.specs.declared.table_name.TableName.TheVariants as the;
ghost use Rattle.agv_store_sql.specs.WritesInside.{MakesInside};

use crate::act_writes::{drop_acts, write_acts};
use crate::capacity_writes::write_capacity;
use crate::hold_rows::drop_hold;
use agv_header::{Name, Thing, VehicleKey};
use agv_layout::{EdgeEnds, StationSite};
use agv_stock::Place;
use agv_store_rows::JourneyRow;
use agv_store_rows::key_values::{
    hold_key_values, leg_key_values, name_key_values, vehicle_key_values,
};
use agv_store_rows::row_values::{
    edge_values, hold_values, job_values, journey_values, leg_values, load_values, node_values,
    station_values, used_values, vehicle_values,
};
use agv_store_schema::table_name::TableName;
use agv_store_sql::row_updates::put_over;
use agv_store_sql::row_writes::{delete_row, put_new};
use agv_world_core::{Change, JobRow, LegKey, TripRow, UseKey, VehicleRow};
use sqlite::{Alter, Error, Transaction};

/// Makes the change: puts its row in place of the one with its key, or removes that row.
pub(crate) fn write_change<S: Alter>(
    tx: &mut Transaction<'_, S>,
    change: &Change,
) -> Result<usize, Error>
    ensures { MakesInside S.Store tx.old tx.new result (listed change.now) }
{
    match change {
        Change::Node(id) => write_node(tx, id),
        Change::Edge(id, ends) => write_edge(tx, id, ends),
        Change::Station(id, site) => write_station(tx, id, site),
        Change::Vehicle(key, vehicle) => write_vehicle(tx, key, vehicle),
        Change::Trip(order, trip) => write_trip(tx, order, trip),
        Change::Leg(key, edge) => write_leg(tx, key, edge),
        Change::Load(id, place) => write_load(tx, id, place),
        Change::Job(id, job) => write_job(tx, id, job),
        Change::Hold(thing, key) => write_hold(tx, thing, key),
        Change::Used(key) => write_used(tx, key),
    }
}

/// Writes the node.
fn write_node<S: Alter>(tx: &mut Transaction<'_, S>, id: &Name) -> Result<usize, Error>
    ensures { MakesInside S.Store tx.old tx.new result (listed (row.Node id.now)) }
{
    put_new(tx, TableName::Node, &name_key_values(id), &node_values(id))
}

/// Writes the edge with these ends.
fn write_edge<S: Alter>(
    tx: &mut Transaction<'_, S>,
    id: &Name,
    ends: &EdgeEnds,
) -> Result<usize, Error>
    ensures { MakesInside S.Store tx.old tx.new result (listed (row.Edge id.now ends.now)) }
{
    put_new(
        tx,
        TableName::Edge,
        &name_key_values(id),
        &edge_values(id, ends),
    )
}

/// Writes the station.
fn write_station<S: Alter>(
    tx: &mut Transaction<'_, S>,
    id: &Name,
    site: &StationSite,
) -> Result<usize, Error>
    ensures { MakesInside S.Store tx.old tx.new result (listed (row.Station id.now site.now)) }
{
    put_new(
        tx,
        TableName::Station,
        &name_key_values(id),
        &station_values(id, site),
    )
}

/// Writes the vehicle and its capacity.
fn write_vehicle<S: Alter>(
    tx: &mut Transaction<'_, S>,
    key: &VehicleKey,
    vehicle: &VehicleRow,
) -> Result<usize, Error>
    ensures { MakesInside S.Store tx.old tx.new result (listed (row.Vehicle key.now vehicle.now)) }
{
    put_vehicle(tx, key, vehicle)?;
    write_capacity(tx, key, vehicle)
}

/// Writes the row of the vehicle, without its capacity.
fn put_vehicle<S: Alter>(
    tx: &mut Transaction<'_, S>,
    key: &VehicleKey,
    vehicle: &VehicleRow,
) -> Result<usize, Error>
    ensures { MakesInside S.Store tx.old tx.new result (with_put the.Vehicle (vehicle_key key.now) (vehicle_columns key.now vehicle.now)) }
{
    put_over(
        tx,
        TableName::Vehicle,
        &vehicle_key_values(key),
        &vehicle_values(key, vehicle),
    )
}

/// Writes the open trip of the order, or removes it if there is none.
fn write_trip<S: Alter>(
    tx: &mut Transaction<'_, S>,
    order: &Name,
    trip: &Option<TripRow>,
) -> Result<usize, Error>
    ensures { MakesInside S.Store tx.old tx.new result (listed (row.Trip order.now trip.now)) }
{
    match trip {
        None => drop_trip(tx, order),
        Some(trip) => write_open_trip(tx, order, trip),
    }
}

/// Removes the open trip of the order.
fn drop_trip<S: Alter>(tx: &mut Transaction<'_, S>, order: &Name) -> Result<usize, Error>
    ensures { MakesInside S.Store tx.old tx.new result (listed (row.Trip order.now None)) }
{
    drop_journey(tx, order)?;
    drop_acts(tx, order)
}

/// Removes the journey of the order.
fn drop_journey<S: Alter>(tx: &mut Transaction<'_, S>, order: &Name) -> Result<usize, Error>
    ensures { MakesInside S.Store tx.old tx.new result (without_key the.Journey (name_key order.now)) }
{
    delete_row(tx, TableName::Journey, &name_key_values(order))
}

/// Writes the open trip of the order.
fn write_open_trip<S: Alter>(
    tx: &mut Transaction<'_, S>,
    order: &Name,
    trip: &TripRow,
) -> Result<usize, Error>
    ensures { MakesInside S.Store tx.old tx.new result (listed (row.Trip order.now (Some trip.now))) }
{
    put_journey(tx, order, &JourneyRow::of(trip))?;
    write_acts(tx, order, trip.acts.as_slice())
}

/// Writes the journey of the order.
fn put_journey<S: Alter>(
    tx: &mut Transaction<'_, S>,
    order: &Name,
    journey: &JourneyRow,
) -> Result<usize, Error>
    ensures { MakesInside S.Store tx.old tx.new result (with_put the.Journey (name_key order.now) (journey_columns order.now journey.now)) }
{
    put_over(
        tx,
        TableName::Journey,
        &name_key_values(order),
        &journey_values(order, journey),
    )
}

/// Writes an edge on the way of an open trip, or removes it if there is none.
fn write_leg<S: Alter>(
    tx: &mut Transaction<'_, S>,
    key: &LegKey,
    edge: &Option<Name>,
) -> Result<usize, Error>
    ensures { MakesInside S.Store tx.old tx.new result (listed (row.Leg key.now edge.now)) }
{
    match edge {
        None => drop_leg(tx, key),
        Some(edge) => put_new(
            tx,
            TableName::Leg,
            &leg_key_values(key),
            &leg_values(key, edge),
        ),
    }
}

/// Removes an edge from the way of an open trip.
fn drop_leg<S: Alter>(tx: &mut Transaction<'_, S>, key: &LegKey) -> Result<usize, Error>
    ensures { MakesInside S.Store tx.old tx.new result (listed (row.Leg key.now None)) }
{
    delete_row(tx, TableName::Leg, &leg_key_values(key))
}

/// Writes the place of the load.
fn write_load<S: Alter>(
    tx: &mut Transaction<'_, S>,
    id: &Name,
    place: &Place,
) -> Result<usize, Error>
    ensures { MakesInside S.Store tx.old tx.new result (listed (row.Load id.now place.now)) }
{
    put_over(
        tx,
        TableName::Load,
        &name_key_values(id),
        &load_values(id, place),
    )
}

/// Writes the job.
fn write_job<S: Alter>(tx: &mut Transaction<'_, S>, id: &Name, job: &JobRow) -> Result<usize, Error>
    ensures { MakesInside S.Store tx.old tx.new result (listed (row.Job id.now job.now)) }
{
    put_over(
        tx,
        TableName::Job,
        &name_key_values(id),
        &job_values(id, job),
    )
}

/// Writes which vehicle holds the thing, or removes the hold if none does.
fn write_hold<S: Alter>(
    tx: &mut Transaction<'_, S>,
    thing: &Thing,
    key: &Option<VehicleKey>,
) -> Result<usize, Error>
    ensures { MakesInside S.Store tx.old tx.new result (listed (row.Hold thing.now key.now)) }
{
    match key {
        None => drop_hold(tx, thing),
        Some(key) => put_new(
            tx,
            TableName::Hold,
            &hold_key_values(thing),
            &hold_values(thing, key),
        ),
    }
}

/// Writes the used name.
fn write_used<S: Alter>(tx: &mut Transaction<'_, S>, key: &UseKey) -> Result<usize, Error>
    ensures { MakesInside S.Store tx.old tx.new result (listed (row.Used key.now)) }
{
    put_new(tx, TableName::Used, &used_values(key), &used_values(key))
}
