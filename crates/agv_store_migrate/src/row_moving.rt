//! Rewriting the rows of the first schema as the second has them, inside a transaction on a database that has the
//! fourteen tables.
//!
//! Each clause `made` states the effect on the rows, whatever they are. What a failed write changed is not committed.
ghost use Rattle.std.specs.Prelude.{◌≡◌, ◌≤◌, [], ◌∷◌, IsTrue, OnOk, length};
ghost use Rattle.std.specs.List.{flat_map};
ghost use Rattle.std.specs.FinMap as finite;
ghost use Rattle.sqlite.specs.Values.{bound};
ghost use Rattle.agv_store_schema.specs.declared.table_name.TableName.TheVariants as the;
ghost use Rattle.agv_store_migrate.specs.MoveStatements.{HaveFewActs, capacity_inserted, meta_emptied, number_inserted, row_statements, trip_emptied, trip_inserted};
ghost use Rattle.agv_store_migrate.specs.Moved.{for_each, moved_lists, numbered_anew, with_journey, with_vehicle_capacity, without_all};
ghost use Rattle.agv_store_rows.specs.Columns.{journey_columns, meta_columns, vehicle_capacity_columns};
ghost use Rattle.agv_store_schema.specs.DeskRows.{Makes, with_row};
ghost use Rattle.agv_store_schema.specs.SchemaNumbers.{schema_number};
ghost use Rattle.agv_store_sql.specs.Refusals.{EndsInside, insertions};
ghost use Rattle.agv_store_sql.specs.WritesInside.{MakesInside, WritesInside};

use agv_header::{Name, VehicleKey};
use agv_store_changes::act_writes::add_acts;
use agv_store_rows::JourneyRow;
use agv_store_rows::row_values::{capacity_values, journey_values};
use agv_store_schema::table_name::TableName;
use agv_store_sql::row_writes::insert_row;
use agv_world_core::{ByName, ByVehicle, TripRow, VehicleRow, World};
use sqlite::types::{ToSql, ValueRef};
use sqlite::{Alter, Error, Transaction};

/// Writes the open trips as journeys and acts, a row with the capacity of each vehicle, and the number of the second
/// schema in `meta`.
pub(crate) fn move_rows<S: Alter>(tx: &mut Transaction<'_, S>, tables: &World) -> Result<(), Error>
    ensures made { MakesInside S.Store tx.old tx.new result (moved_lists tables.now) }
    ensures ends { HaveFewActs tables.now.trips → EndsInside S.Store tx.old tx.new (row_statements tables.now) result }
{
    empty_trips(tx)?;
    number_anew(tx)?;
    add_capacities(tx, &tables.vehicles)?;
    add_trips(tx, &tables.trips)
}

/// Deletes all rows of `trip`.
fn empty_trips<S: Alter>(tx: &mut Transaction<'_, S>) -> Result<usize, Error>
    ensures made { MakesInside S.Store tx.old tx.new result (without_all the.Trip) }
    ensures ends { EndsInside S.Store tx.old tx.new (trip_emptied ∷ []) result }
{
    tx.execute("DELETE FROM trip", &[])
}

/// Writes the number of the second schema into `meta`.
fn number_anew<S: Alter>(tx: &mut Transaction<'_, S>) -> Result<usize, Error>
    ensures made { MakesInside S.Store tx.old tx.new result numbered_anew }
    ensures ends { EndsInside S.Store tx.old tx.new (meta_emptied ∷ number_inserted ∷ []) result }
{
    clear_number(tx)?;
    write_number(tx)
}

/// Deletes the row of `meta`.
fn clear_number<S: Alter>(tx: &mut Transaction<'_, S>) -> Result<usize, Error>
    ensures made { MakesInside S.Store tx.old tx.new result (without_all the.Meta) }
    ensures ends { EndsInside S.Store tx.old tx.new (meta_emptied ∷ []) result }
{
    tx.execute("DELETE FROM meta", &[])
}

/// Inserts the row of `meta` with the number of the second schema.
fn write_number<S: Alter>(tx: &mut Transaction<'_, S>) -> Result<usize, Error>
    ensures made { MakesInside S.Store tx.old tx.new result (with_row the.Meta (meta_columns 1 schema_number)) }
    ensures ends { EndsInside S.Store tx.old tx.new (number_inserted ∷ []) result }
{
    tx.execute(
        "INSERT INTO meta (id, schema) VALUES (?1, ?2)",
        &number_values(),
    )
}

/// Returns the row of `meta` of the second schema.
fn number_values() -> [ValueRef<'static>; 2]
    ensures { bound result ≡ meta_columns 1 schema_number }
{
    [1u32.to_sql(), 2u32.to_sql()]
}

/// Inserts the capacity of each vehicle.
fn add_capacities<S: Alter>(
    tx: &mut Transaction<'_, S>,
    vehicles: &ByVehicle<VehicleRow>,
) -> Result<(), Error>
    ensures made { WritesInside S.Store tx.old tx.new (λ before after. IsTrue before.in_transaction
        → OnOk result (Makes (for_each with_vehicle_capacity (finite.entries vehicles.now)) before after)) }
    ensures ends { EndsInside S.Store tx.old tx.new (flat_map capacity_inserted (finite.entries vehicles.now)) result }
{
    for (key, vehicle) in vehicles.iter() {
        add_capacity(tx, key, vehicle)?;
    }
    Ok(())
}

/// Inserts the capacity of a vehicle.
fn add_capacity<S: Alter>(
    tx: &mut Transaction<'_, S>,
    key: &VehicleKey,
    vehicle: &VehicleRow,
) -> Result<usize, Error>
    ensures made { MakesInside S.Store tx.old tx.new result (with_row the.Capacity (vehicle_capacity_columns key.now vehicle.now)) }
    ensures ends { EndsInside S.Store tx.old tx.new (capacity_inserted (key.now, vehicle.now)) result }
{
    insert_row(tx, TableName::Capacity, &capacity_values(key, vehicle))
}

/// Inserts the journey and the acts of each open trip.
fn add_trips<S: Alter>(tx: &mut Transaction<'_, S>, trips: &ByName<TripRow>) -> Result<(), Error>
    ensures made { WritesInside S.Store tx.old tx.new (λ before after. IsTrue before.in_transaction
        → OnOk result (Makes (for_each with_journey (finite.entries trips.now)) before after)) }
    ensures ends { HaveFewActs trips.now → EndsInside S.Store tx.old tx.new (flat_map trip_inserted (finite.entries trips.now)) result }
{
    for (order, trip) in trips.iter() {
        add_trip(tx, order, trip)?;
    }
    Ok(())
}

/// Inserts the journey and the acts of an open trip.
fn add_trip<S: Alter>(
    tx: &mut Transaction<'_, S>,
    order: &Name,
    trip: &TripRow,
) -> Result<(), Error>
    ensures made { MakesInside S.Store tx.old tx.new result (with_journey (order.now, trip.now)) }
    ensures ends { length trip.now.acts ≤ 4294967296 → EndsInside S.Store tx.old tx.new (trip_inserted (order.now, trip.now)) result }
{
    add_journey(tx, order, &JourneyRow::of(trip))?;
    add_acts(tx, order, trip.acts.as_slice())
}

/// Inserts the journey of an open trip.
fn add_journey<S: Alter>(
    tx: &mut Transaction<'_, S>,
    order: &Name,
    journey: &JourneyRow,
) -> Result<usize, Error>
    ensures made { MakesInside S.Store tx.old tx.new result (with_row the.Journey (journey_columns order.now journey.now)) }
    ensures ends { EndsInside S.Store tx.old tx.new (insertions the.Journey (journey_columns order.now journey.now ∷ [])) result }
{
    insert_row(tx, TableName::Journey, &journey_values(order, journey))
}
