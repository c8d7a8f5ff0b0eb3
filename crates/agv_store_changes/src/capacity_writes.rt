//! Writing the capacity of a vehicle inside a transaction, unless its row is there already.
ghost use Rattle.std.specs.Prelude.{IsTrue, OnOk};
ghost use Rattle.agv_store_rows.specs.Columns.{vehicle_capacity_columns};
ghost use Rattle.agv_store_schema.specs.DeskRows.{Makes, with_put};
ghost use Rattle.agv_store_rows.specs.RowKeys.{vehicle_key};
ghost use Rattle.agv_store_schema.specs.declared.table_name.TableName.TheVariants as the;
ghost use Rattle.agv_store_sql.specs.WritesInside.{MakesInside, WritesInside};

use crate::shown_rows::is_only_capacity;
use agv_header::VehicleKey;
use agv_store_rows::key_values::vehicle_key_values;
use agv_store_rows::row_values::capacity_values;
use agv_store_schema::table_name::TableName;
use agv_store_sql::row_finds::find_rows_inside;
use agv_store_sql::row_writes::put_new;
use agv_world_core::VehicleRow;
use sqlite::{Alter, Error, Transaction};

/// Writes the capacity of the vehicle. It never changes while the vehicle is registered, so its row is looked up first,
/// and written only if it is not there.
pub(crate) fn write_capacity<S: Alter>(
    tx: &mut Transaction<'_, S>,
    key: &VehicleKey,
    vehicle: &VehicleRow,
) -> Result<usize, Error>
    ensures { WritesInside S.Store tx.old tx.new (λ before after. IsTrue before.in_transaction
        → OnOk result (Makes (with_put the.Capacity (vehicle_key key.now) (vehicle_capacity_columns key.now vehicle.now)) before after)) }
{
    let rows = find_rows_inside(tx, TableName::Capacity, &vehicle_key_values(key))?;
    if is_only_capacity(rows.as_slice(), key, vehicle) {
        return Ok(0);
    }
    put_capacity(tx, key, vehicle)
}

/// Puts the capacity in place of the one that is there, if any.
fn put_capacity<S: Alter>(
    tx: &mut Transaction<'_, S>,
    key: &VehicleKey,
    vehicle: &VehicleRow,
) -> Result<usize, Error>
    ensures { MakesInside S.Store tx.old tx.new result (with_put the.Capacity (vehicle_key key.now) (vehicle_capacity_columns key.now vehicle.now)) }
{
    put_new(
        tx,
        TableName::Capacity,
        &vehicle_key_values(key),
        &capacity_values(key, vehicle),
    )
}
