//! Removing a hold by its key, inside a transaction.
ghost use Rattle.agv_store_schema.specs.DeskRows.{without_key};
ghost use Rattle.agv_store_rows.specs.RowKeys.{hold_key};
ghost use Rattle.agv_store_schema.specs.declared.table_name.TableName.TheVariants as the;
ghost use Rattle.agv_store_sql.specs.WritesInside.{MakesInside};

use agv_header::Thing;
use agv_store_rows::key_values::hold_key_values;
use agv_store_schema::table_name::TableName;
use agv_store_sql::row_writes::delete_row;
use sqlite::{Alter, Error, Transaction};

/// Removes the hold of the thing, if any.
pub(crate) fn drop_hold<S: Alter>(
    tx: &mut Transaction<'_, S>,
    thing: &Thing,
) -> Result<usize, Error>
    ensures { MakesInside S.Store tx.old tx.new result (without_key the.Hold (hold_key thing.now)) }
{
    delete_row(tx, TableName::Hold, &hold_key_values(thing))
}
