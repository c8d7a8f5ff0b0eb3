//! Overwriting the row of a key, or inserting the row if there is none, inside a transaction.
//!
//! Each clause is about any database that has the desk's tables, whatever other tables, views and indexes it has
//! (`DeskRows.antt` of agv_store_schema). What a failed write changed is not committed.
ghost use Rattle.std.specs.Prelude.{◌≡◌, true, IfOk, OnOk};
ghost use Rattle.sqlite.specs.State.{HasCleanDisk};
ghost use Rattle.sqlite.specs.Held.{state};
ghost use Rattle.sqlite.specs.Values.{bound};
ghost use Rattle.agv_store_schema.specs.DeskRows.{FitsTable, Makes, table_for, with_put_by};
ghost use Rattle.agv_store_schema.specs.RowTexts.{columns_deleted};
ghost use Rattle.agv_store_sql.specs.RowUpdates.{Counts, IsKeyOf, is_updated, update_text, with_each};
ghost use Rattle.agv_store_sql.specs.WritesInside.{WritesInside};

use crate::row_writes::{insert_row, put_row};
use agv_store_schema::table_name::TableName;
use sqlite::types::ValueRef;
use sqlite::{Alter, Error, Transaction};

/// Puts the row in place of the one that has its key, by an UPDATE, or inserts it if there is none. Not for acts, which
/// are deleted by their order.
pub fn put_over<S: Alter>(
    tx: &mut Transaction<'_, S>,
    table: TableName,
    key: &[ValueRef<'_>],
    row: &[ValueRef<'_>],
) -> Result<usize, Error>
    requires { is_updated table ≡ true }
    ensures { WritesInside S.Store tx.old tx.new (λ before after. FitsTable table (bound row.now) → columns_deleted table ≡ (table_for table).primary → IsKeyOf (columns_deleted table) (bound key.now) (bound row.now)
        → OnOk result (Makes (with_put_by table (columns_deleted table) (bound key.now) (bound row.now)) before after)) }
{
    let count = update_row(tx, table, row)?;
    match count {
        0 => insert_row(tx, table, row),
        1 => Ok(1),
        _ => put_row(tx, table, key, row),
    }
}

/// Overwrites each row that has the key of this one, and returns how many there were.
pub fn update_row<S: Alter>(
    tx: &mut Transaction<'_, S>,
    table: TableName,
    row: &[ValueRef<'_>],
) -> Result<usize, Error>
    requires { is_updated table ≡ true }
    ensures writes { WritesInside S.Store tx.old tx.new (λ before after. FitsTable table (bound row.now)
        → OnOk result (Makes (with_each table (table_for table).primary (bound row.now)) before after)) }
    ensures counted { HasCleanDisk (state S.Store tx.new.conn.now) → FitsTable table (bound row.now)
        → IfOk result (Counts table (table_for table).primary (bound row.now) (state S.Store tx.old.conn.now)) }
{
    tx.execute(update(table), row)
}

/// Returns the UPDATE of the rows with a row's key, whose columns are the parameters. It writes the key columns too,
/// since values that are equal in SQL need not be the same.
fn update(table: TableName) -> &'static str
    requires { is_updated table ≡ true }
    ensures { result.now ≡ update_text table }
{
    match table {
        TableName::Vehicle =>
            "UPDATE vehicle SET manufacturer = ?1, serial = ?2, node = ?3, rest_edge = ?4, rest_node = ?5, last_header = ?6, reported = ?7, ready = ?8, paused = ?9, order_header = ?10, order_at = ?11, instant_header = ?12, instant_at = ?13, pending = ?14 WHERE manufacturer = ?1 AND serial = ?2",
        TableName::Journey =>
            "UPDATE journey SET order_id = ?1, manufacturer = ?2, serial = ?3, start = ?4, first = ?5, base = ?6, sent = ?7, confirmed = ?8, seen = ?9 WHERE order_id = ?1",
        TableName::Load =>
            "UPDATE load SET id = ?1, kind = ?2, station = ?3, manufacturer = ?4, serial = ?5 WHERE id = ?1",
        TableName::Job =>
            "UPDATE job SET id = ?1, load = ?2, origin = ?3, target = ?4, phase = ?5 WHERE id = ?1",
        TableName::Act =>
            "UPDATE act SET order_id = ?1, n = ?2, job = ?3, kind = ?4, place_at = ?5, status = ?6 WHERE order_id = ?1 AND n = ?2",
        _ => unreachable!(),
    }
}
