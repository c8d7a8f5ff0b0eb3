//! Inserting a row, deleting it by its key, or putting it in place of the row of its key, inside a transaction.
//!
//! Each clause is about any database that has the desk's tables, whatever other tables, views and indexes it has
//! (`DeskRows.antt` of agv_store_schema). What a failed write changed is not committed.
ghost use Rattle.std.specs.Prelude.{◌≡◌, [], ◌∷◌, true, IfErr, IfOk, OnOk};
ghost use Rattle.sqlite.specs.State.{HasCleanDisk, IsUnchanged};
ghost use Rattle.sqlite.specs.Held.{state};
ghost use Rattle.sqlite.specs.Values.{bound};
ghost use Rattle.agv_store_schema.specs.DeskRows.{FitsTable, Makes, table_for, with_put_by, with_row, without_rows};
ghost use Rattle.agv_store_schema.specs.RowTexts.{columns_deleted, insertion_text, is_written};
ghost use Rattle.agv_store_sql.specs.Refusals.{EndsInside};
ghost use Rattle.agv_store_sql.specs.RowUpdates.{Counts, IsBrokenRule, TellsAlike};
ghost use Rattle.agv_store_sql.specs.WritesInside.{MakesInside, WritesInside};

use crate::row_texts::{deletion, insertion};
use agv_store_schema::table_name::TableName;
use sqlite::types::ValueRef;
use sqlite::{Alter, Error, ErrorCode, Transaction};

/// Inserts the row. If that succeeds, no row had its key; if a constraint of the table refuses it, nothing is changed.
pub fn insert_row<S: Alter>(
    tx: &mut Transaction<'_, S>,
    table: TableName,
    row: &[ValueRef<'_>],
) -> Result<usize, Error>
    requires { is_written table ≡ true }
    ensures writes { WritesInside S.Store tx.old tx.new (λ before after. FitsTable table (bound row.now)
        → OnOk result (Makes (with_row table (bound row.now)) before after)) }
    ensures free { HasCleanDisk (state S.Store tx.new.conn.now) → FitsTable table (bound row.now)
        → IfOk result (λ _. Counts table (table_for table).primary (bound row.now) (state S.Store tx.old.conn.now) 0) }
    ensures refused { HasCleanDisk (state S.Store tx.new.conn.now)
        → IfErr result (λ e. IsBrokenRule e → IsUnchanged (state S.Store tx.old.conn.now) (state S.Store tx.new.conn.now)) }
    ensures ends { EndsInside S.Store tx.old tx.new ((insertion_text table, bound row.now) ∷ []) result }
{
    tx.execute(insertion(table), row)
}

/// Deletes the row of that key, if any; for acts, all acts of that order.
pub fn delete_row<S: Alter>(
    tx: &mut Transaction<'_, S>,
    table: TableName,
    key: &[ValueRef<'_>],
) -> Result<usize, Error>
    requires { is_written table ≡ true }
    ensures { MakesInside S.Store tx.old tx.new result (without_rows table (columns_deleted table) (bound key.now)) }
{
    tx.execute(deletion(table), key)
}

/// Puts the row in place of the one that has its key, if any; an act in place of all acts of its order.
pub(crate) fn put_row<S: Alter>(
    tx: &mut Transaction<'_, S>,
    table: TableName,
    key: &[ValueRef<'_>],
    row: &[ValueRef<'_>],
) -> Result<usize, Error>
    requires { is_written table ≡ true }
    ensures { WritesInside S.Store tx.old tx.new (λ before after. FitsTable table (bound row.now)
        → OnOk result (Makes (with_put_by table (columns_deleted table) (bound key.now) (bound row.now)) before after)) }
{
    delete_row(tx, table, key)?;
    insert_row(tx, table, row)
}

/// Puts the row in place of the one that has its key, if any: inserts it, and if a constraint of the table refuses it,
/// first deletes the row of its key. Where there is usually none, this is one statement instead of two. Not for acts,
/// which are deleted by their order.
pub fn put_new<S: Alter>(
    tx: &mut Transaction<'_, S>,
    table: TableName,
    key: &[ValueRef<'_>],
    row: &[ValueRef<'_>],
) -> Result<usize, Error>
    requires { is_written table ≡ true }
    ensures { WritesInside S.Store tx.old tx.new (λ before after. FitsTable table (bound row.now) → columns_deleted table ≡ (table_for table).primary → TellsAlike (columns_deleted table) (bound key.now) (bound row.now)
        → OnOk result (Makes (with_put_by table (columns_deleted table) (bound key.now) (bound row.now)) before after)) }
{
    match insert_row(tx, table, row) {
        Err(Error::SqliteFailure(ErrorCode::ConstraintViolation(_))) => put_row(
            tx, table, key, row,
        ),
        done => done,
    }
}
