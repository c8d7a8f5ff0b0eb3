//! Look-ups of rows inside a transaction, by the key or by other columns.
//!
//! The rows returned are those of any database that has the desk's tables (`DeskRows.antt` of agv_store_schema), in no
//! particular order, as the transaction sees them. In any database, a look-up that succeeds changes nothing. One that
//! fails changes nothing either, or has ended the transaction.
ghost use Rattle.std.specs.Prelude.{◌≡◌, true, IfOk, OnOk};
ghost use Rattle.sqlite.specs.State.{HasCleanDisk, IsUnchanged, KeepsCommit, Survives};
ghost use Rattle.sqlite.specs.Held.{state};
ghost use Rattle.sqlite.specs.Values.{bound};
ghost use Rattle.agv_store_schema.specs.DeskRows.{Answers, rows_of_key};
ghost use Rattle.agv_store_sql.specs.RowQueries.{rows_asked};
ghost use Rattle.agv_store_schema.specs.RowTexts.{is_looked_up};

use crate::query_texts::query;
use crate::row_texts::look_up;
use agv_store_schema::rows_by::RowsBy;
use agv_store_schema::table_name::TableName;
use sqlite::types::ValueRef;
use sqlite::{Alter, Error, Row, Transaction};

/// Returns the rows of that key: at most one, in a table whose keys are unique.
pub fn find_rows_inside<S: Alter>(
    tx: &mut Transaction<'_, S>,
    table: TableName,
    key: &[ValueRef<'_>],
) -> Result<Vec<Row>, Error>
    requires { is_looked_up table ≡ true }
    ensures same_reference { tx.new.conn.ghost_name ≡ tx.old.conn.ghost_name }
    ensures survives { Survives (state S.Store tx.old.conn.now) (state S.Store tx.new.conn.now) (λ _. ⊥) }
    ensures kept { HasCleanDisk (state S.Store tx.new.conn.now) → KeepsCommit (state S.Store tx.old.conn.now) (state S.Store tx.new.conn.now) }
    ensures unchanged { HasCleanDisk (state S.Store tx.new.conn.now)
        → OnOk result (IsUnchanged (state S.Store tx.old.conn.now) (state S.Store tx.new.conn.now)) }
    ensures shown { HasCleanDisk (state S.Store tx.new.conn.now)
        → IfOk result (λ rows. Answers (rows_of_key table (bound key.now)) (state S.Store tx.old.conn.now) rows.items) }
{
    tx.query_all(look_up(table), key)
}

/// Returns the rows with these values in the columns of the query.
pub fn find_rows_by_inside<S: Alter>(
    tx: &mut Transaction<'_, S>,
    by: RowsBy,
    values: &[ValueRef<'_>],
) -> Result<Vec<Row>, Error>
    ensures same_reference { tx.new.conn.ghost_name ≡ tx.old.conn.ghost_name }
    ensures survives { Survives (state S.Store tx.old.conn.now) (state S.Store tx.new.conn.now) (λ _. ⊥) }
    ensures kept { HasCleanDisk (state S.Store tx.new.conn.now) → KeepsCommit (state S.Store tx.old.conn.now) (state S.Store tx.new.conn.now) }
    ensures unchanged { HasCleanDisk (state S.Store tx.new.conn.now)
        → OnOk result (IsUnchanged (state S.Store tx.old.conn.now) (state S.Store tx.new.conn.now)) }
    ensures shown { HasCleanDisk (state S.Store tx.new.conn.now)
        → IfOk result (λ rows. Answers (rows_asked by (bound values.now)) (state S.Store tx.old.conn.now) rows.items) }
{
    tx.query_all(query(by), values)
}
