//! Reads of rows by the key, by other columns, or of a whole table, and counts of rows.
//!
//! The rows returned are those of any database that has the desk's tables (`DeskRows.antt` of agv_store_schema), in no
//! particular order. In any database, a read that succeeds changes nothing, and nothing is committed. An error that is
//! a fault of the store occurs only if the store failed, was closed, or limits the steps of a query.
ghost use Rattle.std.specs.Prelude.{◌≡◌, ◌⊎◌, [], ◌∷◌, false, true, IfErr, IfOk, OnErr, OnOk};
ghost use Rattle.sqlite.specs.State.{HasCleanDisk, IsUnchanged, IsRolledBack, Survives};
ghost use Rattle.sqlite.specs.Held.{state};
ghost use Rattle.sqlite.specs.Values.{bound};
ghost use Rattle.agv_store_schema.specs.DeskRows.{Answers, AnswersAlone, Placing, IsDesk, StandApart, rows_of_key, table_for};
ghost use Rattle.agv_store_schema.specs.Errors.{IsOfStore};
ghost use Rattle.agv_store_schema.specs.Connections.{HasStorageCause};
ghost use Rattle.agv_store_sql.specs.CountQueries.{columns_counted, count_shown, table_counted};
ghost use Rattle.agv_store_sql.specs.RowQueries.{FitsColumns, all_rows_of, columns_asked, rows_asked, table_asked};
ghost use Rattle.agv_store_schema.specs.RowTexts.{is_looked_up};

use crate::query_texts::{all_rows, count_query, query};
use crate::row_texts::look_up;
use agv_store_schema::rows_by::RowsBy;
use agv_store_schema::rows_counted::RowsCounted;
use agv_store_schema::table_name::TableName;
use sqlite::types::ValueRef;
use sqlite::{Alter, Connection, Error, Row};

/// Returns the rows of that key: at most one, in a table whose keys are unique.
pub fn find_rows<S: Alter>(
    conn: &mut Connection<S>,
    table: TableName,
    key: &[ValueRef<'_>],
) -> Result<Vec<Row>, Error>
    requires { is_looked_up table ≡ true }
    ensures shown { HasCleanDisk (state S.Store conn.new) → IfOk result (λ rows. Answers (rows_of_key table (bound key.now)) (state S.Store conn.old) rows.items) }
    ensures kept { HasCleanDisk (state S.Store conn.new) → OnOk result (IsUnchanged (state S.Store conn.old) (state S.Store conn.new)) }
    ensures failed { HasCleanDisk (state S.Store conn.new)
        → OnErr result (IsUnchanged (state S.Store conn.old) (state S.Store conn.new) ⊎ IsRolledBack (state S.Store conn.old) (state S.Store conn.new)) }
    ensures caused { HasCleanDisk (state S.Store conn.new) → IfErr result (λ e. IsOfStore e
        → (desk : Placing) → IsDesk desk → (state S.Store conn.old).now.schema ≡ desk.schema → FitsColumns table (table_for table).primary (bound key.now)
        → HasStorageCause S.Store conn.old conn.new) }
    ensures idle { conn.old.in_transaction ≡ false → conn.new.in_transaction ≡ false }
    ensures survives { Survives (state S.Store conn.old) (state S.Store conn.new) (λ _. ⊥) }
{
    conn.query_all(look_up(table), key)
}

/// Returns the rows with these values in the columns of the query.
pub fn find_rows_by<S: Alter>(
    conn: &mut Connection<S>,
    by: RowsBy,
    values: &[ValueRef<'_>],
) -> Result<Vec<Row>, Error>
    ensures shown { HasCleanDisk (state S.Store conn.new) → IfOk result (λ rows. Answers (rows_asked by (bound values.now)) (state S.Store conn.old) rows.items) }
    ensures kept { HasCleanDisk (state S.Store conn.new) → OnOk result (IsUnchanged (state S.Store conn.old) (state S.Store conn.new)) }
    ensures failed { HasCleanDisk (state S.Store conn.new)
        → OnErr result (IsUnchanged (state S.Store conn.old) (state S.Store conn.new) ⊎ IsRolledBack (state S.Store conn.old) (state S.Store conn.new)) }
    ensures caused { HasCleanDisk (state S.Store conn.new) → IfErr result (λ e. IsOfStore e
        → (desk : Placing) → IsDesk desk → (state S.Store conn.old).now.schema ≡ desk.schema → FitsColumns (table_asked by) (columns_asked by) (bound values.now)
        → HasStorageCause S.Store conn.old conn.new) }
    ensures idle { conn.old.in_transaction ≡ false → conn.new.in_transaction ≡ false }
    ensures survives { Survives (state S.Store conn.old) (state S.Store conn.new) (λ _. ⊥) }
{
    conn.query_all(query(by), values)
}

/// Returns one row with the number of rows that have these values in the columns of the count.
pub fn find_count<S: Alter>(
    conn: &mut Connection<S>,
    by: RowsCounted,
    values: &[ValueRef<'_>],
) -> Result<Vec<Row>, Error>
    ensures shown { HasCleanDisk (state S.Store conn.new) → IfOk result (λ rows. Answers (count_shown by (bound values.now)) (state S.Store conn.old) rows.items) }
    ensures kept { HasCleanDisk (state S.Store conn.new) → OnOk result (IsUnchanged (state S.Store conn.old) (state S.Store conn.new)) }
    ensures failed { HasCleanDisk (state S.Store conn.new)
        → OnErr result (IsUnchanged (state S.Store conn.old) (state S.Store conn.new) ⊎ IsRolledBack (state S.Store conn.old) (state S.Store conn.new)) }
    ensures caused { HasCleanDisk (state S.Store conn.new) → IfErr result (λ e. IsOfStore e
        → (desk : Placing) → IsDesk desk → (state S.Store conn.old).now.schema ≡ desk.schema → FitsColumns (table_counted by) (columns_counted by) (bound values.now)
        → HasStorageCause S.Store conn.old conn.new) }
    ensures idle { conn.old.in_transaction ≡ false → conn.new.in_transaction ≡ false }
    ensures survives { Survives (state S.Store conn.old) (state S.Store conn.new) (λ _. ⊥) }
{
    conn.query_all(count_query(by), values)
}

/// Returns all rows of a table, which may be there without the others.
pub fn find_all_rows<S: Alter>(
    conn: &mut Connection<S>,
    table: TableName,
) -> Result<Vec<Row>, Error>
    ensures shown { HasCleanDisk (state S.Store conn.new) → IfOk result (λ rows. Answers (all_rows_of table) (state S.Store conn.old) rows.items) }
    ensures alone { HasCleanDisk (state S.Store conn.new) → IfOk result (λ rows. AnswersAlone table (state S.Store conn.old) rows.items) }
    ensures kept { HasCleanDisk (state S.Store conn.new) → OnOk result (IsUnchanged (state S.Store conn.old) (state S.Store conn.new)) }
    ensures failed { HasCleanDisk (state S.Store conn.new)
        → OnErr result (IsUnchanged (state S.Store conn.old) (state S.Store conn.new) ⊎ IsRolledBack (state S.Store conn.old) (state S.Store conn.new)) }
    ensures caused { HasCleanDisk (state S.Store conn.new) → IfErr result (λ e. IsOfStore e
        → (desk : Placing) → StandApart desk (table ∷ []) → (state S.Store conn.old).now.schema ≡ desk.schema
        → HasStorageCause S.Store conn.old conn.new) }
    ensures idle { conn.old.in_transaction ≡ false → conn.new.in_transaction ≡ false }
    ensures survives { Survives (state S.Store conn.old) (state S.Store conn.new) (λ _. ⊥) }
{
    conn.query_all(all_rows(table), &[])
}
