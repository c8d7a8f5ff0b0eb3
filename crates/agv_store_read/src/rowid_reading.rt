//! Whether each row of the desk's tables has a ROWID of its own, an integer, as the statements on one row need.
ghost use Rattle.std.specs.BTreeSet as sorted;
ghost use Rattle.std.specs.Ordering.{int_cmp};
ghost use Rattle.std.specs.Prelude.{◌≡◌, ◌⊎◌, ◌↔◌, [], ◌∷◌, false, map, IfErr, IfOk, IsTrue, OnErr, OnOk};
ghost use Rattle.std.specs.List.{list_all};
ghost use Rattle.sqlite_value.specs.Order.{column};
ghost use Rattle.sqlite_trees.specs.View.{is_int};
ghost use Rattle.sqlite_rules.specs.Edit.{id_in};
ghost use Rattle.sqlite.specs.State.{HasCleanDisk, IsUnchanged, IsRolledBack, Survives};
ghost use Rattle.sqlite.specs.Held.{state};
ghost use Rattle.agv_store_schema.specs.DeskRows.{AreKeyed, Placing, StandApart, table_names};
ghost use Rattle.agv_store_schema.specs.Errors.{IsOfStore};
ghost use Rattle.agv_store_schema.specs.Connections.{HasStorageCause};
ghost use Rattle.agv_store_read.specs.Rowids.{ShowRowids, TellsKeyed, TellsKeyedAlone, rowids_text};
ghost use Rattle.agv_store_read.specs.WorldAnswers.{AnswersQuery};

use crate::OpenFault;
use agv_store_rows::decode_value::value_at;
use agv_store_schema::table_name::TableName;
use sqlite::types::ValueRef;
use sqlite::{Alter, Connection, Error, Row};
use std::alloc::{AllocError, Global};
use std::collections::BTreeSet;

/// Returns whether each row of the desk's tables has an integer of its own as its rowid, as in SQLite's files. The
/// statements on one row rely on it.
///
/// # Errors
/// [`OpenFault::Memory`] and [`OpenFault::Storage`], never [`OpenFault::Damaged`].
pub fn query_rowids<S: Alter>(alloc: Global, conn: &mut Connection<S>) -> Result<bool, OpenFault>
    ensures exact { TellsKeyed S.Store conn.old conn.new table_names result }
    ensures tells { AnswersQuery S.Store conn.old conn.new result (λ world keyed. IsTrue keyed) }
{
    query_each_keyed(
        alloc,
        conn,
        TableName::Meta,
        &[
            TableName::Node,
            TableName::Edge,
            TableName::Station,
            TableName::Vehicle,
            TableName::Trip,
            TableName::Leg,
            TableName::Load,
            TableName::Job,
            TableName::Hold,
            TableName::Used,
            TableName::Capacity,
            TableName::Journey,
            TableName::Act,
        ],
    )
}

/// Returns whether each row of a table, and then of others, has an integer of its own as its rowid, even if these
/// tables are there without the rest.
///
/// # Errors
/// [`OpenFault::Memory`] and [`OpenFault::Storage`], never [`OpenFault::Damaged`].
pub(crate) fn query_each_keyed<S: Alter>(
    alloc: Global,
    conn: &mut Connection<S>,
    table: TableName,
    others: &[TableName],
) -> Result<bool, OpenFault>
    ensures { TellsKeyedAlone S.Store conn.old conn.new (table ∷ others.now) result }
{
    let keyed = query_keyed(alloc, conn, table)?;
    let [next, more @ ..] = others else {
        return Ok(keyed);
    };
    if !keyed {
        return Ok(false);
    }
    query_each_keyed(alloc, conn, *next, more)
}

/// Returns whether each row of a table has an integer of its own as its rowid.
pub fn query_keyed<S: Alter>(
    alloc: Global,
    conn: &mut Connection<S>,
    table: TableName,
) -> Result<bool, OpenFault>
    ensures { TellsKeyedAlone S.Store conn.old conn.new (table ∷ []) result }
{
    let rows = find_rowids(conn, table)?;
    let keyed = are_keyed(alloc, rows.as_slice())?;
    Ok(keyed)
}

/// Returns the rowids of a table, one in each row.
fn find_rowids<S: Alter>(conn: &mut Connection<S>, table: TableName) -> Result<Vec<Row>, Error>
    ensures shown { HasCleanDisk (state S.Store conn.new) → IfOk result (λ rows. ShowRowids table (state S.Store conn.old).now rows.items) }
    ensures kept { HasCleanDisk (state S.Store conn.new) → OnOk result (IsUnchanged (state S.Store conn.old) (state S.Store conn.new)) }
    ensures failed { HasCleanDisk (state S.Store conn.new)
        → OnErr result (IsUnchanged (state S.Store conn.old) (state S.Store conn.new) ⊎ IsRolledBack (state S.Store conn.old) (state S.Store conn.new)) }
    ensures caused { HasCleanDisk (state S.Store conn.new) → IfErr result (λ e. IsOfStore e
        → (desk : Placing) → StandApart desk (table ∷ []) → (state S.Store conn.old).now.schema ≡ desk.schema
        → HasStorageCause S.Store conn.old conn.new) }
    ensures idle { conn.old.in_transaction ≡ false → conn.new.in_transaction ≡ false }
    ensures survives { Survives (state S.Store conn.old) (state S.Store conn.new) (λ _. ⊥) }
{
    conn.query_all(rowids_text(table), &[])
}

/// Returns the SELECT of the rowids of a table.
fn rowids_text(table: TableName) -> &'static str
    ensures { result.now ≡ rowids_text table }
{
    match table {
        TableName::Meta => "SELECT rowid FROM meta",
        TableName::Node => "SELECT rowid FROM node",
        TableName::Edge => "SELECT rowid FROM edge",
        TableName::Station => "SELECT rowid FROM station",
        TableName::Vehicle => "SELECT rowid FROM vehicle",
        TableName::Trip => "SELECT rowid FROM trip",
        TableName::Leg => "SELECT rowid FROM leg",
        TableName::Load => "SELECT rowid FROM load",
        TableName::Job => "SELECT rowid FROM job",
        TableName::Hold => "SELECT rowid FROM hold",
        TableName::Used => "SELECT rowid FROM used",
        TableName::Capacity => "SELECT rowid FROM capacity",
        TableName::Journey => "SELECT rowid FROM journey",
        TableName::Act => "SELECT rowid FROM act",
    }
}

/// Returns whether the first value of each row is an integer that no other row has.
fn are_keyed(alloc: Global, rows: &[Row]) -> Result<bool, AllocError>
    ensures { IfOk result (λ keyed. IsTrue keyed ↔ AreKeyed rows.now) }
{
    let ids = ids_of(alloc, rows)?;
    let _count = rows.len();
    Ok(are_whole(rows) && ids.len() == rows.len())
}

/// Returns the set of the first values of the rows.
fn ids_of(alloc: Global, rows: &[Row]) -> Result<BTreeSet<i64>, AllocError>
    ensures { IfOk result (sorted.IsFromIterResult int_cmp (map (λ row. id_in (column row 0)) rows.now)) }
{
    rows.iter().map(|row| id_of(row)).collect(alloc)
}

/// Returns the first value of the row if it is an integer, else 0.
fn id_of(row: &Row) -> i64
    ensures { result ≡ id_in (column row.now 0) }
{
    match value_at(row, 0) {
        ValueRef::Int(id) => id,
        _ => 0,
    }
}

/// Returns whether the first value of each row is an integer.
fn are_whole(rows: &[Row]) -> bool
    ensures { result ≡ list_all (λ row. is_int (column row 0)) rows.now }
{
    rows.iter().all(|row| is_whole(row))
}

/// Returns whether the row's first value is an integer.
fn is_whole(row: &Row) -> bool
    ensures { result ≡ is_int (column row.now 0) }
{
    match value_at(row, 0) {
        ValueRef::Int(_) => true,
        _ => false,
    }
}
