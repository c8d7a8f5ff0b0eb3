//! Reading all rows of the first schema's tables, each table once.
ghost use Rattle.agv_store_migrate.specs.FirstFound.{ReadsLists, all_lists, one_list};
ghost use Rattle.agv_store_migrate.specs.FirstRows.{first_names};
ghost use Rattle.std.specs.Prelude.{[], ◌∷◌};

use agv_store_read::OpenFault;
use agv_store_read::rowid_reading::query_keyed;
use agv_store_schema::TableName;
use agv_store_sql::row_reads::find_all_rows;
use sqlite::{Alter, Connection, Row};
use std::alloc::Global;

/// Returns all rows of the eleven tables, a list for each: they are all in memory at once.
///
/// # Errors
/// `Damaged` if a row has no rowid of its own, otherwise as [`OpenFault`] says.
pub(crate) fn read_first_tables<S: Alter>(
    alloc: Global,
    conn: &mut Connection<S>,
) -> Result<Vec<Vec<Row>>, OpenFault>
    ensures { ReadsLists S.Store conn.old conn.new first_names (all_lists result) }
{
    read_each(
        alloc,
        conn,
        &[
            TableName::Meta,
            TableName::Node,
            TableName::Edge,
            TableName::Station,
            TableName::Vehicle,
            TableName::Trip,
            TableName::Leg,
            TableName::Load,
            TableName::Job,
            TableName::Hold,
            TableName::Used,
        ],
    )
}

/// Returns all rows of these tables, a list for each.
fn read_each<S: Alter>(
    alloc: Global,
    conn: &mut Connection<S>,
    tables: &[TableName],
) -> Result<Vec<Vec<Row>>, OpenFault>
    ensures { ReadsLists S.Store conn.old conn.new tables.now (all_lists result) }
{
    let [table, others @ ..] = tables else {
        return Ok(Vec::new(alloc));
    };
    let rows = read_table(alloc, conn, *table)?;
    let mut lists = read_each(alloc, conn, others)?;
    lists.insert(0, rows)?;
    Ok(lists)
}

/// Returns all rows of a table, each of which has to have a rowid of its own.
fn read_table<S: Alter>(
    alloc: Global,
    conn: &mut Connection<S>,
    table: TableName,
) -> Result<Vec<Row>, OpenFault>
    ensures { ReadsLists S.Store conn.old conn.new (table ∷ []) (one_list result) }
{
    if !query_keyed(alloc, conn, table)? {
        return Err(OpenFault::Damaged);
    }
    let rows = find_all_rows(conn, table)?;
    Ok(rows)
}
