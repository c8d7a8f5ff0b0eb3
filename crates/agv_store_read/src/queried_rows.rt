//! Queries of rows by the key, and of rows or their number by other columns.
ghost use Rattle.std.specs.Prelude.{◌≡◌, length, true, IsPermutation};
ghost use Rattle.sqlite.specs.Values.{bound};
ghost use Rattle.agv_store_schema.specs.DeskRows.{rows_of_key, table_for};
ghost use Rattle.agv_store_rows.specs.Rows.{rows_of};
ghost use Rattle.agv_store_sql.specs.CountQueries.{columns_counted, rows_counted, table_counted};
ghost use Rattle.agv_store_sql.specs.RowQueries.{FitsColumns, columns_asked, rows_asked, table_asked};
ghost use Rattle.agv_store_schema.specs.RowTexts.{is_looked_up};
ghost use Rattle.agv_store_read.specs.FirstRow.{first_number_in};
ghost use Rattle.agv_store_read.specs.WorldAnswers.{AnswersQuery};

use crate::OpenFault;
use agv_store_rows::decode_value::number_at;
use agv_store_schema::rows_by::RowsBy;
use agv_store_schema::rows_counted::RowsCounted;
use agv_store_schema::table_name::TableName;
use agv_store_sql::row_reads::{find_count, find_rows, find_rows_by};
use sqlite::types::ValueRef;
use sqlite::{Alter, Connection, Row};

/// Returns the rows of that key.
pub fn query_rows<S: Alter>(
    conn: &mut Connection<S>,
    table: TableName,
    key: &[ValueRef<'_>],
) -> Result<Vec<Row>, OpenFault>
    requires looked_up { is_looked_up table ≡ true }
    requires fits { FitsColumns table (table_for table).primary (bound key.now) }
    ensures { AnswersQuery S.Store conn.old conn.new result (λ world rows. IsPermutation (rows_of_key table (bound key.now) (rows_of world)) rows.items) }
{
    let rows = find_rows(conn, table, key)?;
    Ok(rows)
}

/// Returns the rows with these values in the columns of the query.
pub fn query_rows_by<S: Alter>(
    conn: &mut Connection<S>,
    by: RowsBy,
    values: &[ValueRef<'_>],
) -> Result<Vec<Row>, OpenFault>
    requires { FitsColumns (table_asked by) (columns_asked by) (bound values.now) }
    ensures { AnswersQuery S.Store conn.old conn.new result (λ world rows. IsPermutation (rows_asked by (bound values.now) (rows_of world)) rows.items) }
{
    let rows = find_rows_by(conn, by, values)?;
    Ok(rows)
}

/// Returns how many rows have these values in the columns of the count.
pub fn query_count<S: Alter>(
    conn: &mut Connection<S>,
    by: RowsCounted,
    values: &[ValueRef<'_>],
) -> Result<usize, OpenFault>
    requires { FitsColumns (table_counted by) (columns_counted by) (bound values.now) }
    ensures { AnswersQuery S.Store conn.old conn.new result (λ world count. count ≡ length (rows_counted by (bound values.now) (rows_of world))) }
{
    let rows = find_count(conn, by, values)?;
    number_in_rows(rows.as_slice())
}

/// Decodes the number in the first row.
fn number_in_rows(rows: &[Row]) -> Result<usize, OpenFault>
    ensures { result ≡ first_number_in rows.now }
{
    match rows.first() {
        None => Err(OpenFault::Damaged),
        Some(row) => match number_at(row, 0) {
            None => Err(OpenFault::Damaged),
            Some(number) => Ok(number as usize),
        },
    }
}
