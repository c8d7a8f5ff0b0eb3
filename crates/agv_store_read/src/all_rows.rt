//! Querying all rows of a table, whatever rows it has.
ghost use Rattle.std.specs.Prelude.{IsPermutation};
ghost use Rattle.agv_store_rows.specs.Rows.{rows_of};
ghost use Rattle.agv_store_sql.specs.RowQueries.{all_rows_of};
ghost use Rattle.agv_store_read.specs.TablesRead.{TellsAll};

use crate::OpenFault;
use agv_store_schema::table_name::TableName;
use agv_store_sql::row_reads::find_all_rows;
use sqlite::{Alter, Connection, Row};

/// Returns all rows of a table.
pub fn query_all_rows<S: Alter>(
    conn: &mut Connection<S>,
    table: TableName,
) -> Result<Vec<Row>, OpenFault>
    ensures { TellsAll S.Store conn.old conn.new result
        (λ world rows. IsPermutation (all_rows_of table (rows_of world)) rows.items)
        (λ lists rows. IsPermutation (all_rows_of table lists) rows.items) }
{
    let rows = find_all_rows(conn, table)?;
    Ok(rows)
}
