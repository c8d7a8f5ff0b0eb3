//! Reading the row of `meta`.
//!
//! The result is as for the other whole tables (`TablesRead.antt` of agv_store_read).
ghost use Rattle.std.specs.Prelude.{◌≡◌, IsPermutation};
ghost use Rattle.agv_store_rows.specs.Columns.{meta_columns, meta_in};
ghost use Rattle.agv_store_schema.specs.DeskRows.{place_of, table_at};
ghost use Rattle.agv_store_read.specs.TableChecks.{is_desk_meta, meta_read};
ghost use Rattle.agv_store_rows.specs.Rows.{rows_in};
ghost use Rattle.agv_store_read.specs.TablesRead.{TellsAll, desk_meta};
ghost use Rattle.agv_store_schema.specs.declared.table_name.TableName.TheVariants as the;

use agv_store_read::OpenFault;
use agv_store_read::all_rows::query_all_rows;
use agv_store_rows::decode_row::decode_meta;
use agv_store_schema::schema_numbers::SCHEMA_NUMBER;
use agv_store_schema::table_name::TableName;
use sqlite::{Alter, Connection, Row};

/// Checks that the table `meta` has exactly the row of the second schema. Success comes only from an open store, so
/// this also checks that the store is open.
///
/// # Errors
/// As [`OpenFault`] says.
pub fn query_meta<S: Alter>(conn: &mut Connection<S>) -> Result<(), OpenFault>
    ensures { TellsAll S.Store conn.old conn.new result (λ world nothing. Unit {0}) (λ lists nothing. IsPermutation (table_at (place_of the.Meta) lists) (rows_in meta_columns desk_meta)) }
{
    let rows = query_all_rows(conn, TableName::Meta)?;
    meta_in_rows(rows.as_slice())
}

/// Checks that these rows are exactly the row of `meta` of the second schema.
fn meta_in_rows(rows: &[Row]) -> Result<(), OpenFault>
    ensures { result ≡ meta_read rows.now }
{
    match rows {
        [row] if is_meta(row) => Ok(()),
        _ => Err(OpenFault::Damaged),
    }
}

/// Returns whether this is the row of `meta` of the second schema.
fn is_meta(row: &Row) -> bool
    ensures { result ≡ is_desk_meta (meta_in row.now) }
{
    match decode_meta(row) {
        None => false,
        Some((id, schema)) => id == 1 && schema == SCHEMA_NUMBER,
    }
}
