//! Reading the whole tables of the edges of trips and of the names that were used, which only a whole world needs.
//!
//! The results are as for the other whole tables (`TablesRead.antt` of agv_store_read).
ghost use Rattle.std.specs.Prelude.{◌≡◌, IsPermutation};
ghost use Rattle.agv_world_core.specs.Maps.{maps_of};
ghost use Rattle.agv_store_rows.specs.Columns.{leg_columns, used_columns};
ghost use Rattle.agv_store_schema.specs.DeskRows.{place_of, table_at};
ghost use Rattle.agv_store_rows.specs.Rows.{rows_for, rows_in};
ghost use Rattle.agv_store_read.specs.TablesRead.{TellsAll};
ghost use Rattle.agv_store_schema.specs.declared.table_name.TableName.TheVariants as the;

use agv_store_read::OpenFault;
use agv_store_read::all_rows::query_all_rows;
use agv_store_read::asked_tables::legs_in_rows;
use agv_store_read::row_tables::used_in_rows;
use agv_store_schema::table_name::TableName;
use agv_world_core::lawful_laws::has_consistent_trips;
use agv_world_core::{ByLeg, UsedNames};
use sqlite::{Alter, Connection};
use std::alloc::Global;

/// Reads the edges of all open trips.
pub(crate) fn query_legs<S: Alter>(
    alloc: Global,
    conn: &mut Connection<S>,
) -> Result<ByLeg, OpenFault>
    ensures { TellsAll S.Store conn.old conn.new result (λ world table. table ≡ (maps_of world).legs) (λ lists table. IsPermutation (table_at (place_of the.Leg) lists) (rows_in leg_columns table)) }
{
    has_consistent_trips();
    let rows = query_all_rows(conn, TableName::Leg)?;
    legs_in_rows(alloc, rows.as_slice())
}

/// Reads the names that were used, each with its kind.
pub(crate) fn query_used<S: Alter>(
    alloc: Global,
    conn: &mut Connection<S>,
) -> Result<UsedNames, OpenFault>
    ensures { TellsAll S.Store conn.old conn.new result (λ world table. table ≡ (maps_of world).used) (λ lists table. IsPermutation (table_at (place_of the.Used) lists) (rows_for used_columns table)) }
{
    let rows = query_all_rows(conn, TableName::Used)?;
    used_in_rows(alloc, rows.as_slice())
}
