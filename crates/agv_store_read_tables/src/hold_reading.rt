//! Reading the table of holds.
//!
//! The result is as for the other whole tables (`TablesRead.antt` of agv_store_read).
ghost use Rattle.std.specs.Prelude.{◌≡◌, IsPermutation};
ghost use Rattle.agv_world_core.specs.Maps.{maps_of};
ghost use Rattle.agv_store_rows.specs.Columns.{hold_columns};
ghost use Rattle.agv_store_schema.specs.DeskRows.{place_of, table_at};
ghost use Rattle.agv_store_rows.specs.Rows.{rows_in};
ghost use Rattle.agv_store_read.specs.TablesRead.{TellsAll};
ghost use Rattle.agv_store_schema.specs.declared.table_name.TableName.TheVariants as the;

use agv_store_read::OpenFault;
use agv_store_read::all_rows::query_all_rows;
use agv_store_read::held_rows::holds_in_rows;
use agv_store_read::held_things::HeldThings;
use agv_store_schema::table_name::TableName;
use agv_world_core::lawful_laws::has_consistent_trips;
use sqlite::{Alter, Connection};
use std::alloc::Global;

/// Reads all holds: each node or edge that is held, with its vehicle.
///
/// # Errors
/// As [`OpenFault`] says.
pub fn query_holds<S: Alter>(
    alloc: Global,
    conn: &mut Connection<S>,
) -> Result<HeldThings, OpenFault>
    ensures { TellsAll S.Store conn.old conn.new result (λ world held. held.table ≡ (maps_of world).holds) (λ lists held. IsPermutation (table_at (place_of the.Hold) lists) (rows_in hold_columns held.table)) }
{
    has_consistent_trips();
    let rows = query_all_rows(conn, TableName::Hold)?;
    holds_in_rows(alloc, rows.as_slice())
}
