//! Listing the loads at a station.
ghost use Rattle.std.specs.Prelude.{◌≡◌, IfOk};
ghost use Rattle.std.specs.FinMap as map;
ghost use Rattle.std.specs.Map.{keys_of};
ghost use Rattle.agv_world_core.specs.Questions.{loads_at};
ghost use Rattle.agv_store_read.specs.WorldAnswers.{AnswersQuery};

use agv_header::{Memory, Name};
use agv_message_core::Sequence;
use agv_stock::Place;
use agv_store_read::OpenFault;
use agv_store_read::asked_tables::places_in_rows;
use agv_store_read::queried_rows::query_rows_by;
use agv_store_rows::key_values::name_key_values;
use agv_store_schema::rows_by::RowsBy;
use agv_world_core::ByName;
use sqlite::{Alter, Connection};
use std::alloc::Global;

/// Returns the loads at a station, in the order of their ids.
///
/// # Errors
/// As [`OpenFault`] says.
pub fn query_loads_at<S: Alter>(
    alloc: Global,
    conn: &mut Connection<S>,
    station: &Name,
) -> Result<Sequence<Name>, OpenFault>
    ensures { AnswersQuery S.Store conn.old conn.new result (λ world loads. loads ≡ loads_at world station.now) }
{
    let rows = query_rows_by(conn, RowsBy::StationLoads, &name_key_values(station))?;
    let table = places_in_rows(alloc, rows.as_slice())?;
    let names = names_of(alloc, &table)?;
    Ok(names)
}

/// Returns the ids in a table, in their order.
fn names_of(alloc: Global, table: &ByName<Place>) -> Result<Sequence<Name>, Memory>
    ensures { IfOk result (λ names. names ≡ keys_of (map.entries table.now)) }
{
    let mut names = Vec::new(alloc);
    for (id, _) in table.iter() {
        names.push(*id)?;
    }
    Ok(Sequence::from(names))
}
