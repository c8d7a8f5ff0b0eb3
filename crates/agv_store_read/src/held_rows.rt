//! Decoding the rows of holds.
ghost use Rattle.std.specs.FinMap as map;
ghost use Rattle.agv_store_rows.specs.Columns.{hold_in};
ghost use Rattle.agv_store_read.specs.TableChecks.{table_read};
ghost use Rattle.agv_store_read.specs.ReadTables.{Reads, read_rows};

use crate::OpenFault;
use crate::held_things::HeldThings;
use agv_store_rows::decode_row::decode_hold;
use agv_track_holds::HoldTable;
use sqlite::Row;
use std::alloc::Global;

/// Decodes these rows into a table and a list of holds.
pub fn holds_in_rows(alloc: Global, rows: &[Row]) -> Result<HeldThings, OpenFault>
    ensures { Reads (table_read result) (read_rows hold_in map.empty rows.now) }
{
    let mut table = HoldTable::new(alloc);
    let mut pairs = Vec::new(alloc);
    for row in rows {
        match decode_hold(row) {
            None => return Err(OpenFault::Damaged),
            Some((thing, key)) => {
                if !table.give(thing, key)? {
                    return Err(OpenFault::Damaged);
                }
                pairs.push((thing, key))?;
            }
        }
    }
    Ok(HeldThings { table, pairs })
}
