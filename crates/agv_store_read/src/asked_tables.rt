//! Decoding the rows of a query into tables in memory: those of acts, of edges of open trips and of loads.
//!
//! Each row encodes one entry, and no two rows the same key; otherwise the rows are damaged.
ghost use Rattle.std.specs.Prelude.{◌≡◌, ◌∷◌, Err, IfErr, List, OnOk, is_some};
ghost use Rattle.std.specs.FinMap as map;
ghost use Rattle.sqlite_value.specs.Order.{Row as SqlRow};
ghost use Rattle.agv_store_rows.specs.Columns.{act_in, leg_in, load_in};
ghost use Rattle.agv_store_read.specs.ReadTables.{Reads, read_rows};

use crate::OpenFault;
use agv_stock::Place;
use agv_store_rows::decode_row::{decode_act, decode_leg, decode_load};
use agv_store_rows::{ActKey, ByAct};
use agv_world_core::{ByLeg, ByName, LegKey};
use sqlite::Row;
use std::alloc::Global;

/// Decodes these rows into a table of acts.
pub fn acts_in_rows(alloc: Global, rows: &[Row]) -> Result<ByAct, OpenFault>
    ensures { Reads result (read_rows act_in map.empty rows.now) }
{
    let mut table = ByAct::new(alloc);
    for row in rows {
        match decode_act(row) {
            None => return Err(OpenFault::Damaged),
            Some((key, value)) => {
                if has_act(&table, &key) {
                    return Err(OpenFault::Damaged);
                }
                table.insert(key, value)?;
            }
        }
    }
    Ok(table)
}

/// Returns whether the table has a row of this key.
fn has_act(table: &ByAct, key: &ActKey) -> bool
    ensures { result ≡ is_some (map.get table.now key.now) }
{
    table.get(*key).is_some()
}

/// Decodes these rows into a table of edges of open trips.
pub fn legs_in_rows(alloc: Global, rows: &[Row]) -> Result<ByLeg, OpenFault>
    ensures { Reads result (read_rows leg_in map.empty rows.now) }
{
    let mut table = ByLeg::new(alloc);
    for row in rows {
        match decode_leg(row) {
            None => return Err(OpenFault::Damaged),
            Some((key, edge)) => {
                if has_leg(&table, &key) {
                    return Err(OpenFault::Damaged);
                }
                table.insert(key, edge)?;
            }
        }
    }
    Ok(table)
}

/// Returns whether the table has a row of this key.
fn has_leg(table: &ByLeg, key: &LegKey) -> bool
    ensures { result ≡ is_some (map.get table.now key.now) }
{
    table.get(*key).is_some()
}

/// Decodes one more row into the table.
pub fn take_place(table: &mut ByName<Place>, row: &Row) -> Result<(), OpenFault>
    ensures taken { OnOk result ((rest : List SqlRow) → read_rows load_in table.old (row.now ∷ rest) ≡ read_rows load_in table.new rest) }
    ensures refused { IfErr result (λ why. (rest : List SqlRow) → Reads (Err why) (read_rows load_in table.old (row.now ∷ rest))) }
{
    match decode_load(row) {
        None => Err(OpenFault::Damaged),
        Some((id, place)) => {
            if !table.insert_new(id, place)? {
                return Err(OpenFault::Damaged);
            }
            Ok(())
        }
    }
}

/// Decodes these rows into a table of the places of loads.
pub fn places_in_rows(alloc: Global, rows: &[Row]) -> Result<ByName<Place>, OpenFault>
    ensures { Reads result (read_rows load_in map.empty rows.now) }
{
    let mut table = ByName::new(alloc);
    for row in rows {
        take_place(&mut table, row)?;
    }
    Ok(table)
}
