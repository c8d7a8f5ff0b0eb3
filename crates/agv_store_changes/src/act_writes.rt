//! Writing the acts of an order inside a transaction: existing rows are overwritten where they differ.
//!
//! Each clause `made` states the effect on the rows, in any database that has the desk's tables. What a failed write
//! changed is not committed.
ghost use Rattle.std.specs.Prelude.{◌≡◌, ◌<◌, ◌≤◌, [], ◌∷◌, IfOk, IsTrue, OnErr, OnOk, length};
ghost use Rattle.sqlite.specs.Held.{state};
ghost use Rattle.agv_store_rows.specs.TripRows.{act_key, act_row, act_rows_from};
ghost use Rattle.agv_store_rows.specs.Columns.{act_columns};
ghost use Rattle.agv_store_changes.specs.ActRows.{AreOfOrder, acts_listed};
ghost use Rattle.agv_store_schema.specs.DeskRows.{Answers, Makes, table_for, with_row, with_rows};
ghost use Rattle.agv_store_rows.specs.Rows.{rows_of_acts, without_acts};
ghost use Rattle.agv_store_sql.specs.Refusals.{EndsInside, insertions};
ghost use Rattle.agv_store_sql.specs.RowUpdates.{with_each};
ghost use Rattle.agv_store_schema.specs.declared.table_name.TableName.TheVariants as the;
ghost use Rattle.agv_store_sql.specs.WritesInside.{MakesInside, WritesInside};

use crate::shown_rows::{are_of_acts, is_act};
use agv_header::Name;
use agv_order::Act;
use agv_store_rows::key_values::name_key_values;
use agv_store_rows::row_values::act_values;
use agv_store_rows::{ActKey, ActRow};
use agv_store_schema::rows_by::RowsBy;
use agv_store_schema::table_name::TableName;
use agv_store_sql::row_finds::find_rows_by_inside;
use agv_store_sql::row_updates::update_row;
use agv_store_sql::row_writes::{delete_row, insert_row};
use sqlite::{Alter, Error, Row, Transaction};

/// Deletes the acts of the order.
pub(crate) fn drop_acts<S: Alter>(tx: &mut Transaction<'_, S>, order: &Name) -> Result<usize, Error>
    ensures { MakesInside S.Store tx.old tx.new result (without_acts order.now) }
{
    delete_row(tx, TableName::Act, &name_key_values(order))
}

/// Inserts these acts of the order, numbered from 0.
pub fn add_acts<S: Alter>(
    tx: &mut Transaction<'_, S>,
    order: &Name,
    acts: &[Act],
) -> Result<(), Error>
    ensures made { WritesInside S.Store tx.old tx.new (λ before after. IsTrue before.in_transaction
        → OnOk result (Makes (with_rows the.Act (rows_of_acts (act_rows_from order.now 0 acts.now))) before after)) }
    ensures ends { length acts.now ≤ 4294967296 → EndsInside S.Store tx.old tx.new (insertions the.Act (rows_of_acts (act_rows_from order.now 0 acts.now))) result }
{
    for (n, act) in acts.iter().enumerate() {
        add_act(tx, order, n, act)?;
    }
    Ok(())
}

/// Inserts this act of the order, with this number.
fn add_act<S: Alter>(
    tx: &mut Transaction<'_, S>,
    order: &Name,
    n: usize,
    act: &Act,
) -> Result<usize, Error>
    ensures made { MakesInside S.Store tx.old tx.new result (with_row the.Act (act_columns (act_key order.now n) (act_row act.now))) }
    ensures ends { n < 4294967296 → EndsInside S.Store tx.old tx.new (insertions the.Act (act_columns (act_key order.now n) (act_row act.now) ∷ [])) result }
{
    let key = act_key(order, n)?;
    insert_row(tx, TableName::Act, &act_values(&key, &ActRow::of(act)))
}

/// Returns the key of the order's act with this number. A number above 4294967295 is an error.
fn act_key(order: &Name, n: usize) -> Result<ActKey, Error>
    ensures key { IfOk result (λ key. key ≡ act_key order.now n) }
    ensures many { OnErr result (4294967296 ≤ n) }
{
    match u32::try_from(n) {
        Ok(n) => Ok(ActKey { order: *order, n }),
        Err(_) => Err(Error::IntegralValueOutOfRange(1)),
    }
}

/// Writes the acts of the order in place of those that it has, numbered from 0. If the order's rows are of the same
/// acts already, only those that differ are overwritten: each state message of a vehicle has the status of its acts,
/// which seldom changes.
pub(crate) fn write_acts<S: Alter>(
    tx: &mut Transaction<'_, S>,
    order: &Name,
    acts: &[Act],
) -> Result<usize, Error>
    ensures { WritesInside S.Store tx.old tx.new (λ before after. IsTrue before.in_transaction
        → OnOk result (Makes (λ lists. with_rows the.Act (rows_of_acts (act_rows_from order.now 0 acts.now)) (without_acts order.now lists)) before after)) }
{
    let rows = find_rows_by_inside(tx, RowsBy::OrderActs, &name_key_values(order))?;
    if are_of_acts(rows.as_slice(), order, 0, acts) {
        return put_acts(tx, rows.as_slice(), order, acts);
    }
    renew_acts(tx, order, acts)
}

/// Overwrites the rows of the order's acts where they differ.
fn put_acts<S: Alter>(
    tx: &mut Transaction<'_, S>,
    rows: &[Row],
    order: &Name,
    acts: &[Act],
) -> Result<usize, Error>
    requires { length rows.now ≡ length acts.now }
    ensures { WritesInside S.Store tx.old tx.new (λ before after. IsTrue before.in_transaction → AreOfOrder order.now 0 rows.now → Answers (acts_listed order.now) before rows.now
        → OnOk result (Makes (λ lists. with_rows the.Act (rows_of_acts (act_rows_from order.now 0 acts.now)) (without_acts order.now lists)) before after)) }
{
    for (n, act) in acts.iter().enumerate() {
        if !is_act(&rows[n], order, n, act) {
            put_act(tx, order, n, act)?;
        }
    }
    Ok(acts.len())
}

/// Overwrites the row of the order's act with this number.
fn put_act<S: Alter>(
    tx: &mut Transaction<'_, S>,
    order: &Name,
    n: usize,
    act: &Act,
) -> Result<usize, Error>
    ensures { MakesInside S.Store tx.old tx.new result (with_each the.Act (table_for the.Act).primary (act_columns (act_key order.now n) (act_row act.now))) }
{
    let key = act_key(order, n)?;
    update_row(tx, TableName::Act, &act_values(&key, &ActRow::of(act)))
}

/// Deletes the acts of the order and inserts these.
fn renew_acts<S: Alter>(
    tx: &mut Transaction<'_, S>,
    order: &Name,
    acts: &[Act],
) -> Result<usize, Error>
    ensures { MakesInside S.Store tx.old tx.new result (λ lists. with_rows the.Act (rows_of_acts (act_rows_from order.now 0 acts.now)) (without_acts order.now lists)) }
{
    drop_acts(tx, order)?;
    add_acts(tx, order, acts)?;
    Ok(acts.len())
}
