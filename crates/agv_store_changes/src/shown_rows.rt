//! Whether the rows that are there are those to be written; then nothing has to be.
ghost use Rattle.std.specs.Prelude.{◌≡◌, ◌+◌, ◌<◌, ◌^◌, [], ◌∷◌, length, IfSome, IsTrue};
ghost use Rattle.agv_store_rows.specs.TripRows.{act_key, act_row};
ghost use Rattle.agv_store_changes.specs.ActRows.{AreOfOrder, IsOfOrder};
ghost use Rattle.agv_store_rows.specs.Columns.{act_columns, vehicle_capacity_columns};

use agv_header::{Name, VehicleKey};
use agv_order::Act;
use agv_store_rows::ActRow;
use agv_store_rows::decode_row::{decode_act, decode_capacity};
use agv_store_rows::row_laws::a_row_told_writes_its_columns;
use agv_world_core::VehicleRow;
use sqlite::Row;

/// Returns whether the only row is that of this vehicle's capacity.
pub(crate) fn is_only_capacity(rows: &[Row], key: &VehicleKey, vehicle: &VehicleRow) -> bool
    ensures { IsTrue result → rows.now ≡ vehicle_capacity_columns key.now vehicle.now ∷ [] }
{
    match rows {
        [row] => is_of_capacity(row, key, vehicle),
        _ => false,
    }
}

/// Returns whether the row is that of this vehicle's capacity.
fn is_of_capacity(row: &Row, key: &VehicleKey, vehicle: &VehicleRow) -> bool
    ensures { IsTrue result → row.now ≡ vehicle_capacity_columns key.now vehicle.now }
{
    a_row_told_writes_its_columns();
    match decode_capacity(row) {
        None => false,
        Some((told, entry)) => told == *key && entry.capacity == vehicle.capacity,
    }
}

/// Returns whether the rows, in their order, are of the same jobs and kinds as these acts of the order, numbered from
/// `n`; they may have another position or another status.
pub(crate) fn are_of_acts(rows: &[Row], order: &Name, n: usize, acts: &[Act]) -> bool
    requires { n + length acts.now < 2 ^ 64 }
    ensures { IsTrue result → (length rows.now ≡ length acts.now) × AreOfOrder order.now n rows.now }
{
    match (rows, acts) {
        ([], []) => true,
        ([row, rows @ ..], [act, acts @ ..]) => {
            is_of_act(row, order, n, act) && are_of_acts(rows, order, n + 1, acts)
        }
        _ => false,
    }
}

/// Returns whether the row is of the order's act with this number, and of the same job and kind.
fn is_of_act(row: &Row, order: &Name, n: usize, act: &Act) -> bool
    ensures { IsTrue result → IsOfOrder order.now n row.now }
{
    match told_act(row, order, n) {
        None => false,
        Some(told) => told.job == act.job && told.kind == act.kind,
    }
}

/// Returns whether the row is that of this act of the order, with this number.
pub(crate) fn is_act(row: &Row, order: &Name, n: usize, act: &Act) -> bool
    ensures { IsTrue result → row.now ≡ act_columns (act_key order.now n) (act_row act.now) }
{
    match told_act(row, order, n) {
        None => false,
        Some(told) => {
            told.job == act.job
                && told.kind == act.kind
                && told.place_at == act.place_at
                && told.status == act.status
        }
    }
}

/// Decodes the row of the order's act with this number; `None` if it is not one.
fn told_act(row: &Row, order: &Name, n: usize) -> Option<ActRow>
    ensures { IfSome result (λ told. row.now ≡ act_columns (act_key order.now n) told) }
{
    a_row_told_writes_its_columns();
    let (key, told) = decode_act(row)?;
    if key.order == *order && key.n as usize == n {
        Some(told)
    } else {
        None
    }
}
