//! Decoding the open trips of the first schema.
ghost use Rattle.std.specs.Prelude.{◌≡◌, IfOk};
ghost use Rattle.std.specs.FinMap as map;
ghost use Rattle.agv_store_migrate.specs.FirstColumns.{trip_in, trip_with};
ghost use Rattle.agv_store_read.specs.ReadTables.{Reads, read_rows};

use crate::trip_line::TripLine;
use agv_header::{Memory, Name};
use agv_store_read::OpenFault;
use agv_store_rows::decode_row::key_at;
use agv_store_rows::decode_value::{maybe_number_at, name_at, number_at, status_at};
use agv_world_core::{ByName, JobRow, TripRow};
use sqlite::Row;
use std::alloc::Global;

/// Decodes these rows into a table of open trips.
pub(crate) fn trips_in_rows(
    alloc: Global,
    rows: &[Row],
    jobs: &ByName<JobRow>,
) -> Result<ByName<TripRow>, OpenFault>
    ensures { Reads result (read_rows (trip_with jobs.now) map.empty rows.now) }
{
    let mut table = ByName::new(alloc);
    for row in rows {
        let entry = trip_in_row(alloc, row, jobs)?;
        match entry {
            None => return Err(OpenFault::Damaged),
            Some((order, trip)) => {
                if table.get(order).is_some() {
                    return Err(OpenFault::Damaged);
                }
                table.insert(order, trip)?;
            }
        }
    }
    Ok(table)
}

/// Decodes a row into an order id and its trip; `None` if its job is not one of these or the row cannot be decoded.
fn trip_in_row(
    alloc: Global,
    row: &Row,
    jobs: &ByName<JobRow>,
) -> Result<Option<(Name, TripRow)>, Memory>
    ensures { IfOk result (λ entry. entry ≡ trip_with jobs.now row.now) }
{
    match decode_trip(row) {
        None => Ok(None),
        Some(line) => match jobs.get(line.job) {
            None => Ok(None),
            Some(job) => {
                let trip = line.trip(alloc, job)?;
                Ok(Some((line.order, trip)))
            }
        },
    }
}

/// Decodes an open trip of one job.
#[tactic(auto, unfolding(crate::specs::FirstColumns::trip_in))]
fn decode_trip(row: &Row) -> Option<TripLine>
    ensures { result ≡ trip_in row.now }
{
    if row.column_count() != 14 {
        return None;
    }
    let order = name_at(row, 0)?;
    let vehicle = key_at(row, 1, 2)?;
    let job = name_at(row, 3)?;
    let start = name_at(row, 4)?;
    let first = number_at(row, 5)?;
    let base = number_at(row, 6)?;
    let sent = number_at(row, 7)?;
    let confirmed = maybe_number_at(row, 8)?;
    let seen = number_at(row, 9)?;
    let pick_at = number_at(row, 10)?;
    let drop_at = number_at(row, 11)?;
    let pick_status = status_at(row, 12)?;
    let drop_status = status_at(row, 13)?;
    Some(TripLine {
        order,
        vehicle,
        job,
        start,
        first,
        base,
        sent,
        confirmed,
        seen,
        pick_at,
        drop_at,
        pick_status,
        drop_status,
    })
}
