//! Reading the jobs and the open trips: a trip is decoded from the rows of its journey and its acts, with those of
//! their jobs.
//!
//! The results are as for the other whole tables (`TablesRead.antt` of agv_store_read).
ghost use Rattle.std.specs.Prelude.{◌≡◌, [], IsPermutation};
ghost use Rattle.agv_store_rows.specs.TripRows.{acts_of, journeys_of};
ghost use Rattle.agv_world_core.specs.Maps.{maps_of};
ghost use Rattle.agv_store_rows.specs.Columns.{act_columns, job_columns, journey_columns};
ghost use Rattle.agv_store_schema.specs.DeskRows.{place_of, table_at};
ghost use Rattle.agv_store_rows.specs.Rows.{rows_in};
ghost use Rattle.agv_store_read.specs.TablesRead.{TellsAll};
ghost use Rattle.agv_store_schema.specs.declared.table_name.TableName.TheVariants as the;

use crate::table_reading::query_jobs;
use agv_store_read::OpenFault;
use agv_store_read::all_rows::query_all_rows;
use agv_store_read::asked_tables::acts_in_rows;
use agv_store_read::row_tables::journeys_in_rows;
use agv_store_rows::trip_laws::rows_tell_trips;
use agv_store_rows::trips_told_laws::lawful_rows_tell_trips;
use agv_store_rows::{ByAct, JourneyRow, trips_told};
use agv_store_schema::table_name::TableName;
use agv_world_core::{ByName, JobRow, TripRow};
use sqlite::{Alter, Connection};
use std::alloc::Global;

/// Reads the jobs, and the open trips by their order ids, without their edges.
pub(crate) fn query_trips<S: Alter>(
    alloc: Global,
    conn: &mut Connection<S>,
) -> Result<(ByName<JobRow>, ByName<TripRow>), OpenFault>
    ensures { TellsAll S.Store conn.old conn.new result
        (λ world tables. (tables.0 ≡ world.jobs) × (tables.1 ≡ (maps_of world).trips))
        (λ lists tables. IsPermutation (table_at (place_of the.Job) lists) (rows_in job_columns tables.0)
        × IsPermutation (table_at (place_of the.Journey) lists) (rows_in journey_columns (journeys_of tables.1))
        × IsPermutation (table_at (place_of the.Act) lists) (rows_in act_columns (acts_of tables.1))
        × (table_at (place_of the.Trip) lists ≡ [])) }
{
    lawful_rows_tell_trips();
    query_no_trips(conn)?;
    let jobs = query_jobs(alloc, conn)?;
    let journeys = query_journeys(alloc, conn)?;
    let acts = query_acts(alloc, conn)?;
    let told = trips_told(alloc, &journeys, &acts, &jobs)?;
    match told {
        None => Err(OpenFault::Damaged),
        Some(trips) => Ok((jobs, trips)),
    }
}

/// Checks that the table of the first schema's trips is empty.
fn query_no_trips<S: Alter>(conn: &mut Connection<S>) -> Result<(), OpenFault>
    ensures { TellsAll S.Store conn.old conn.new result (λ world nothing. Unit {0}) (λ lists nothing. table_at (place_of the.Trip) lists ≡ []) }
{
    let rows = query_all_rows(conn, TableName::Trip)?;
    if rows.is_empty() {
        Ok(())
    } else {
        Err(OpenFault::Damaged)
    }
}

/// Reads the journeys by their order ids.
fn query_journeys<S: Alter>(
    alloc: Global,
    conn: &mut Connection<S>,
) -> Result<ByName<JourneyRow>, OpenFault>
    ensures { TellsAll S.Store conn.old conn.new result
        (λ world table. table ≡ journeys_of (maps_of world).trips)
        (λ lists table. IsPermutation (table_at (place_of the.Journey) lists) (rows_in journey_columns table)) }
{
    rows_tell_trips();
    let rows = query_all_rows(conn, TableName::Journey)?;
    journeys_in_rows(alloc, rows.as_slice())
}

/// Reads the acts by their order ids and numbers.
fn query_acts<S: Alter>(alloc: Global, conn: &mut Connection<S>) -> Result<ByAct, OpenFault>
    ensures { TellsAll S.Store conn.old conn.new result
        (λ world table. table ≡ acts_of (maps_of world).trips)
        (λ lists table. IsPermutation (table_at (place_of the.Act) lists) (rows_in act_columns table)) }
{
    rows_tell_trips();
    let rows = query_all_rows(conn, TableName::Act)?;
    acts_in_rows(alloc, rows.as_slice())
}
