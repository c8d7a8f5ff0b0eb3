//! Queries of the tables about loads and live jobs: their numbers, the live job of a load, and the room of a station.
//!
//! Each result is that of the lawful world whose rows the tables have (`WorldAnswers.antt` of agv_store_read), if a
//! layout that is passed is that of this world.
ghost use Rattle.std.specs.Prelude.{◌≡◌, ◌&&◌, true, length, nat_eq, count_by, find};
ghost use Rattle.std.specs.Cmp.Lexicographic.{pointwise};
ghost use Rattle.std.specs.FinMap as map;
ghost use Rattle.std.specs.Option.{option_map};
ghost use Rattle.sqlite.specs.Values.{bound};
ghost use Rattle.agv_stock.specs.Phase.{is_live};
ghost use Rattle.agv_stock.specs.Rooms.{room_left};
ghost use Rattle.agv_world_core.specs.Questions.{job_of, loads_at, loads_on, reserved, room_at};
ghost use Rattle.agv_store_ask.specs.QueriedRows.{is_in_phase, name_and_phase};
ghost use Rattle.agv_store_rows.specs.Columns.{job_in};
ghost use Rattle.agv_store_read.specs.FirstRow.{first_key_in};
ghost use Rattle.agv_store_read.specs.WorldAnswers.{AgreesWith, AnswersQuery};

use crate::key_queries::query_station;
use crate::known_layout::known_station;
use agv_header::{Name, VehicleKey};
use agv_layout::Layout;
use agv_stock::{Phase, room_left};
use agv_store_read::OpenFault;
use agv_store_read::queried_rows::{query_count, query_rows_by};
use agv_store_rows::decode_row::decode_job;
use agv_store_rows::key_values::{name_key_values, vehicle_key_values};
use agv_store_rows::row_values::name_value;
use agv_store_schema::rows_by::RowsBy;
use agv_store_schema::rows_counted::RowsCounted;
use sqlite::types::{ToSql, ValueRef};
use sqlite::{Alter, Connection, Row};

/// Returns how many loads a vehicle carries.
///
/// # Errors
/// As [`OpenFault`] says.
pub fn query_loads_on<S: Alter>(
    conn: &mut Connection<S>,
    key: &VehicleKey,
) -> Result<usize, OpenFault>
    ensures { AnswersQuery S.Store conn.old conn.new result (λ world count. count ≡ loads_on world key.now) }
{
    query_count(conn, RowsCounted::VehicleLoads, &vehicle_key_values(key))
}

/// Returns how many live jobs go to a station; each reserves a place there.
///
/// # Errors
/// As [`OpenFault`] says.
pub fn query_reserved<S: Alter>(
    conn: &mut Connection<S>,
    station: &Name,
) -> Result<usize, OpenFault>
    ensures { AnswersQuery S.Store conn.old conn.new result (λ world count. count ≡ reserved world station.now) }
{
    let waiting = query_jobs_to(conn, station, Phase::Waiting)?;
    let riding = query_jobs_to(conn, station, Phase::Riding)?;
    Ok(waiting.saturating_add(riding))
}

/// Returns how many jobs to a station are in a phase.
fn query_jobs_to<S: Alter>(
    conn: &mut Connection<S>,
    station: &Name,
    phase: Phase,
) -> Result<usize, OpenFault>
    ensures { AnswersQuery S.Store conn.old conn.new result (λ world count.
        count ≡ count_by (λ job. pointwise nat_eq job.1.target station.now && is_in_phase phase job.1) (map.entries world.jobs)) }
{
    query_count(
        conn,
        RowsCounted::TargetJobs,
        &name_and_phase_values(station, phase),
    )
}

/// Returns the live job of a load; `None` if it has none.
///
/// # Errors
/// As [`OpenFault`] says.
pub fn query_job_of<S: Alter>(
    conn: &mut Connection<S>,
    load: &Name,
) -> Result<Option<Name>, OpenFault>
    ensures { AnswersQuery S.Store conn.old conn.new result (λ world job. job ≡ job_of world load.now) }
{
    let waiting = query_job_in(conn, load, Phase::Waiting)?;
    let riding = query_job_in(conn, load, Phase::Riding)?;
    Ok(waiting.or(riding))
}

/// Returns the job of a load in this phase, which has to be a live one.
fn query_job_in<S: Alter>(
    conn: &mut Connection<S>,
    load: &Name,
    phase: Phase,
) -> Result<Option<Name>, OpenFault>
    requires { is_live phase ≡ true }
    ensures { AnswersQuery S.Store conn.old conn.new result (λ world job.
        job ≡ option_map (λ job. job.0) (find (λ job. pointwise nat_eq job.1.load load.now && is_in_phase phase job.1) (map.entries world.jobs))) }
{
    let rows = query_rows_by(conn, RowsBy::LoadJobs, &name_and_phase_values(load, phase))?;
    job_name_in_rows(rows.as_slice())
}

/// Returns the name and the phase by which jobs are queried or counted, as SQL parameters.
fn name_and_phase_values(name: &Name, phase: Phase) -> [ValueRef<'_>; 2]
    ensures { bound result ≡ name_and_phase name.now phase }
{
    [name_value(name), phase.name().to_sql()]
}

/// Decodes the id of the job from the first row.
fn job_name_in_rows(rows: &[Row]) -> Result<Option<Name>, OpenFault>
    ensures { result ≡ first_key_in job_in rows.now }
{
    match rows.first() {
        None => Ok(None),
        Some(row) => match decode_job(row) {
            None => Err(OpenFault::Damaged),
            Some((id, _)) => Ok(Some(id)),
        },
    }
}

/// Returns how many more loads fit at a station; `None` if the station is unknown. If a layout is passed, which has to
/// be the world's, and it has the station, the capacity is taken from it and the station is not queried.
///
/// # Errors
/// As [`OpenFault`] says.
pub fn query_room<S: Alter>(
    conn: &mut Connection<S>,
    known: &Option<Layout>,
    station: &Name,
) -> Result<Option<u32>, OpenFault>
    ensures { AnswersQuery S.Store conn.old conn.new result (λ world room. AgreesWith known.now world → room ≡ room_at world station.now) }
{
    if let Some(site) = known_station(known, *station) {
        let room = query_room_left(conn, station, site.capacity)?;
        return Ok(Some(room));
    }
    let site = query_station(conn, station)?;
    match site {
        None => Ok(None),
        Some(site) => {
            let room = query_room_left(conn, station, site.capacity)?;
            Ok(Some(room))
        }
    }
}

/// Returns the room of a station of this capacity.
fn query_room_left<S: Alter>(
    conn: &mut Connection<S>,
    station: &Name,
    capacity: u32,
) -> Result<u32, OpenFault>
    ensures { AnswersQuery S.Store conn.old conn.new result (λ world room. room ≡ room_left capacity (length (loads_at world station.now)) (reserved world station.now)) }
{
    let loads = query_load_count(conn, station)?;
    let jobs = query_reserved(conn, station)?;
    Ok(room_left(capacity, loads, jobs))
}

/// Returns how many loads are at a station.
fn query_load_count<S: Alter>(conn: &mut Connection<S>, station: &Name) -> Result<usize, OpenFault>
    ensures { AnswersQuery S.Store conn.old conn.new result (λ world count. count ≡ length (loads_at world station.now)) }
{
    query_count(conn, RowsCounted::StationLoads, &name_key_values(station))
}
