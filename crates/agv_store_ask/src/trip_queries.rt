//! Querying the open trip of a vehicle: its journey, its acts with the rows of their jobs, and its edges. If the layout
//! is known, the ends of an edge are taken from it, and the table of edges is queried only for an edge that it lacks.
//!
//! Each result is that of the lawful world whose rows the tables have (`WorldAnswers.antt` of agv_store_read), if a
//! layout that is passed is that of this world.
ghost use Rattle.std.specs.Prelude.{◌≡◌, is_some, Some, filter};
ghost use Rattle.std.specs.FinMap as map;
ghost use Rattle.agv_store_rows.specs.TripRows.{acts_of, is_of};
ghost use Rattle.agv_store_rows.specs.TripsTold.{acts_told};
ghost use Rattle.agv_world_core.specs.Questions.{trip_of};
ghost use Rattle.agv_world_core.specs.Maps.{maps_of};
ghost use Rattle.agv_world_core.specs.Told.{edges_of};
ghost use Rattle.agv_store_rows.specs.Columns.{journey_in};
ghost use Rattle.agv_store_read.specs.FirstRow.{first_whole_in};
ghost use Rattle.agv_store_rows.specs.DecodedTrips.{journey_for, tables_of, told_by_journey, trip_told_by};
ghost use Rattle.agv_store_read.specs.WorldAnswers.{AgreesWith, AnswersQuery};

use crate::key_queries::{query_edge, query_job};
use crate::known_layout::known_edge;
use agv_header::{Name, VehicleKey};
use agv_layout::{Edge, Layout};
use agv_message_core::Sequence;
use agv_order::{Act, Trip};
use agv_store_read::OpenFault;
use agv_store_read::asked_tables::{acts_in_rows, legs_in_rows};
use agv_store_read::queried_rows::query_rows_by;
use agv_store_rows::JourneyRow;
use agv_store_rows::decode_row::decode_journey;
use agv_store_rows::key_values::{name_key_values, vehicle_key_values};
use agv_store_rows::trip_laws::rows_tell_trips;
use agv_store_schema::rows_by::RowsBy;
use agv_world_core::lawful_laws::has_consistent_trips;
use sqlite::{Alter, Connection, Row};
use std::alloc::Global;

/// Returns the open trip of a vehicle, with its edges and its acts; `None` if it has none, or there is no such vehicle.
/// If a layout is passed, which has to be the world's, the ends of the edges that it has are taken from it, and only
/// other edges are queried.
///
/// # Errors
/// As [`OpenFault`] says.
pub fn query_trip<S: Alter>(
    alloc: Global,
    conn: &mut Connection<S>,
    known: &Option<Layout>,
    key: &VehicleKey,
) -> Result<Option<Trip>, OpenFault>
    ensures { AnswersQuery S.Store conn.old conn.new result (λ world trip. AgreesWith known.now world → trip ≡ trip_of world key.now) }
{
    rows_tell_trips();
    let journey = query_journey(conn, key)?;
    match journey {
        None => Ok(None),
        Some(journey) => {
            let trip = query_told_trip(alloc, conn, known, &journey)?;
            Ok(Some(trip))
        }
    }
}

/// Returns the journey of the open trip of a vehicle, with its order id; `None` if there is none.
fn query_journey<S: Alter>(
    conn: &mut Connection<S>,
    key: &VehicleKey,
) -> Result<Option<(Name, JourneyRow)>, OpenFault>
    ensures { AnswersQuery S.Store conn.old conn.new result (λ world journey. journey ≡ journey_for (maps_of world) key.now) }
{
    rows_tell_trips();
    let rows = query_rows_by(conn, RowsBy::VehicleJourney, &vehicle_key_values(key))?;
    journey_in_rows(rows.as_slice())
}

/// Decodes the journey in the first row.
fn journey_in_rows(rows: &[Row]) -> Result<Option<(Name, JourneyRow)>, OpenFault>
    ensures { result ≡ first_whole_in journey_in rows.now }
{
    match rows.first() {
        None => Ok(None),
        Some(row) => match decode_journey(row) {
            None => Err(OpenFault::Damaged),
            Some(journey) => Ok(Some(journey)),
        },
    }
}

/// Returns the trip of a journey, with its acts and its edges.
fn query_told_trip<S: Alter>(
    alloc: Global,
    conn: &mut Connection<S>,
    known: &Option<Layout>,
    journey: &(Name, JourneyRow),
) -> Result<Trip, OpenFault>
    ensures { AnswersQuery S.Store conn.old conn.new result (λ world trip. AgreesWith known.now world → told_by_journey (maps_of world) journey.now ≡ Some trip) }
{
    let acts = query_acts(alloc, conn, &journey.0)?;
    let edges = query_way(alloc, conn, known, &journey.0)?;
    Ok(trip_told(journey, edges, acts))
}

/// Returns the trip with this journey, these edges and these acts.
fn trip_told(journey: &(Name, JourneyRow), edges: Sequence<Edge>, acts: Sequence<Act>) -> Trip
    ensures { result ≡ trip_told_by journey.now edges acts }
{
    let (order, journey) = journey;
    Trip {
        order: *order,
        vehicle: journey.vehicle,
        start: journey.start,
        edges,
        first: journey.first,
        base: journey.base,
        sent: journey.sent,
        confirmed: journey.confirmed,
        seen: journey.seen,
        acts,
    }
}

/// Returns the acts of an order, in the order of their numbers, each with the load and the station of its job, which is
/// looked up.
fn query_acts<S: Alter>(
    alloc: Global,
    conn: &mut Connection<S>,
    order: &Name,
) -> Result<Sequence<Act>, OpenFault>
    ensures { AnswersQuery S.Store conn.old conn.new result
        (λ world acts. acts_told (maps_of world).jobs 0 (filter (is_of order.now) (map.entries (acts_of (maps_of world).trips))) ≡ Some acts) }
{
    rows_tell_trips();
    let rows = query_rows_by(conn, RowsBy::OrderActs, &name_key_values(order))?;
    let table = acts_in_rows(alloc, rows.as_slice())?;
    let mut acts = Vec::new(alloc);
    for (key, act) in table.iter() {
        if key.n as usize != acts.len() {
            return Err(OpenFault::Damaged);
        }
        let job = query_job(conn, &act.job)?;
        match job {
            None => return Err(OpenFault::Damaged),
            Some(job) => acts.push(act.act(&job))?,
        }
    }
    Ok(Sequence::from(acts))
}

/// Returns the edges of an order, by their positions on the way; each is looked up in the layout.
fn query_way<S: Alter>(
    alloc: Global,
    conn: &mut Connection<S>,
    known: &Option<Layout>,
    order: &Name,
) -> Result<Sequence<Edge>, OpenFault>
    ensures { AnswersQuery S.Store conn.old conn.new result (λ world edges. AgreesWith known.now world → edges ≡ edges_of (tables_of (maps_of world)) order.now) }
{
    has_consistent_trips();
    let rows = query_rows_by(conn, RowsBy::OrderLegs, &name_key_values(order))?;
    let legs = legs_in_rows(alloc, rows.as_slice())?;
    let mut edges = Vec::new(alloc);
    for (_, id) in legs.iter() {
        if let Some(edge) = known_edge(known, *id) {
            edges.push(edge)?;
            continue;
        }
        let found = query_edge(conn, id)?;
        match found {
            None => return Err(OpenFault::Damaged),
            Some(ends) => edges.push(Edge {
                id: *id,
                start: ends.start,
                finish: ends.finish,
            })?,
        }
    }
    Ok(Sequence::from(edges))
}

/// Returns whether a vehicle has an open trip; `false` if there is no such vehicle.
///
/// # Errors
/// As [`OpenFault`] says.
pub fn query_has_trip<S: Alter>(
    conn: &mut Connection<S>,
    key: &VehicleKey,
) -> Result<bool, OpenFault>
    ensures { AnswersQuery S.Store conn.old conn.new result (λ world has. has ≡ is_some (trip_of world key.now)) }
{
    rows_tell_trips();
    let rows = query_rows_by(conn, RowsBy::VehicleJourney, &vehicle_key_values(key))?;
    Ok(!rows.is_empty())
}
