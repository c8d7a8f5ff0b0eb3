//! Decoding a row of SQL into a row of the world; `None` if it is not one.
ghost use Rattle.std.specs.Prelude.{◌≡◌};
ghost use Rattle.sqlite_value.specs.Order.{column};
ghost use Rattle.agv_store_rows.specs.Columns.{meta_in, node_in, edge_in, station_in, key_in, rest_of, rest_in, sent_in, vehicle_in, capacity_in, journey_in, act_in, leg_in, place_of, load_in, job_in, thing_of, hold_in, used_in};

use crate::capacity_row::CapacityRow;
use crate::decode_value::{
    act_kind_at, flag_at, maybe_instant_at, maybe_name_at, maybe_number_at, moment_at, name_at,
    number_at, phase_at, place_kind_at, status_at, thing_kind_at, use_at,
};
use crate::{ActKey, ActRow, JourneyRow, PlaceKind, ThingKind};
use agv_header::{Name, Thing, VehicleKey};
use agv_layout::{EdgeEnds, StationSite};
use agv_stock::Place;
use agv_world_core::{JobRow, LegKey, Sent, UseKey, VehicleRow};
use sqlite::Row;

/// Decodes the row of `meta`: its key and the number of the schema.
pub fn decode_meta(row: &Row) -> Option<(u32, u32)>
    ensures { result ≡ meta_in row.now }
{
    if row.column_count() != 2 {
        return None;
    }
    Some((number_at(row, 0)?, number_at(row, 1)?))
}

/// Decodes a node.
pub fn decode_node(row: &Row) -> Option<Name>
    ensures { result ≡ node_in row.now }
{
    if row.column_count() != 1 {
        return None;
    }
    name_at(row, 0)
}

/// Decodes an edge.
pub fn decode_edge(row: &Row) -> Option<(Name, EdgeEnds)>
    ensures { result ≡ edge_in row.now }
{
    if row.column_count() != 3 {
        return None;
    }
    let id = name_at(row, 0)?;
    let start = name_at(row, 1)?;
    let finish = name_at(row, 2)?;
    Some((id, EdgeEnds { start, finish }))
}

/// Decodes a station.
pub fn decode_station(row: &Row) -> Option<(Name, StationSite)>
    ensures { result ≡ station_in row.now }
{
    if row.column_count() != 3 {
        return None;
    }
    let id = name_at(row, 0)?;
    let node = name_at(row, 1)?;
    let capacity = number_at(row, 2)?;
    Some((id, StationSite { node, capacity }))
}

/// Decodes the vehicle whose manufacturer and serial number are in two columns.
#[tactic(auto, unfolding(crate::specs::Columns::key_in))]
pub fn key_at(row: &Row, first: usize, second: usize) -> Option<VehicleKey>
    ensures { result ≡ key_in (column row.now first) (column row.now second) }
{
    let manufacturer = name_at(row, first)?;
    let serial = name_at(row, second)?;
    Some(VehicleKey {
        manufacturer,
        serial,
    })
}

/// Decodes a vehicle without its open trip, with capacity 1 as a placeholder.
#[tactic(auto, unfolding(crate::specs::Columns::vehicle_in))]
pub fn decode_vehicle(row: &Row) -> Option<(VehicleKey, VehicleRow)>
    ensures { result ≡ vehicle_in row.now }
{
    if row.column_count() != 14 {
        return None;
    }
    let key = key_at(row, 0, 1)?;
    let node = name_at(row, 2)?;
    let rest = rest_at(row, 3, 4)?;
    let last_header = maybe_number_at(row, 5)?;
    let reported = maybe_name_at(row, 6)?;
    let ready = flag_at(row, 7)?;
    let paused = flag_at(row, 8)?;
    let orders = sent_at(row, 9, 10)?;
    let instants = sent_at(row, 11, 12)?;
    let pending = maybe_instant_at(row, 13)?;
    Some((
        key,
        VehicleRow {
            capacity: 1,
            node,
            rest,
            last_header,
            reported,
            ready,
            paused,
            orders,
            instants,
            pending,
        },
    ))
}

/// Decodes a vehicle's rest, an edge and a node, from two columns.
#[tactic(auto, unfolding(crate::specs::Columns::rest_in))]
fn rest_at(row: &Row, first: usize, second: usize) -> Option<Option<(Name, Name)>>
    ensures { result ≡ rest_in (column row.now first) (column row.now second) }
{
    let edge = maybe_name_at(row, first)?;
    let node = maybe_name_at(row, second)?;
    rest(edge, node)
}

/// Returns the rest with this edge and this node, which are both there or both absent.
fn rest(edge: Option<Name>, node: Option<Name>) -> Option<Option<(Name, Name)>>
    ensures { result ≡ rest_of edge node }
{
    match (edge, node) {
        (None, None) => Some(None),
        (Some(edge), Some(node)) => Some(Some((edge, node))),
        _ => None,
    }
}

/// Decodes the count and the time of the last message of a topic from two columns.
#[tactic(auto, unfolding(crate::specs::Columns::sent_in))]
fn sent_at(row: &Row, first: usize, second: usize) -> Option<Sent>
    ensures { result ≡ sent_in (column row.now first) (column row.now second) }
{
    let count = number_at(row, first)?;
    let at = moment_at(row, second)?;
    Some(Sent { count, at })
}

/// Decodes the capacity of a vehicle.
#[tactic(auto, unfolding(crate::specs::Columns::capacity_in))]
pub fn decode_capacity(row: &Row) -> Option<(VehicleKey, CapacityRow)>
    ensures { result ≡ capacity_in row.now }
{
    if row.column_count() != 3 {
        return None;
    }
    let key = key_at(row, 0, 1)?;
    let capacity = number_at(row, 2)?;
    Some((key, CapacityRow { capacity }))
}

/// Decodes the journey of an open trip, with its order id.
#[tactic(auto, unfolding(crate::specs::Columns::journey_in))]
pub fn decode_journey(row: &Row) -> Option<(Name, JourneyRow)>
    ensures { result ≡ journey_in row.now }
{
    if row.column_count() != 9 {
        return None;
    }
    let order = name_at(row, 0)?;
    let vehicle = key_at(row, 1, 2)?;
    let start = name_at(row, 3)?;
    let first = number_at(row, 4)?;
    let base = number_at(row, 5)?;
    let sent = number_at(row, 6)?;
    let confirmed = maybe_number_at(row, 7)?;
    let seen = number_at(row, 8)?;
    let journey = JourneyRow {
        vehicle,
        start,
        first,
        base,
        sent,
        confirmed,
        seen,
    };
    Some((order, journey))
}

/// Decodes an act of an open trip, with its key.
#[tactic(auto, unfolding(crate::specs::Columns::act_in))]
pub fn decode_act(row: &Row) -> Option<(ActKey, ActRow)>
    ensures { result ≡ act_in row.now }
{
    if row.column_count() != 6 {
        return None;
    }
    let order = name_at(row, 0)?;
    let n = number_at(row, 1)?;
    let job = name_at(row, 2)?;
    let kind = act_kind_at(row, 3)?;
    let place_at = number_at(row, 4)?;
    let status = status_at(row, 5)?;
    let act = ActRow {
        job,
        kind,
        place_at,
        status,
    };
    Some((ActKey { order, n }, act))
}

/// Decodes an edge of an open trip, with its key.
pub fn decode_leg(row: &Row) -> Option<(LegKey, Name)>
    ensures { result ≡ leg_in row.now }
{
    if row.column_count() != 3 {
        return None;
    }
    let order = name_at(row, 0)?;
    let k = number_at(row, 1)?;
    let edge = name_at(row, 2)?;
    Some((LegKey { order, k }, edge))
}

/// Decodes a load's place.
#[tactic(auto, unfolding(crate::specs::Columns::load_in))]
pub fn decode_load(row: &Row) -> Option<(Name, Place)>
    ensures { result ≡ load_in row.now }
{
    if row.column_count() != 5 {
        return None;
    }
    let id = name_at(row, 0)?;
    let kind = place_kind_at(row, 1)?;
    let station = maybe_name_at(row, 2)?;
    let manufacturer = maybe_name_at(row, 3)?;
    let serial = maybe_name_at(row, 4)?;
    let place = place(kind, station, manufacturer, serial)?;
    Some((id, place))
}

/// Returns the place of that kind, if exactly the values of the kind are there.
fn place(
    kind: PlaceKind,
    station: Option<Name>,
    manufacturer: Option<Name>,
    serial: Option<Name>,
) -> Option<Place>
    ensures { result ≡ place_of kind station manufacturer serial }
{
    match (kind, station, manufacturer, serial) {
        (PlaceKind::Station, Some(station), None, None) => Some(Place::Station(station)),
        (PlaceKind::Vehicle, None, Some(manufacturer), Some(serial)) => {
            Some(Place::Vehicle(VehicleKey {
                manufacturer,
                serial,
            }))
        }
        (PlaceKind::Checking, None, None, None) => Some(Place::Checking),
        (PlaceKind::Left, None, None, None) => Some(Place::Left),
        _ => None,
    }
}

/// Decodes a job.
#[tactic(auto, unfolding(crate::specs::Columns::job_in))]
pub fn decode_job(row: &Row) -> Option<(Name, JobRow)>
    ensures { result ≡ job_in row.now }
{
    if row.column_count() != 5 {
        return None;
    }
    let id = name_at(row, 0)?;
    let load = name_at(row, 1)?;
    let origin = name_at(row, 2)?;
    let target = name_at(row, 3)?;
    let phase = phase_at(row, 4)?;
    Some((
        id,
        JobRow {
            load,
            origin,
            target,
            phase,
        },
    ))
}

/// Decodes a hold: a node or an edge, and the vehicle that holds it.
#[tactic(auto, unfolding(crate::specs::Columns::hold_in))]
pub fn decode_hold(row: &Row) -> Option<(Thing, VehicleKey)>
    ensures { result ≡ hold_in row.now }
{
    if row.column_count() != 4 {
        return None;
    }
    let kind = thing_kind_at(row, 0)?;
    let id = name_at(row, 1)?;
    let key = key_at(row, 2, 3)?;
    Some((thing(kind, id), key))
}

/// Returns the node or edge of that id.
fn thing(kind: ThingKind, id: Name) -> Thing
    ensures { result ≡ thing_of kind id }
{
    match kind {
        ThingKind::Node => Thing::Node(id),
        ThingKind::Edge => Thing::Edge(id),
    }
}

/// Decodes a used name.
pub fn decode_used(row: &Row) -> Option<UseKey>
    ensures { result ≡ used_in row.now }
{
    if row.column_count() != 2 {
        return None;
    }
    let kind = use_at(row, 0)?;
    let name = name_at(row, 1)?;
    Some(UseKey { kind, name })
}
