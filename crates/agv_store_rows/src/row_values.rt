//! The rows of a world as SQL parameters.
ghost use Rattle.std.specs.Prelude.{◌≡◌};
ghost use Rattle.sqlite.specs.Values.{bound, bound_value, or_null};
ghost use Rattle.sqlite_value.specs.Value.{owned};
ghost use Rattle.sqlite_value.specs.declared.value.Value.TheVariants.{Null, Text};
ghost use Rattle.agv_message_core.specs.Instant.{instant_name};
ghost use Rattle.agv_store_rows.specs.ValueEncodings.{number_cell};
ghost use Rattle.agv_store_rows.specs.Columns.{node_columns, edge_columns, station_columns, vehicle_columns, vehicle_capacity_columns, journey_columns, act_columns, leg_columns, load_columns, job_columns, hold_columns, used_columns};

use crate::words::use_text;
use crate::{ActKey, ActRow, JourneyRow};
use agv_header::{Name, Thing, VehicleKey};
use agv_layout::{EdgeEnds, StationSite};
use agv_message_core::InstantKind;
use agv_stock::Place;
use agv_world_core::{JobRow, LegKey, UseKey, VehicleRow};
use sqlite::types::{ToSql, ValueRef};

/// Returns a name as TEXT.
pub fn name_value(name: &Name) -> ValueRef<'_>
    ensures { owned result ≡ Text name.now }
{
    ValueRef::Text(name.as_bytes())
}

/// Returns the row of a node.
pub fn node_values(id: &Name) -> [ValueRef<'_>; 1]
    ensures { bound result ≡ node_columns id.now }
{
    [name_value(id)]
}

/// Returns the row of an edge.
pub fn edge_values<'a>(id: &'a Name, ends: &'a EdgeEnds) -> [ValueRef<'a>; 3]
    ensures { bound result ≡ edge_columns id.now ends.now }
{
    [
        name_value(id),
        name_value(&ends.start),
        name_value(&ends.finish),
    ]
}

/// Returns the row of a station.
pub fn station_values<'a>(id: &'a Name, site: &'a StationSite) -> [ValueRef<'a>; 3]
    ensures { bound result ≡ station_columns id.now site.now }
{
    [
        name_value(id),
        name_value(&site.node),
        site.capacity.to_sql(),
    ]
}

/// Returns the row of a vehicle, without its capacity.
pub fn vehicle_values<'a>(key: &'a VehicleKey, row: &'a VehicleRow) -> [ValueRef<'a>; 14]
    ensures { bound result ≡ vehicle_columns key.now row.now }
{
    let (rest_edge, rest_node) = rest_values(&row.rest);
    [
        name_value(&key.manufacturer),
        name_value(&key.serial),
        name_value(&row.node),
        rest_edge,
        rest_node,
        maybe_number_value(row.last_header),
        maybe_name_value(&row.reported),
        row.ready.to_sql(),
        row.paused.to_sql(),
        row.orders.count.to_sql(),
        row.orders.at.ms().to_sql(),
        row.instants.count.to_sql(),
        row.instants.at.ms().to_sql(),
        instant_value(row.pending),
    ]
}

/// Returns the edge and the node of a rest, or NULL twice.
fn rest_values(rest: &Option<(Name, Name)>) -> (ValueRef<'_>, ValueRef<'_>)
    ensures edge { bound_value (owned result.0) ≡ or_null (λ rest. Text rest.0) rest.now }
    ensures node { bound_value (owned result.1) ≡ or_null (λ rest. Text rest.1) rest.now }
{
    match rest {
        Some((edge, node)) => (name_value(edge), name_value(node)),
        None => (ValueRef::Null, ValueRef::Null),
    }
}

/// Returns a name, or NULL.
fn maybe_name_value(name: &Option<Name>) -> ValueRef<'_>
    ensures { bound_value (owned result) ≡ or_null Text name.now }
{
    match name {
        Some(name) => name_value(name),
        None => ValueRef::Null,
    }
}

/// Returns a pending instant action, or NULL.
fn instant_value(kind: Option<InstantKind>) -> ValueRef<'static>
    ensures { bound_value (owned result) ≡ or_null (λ kind. Text (instant_name kind)) kind }
{
    match kind {
        Some(kind) => kind.name().to_sql(),
        None => ValueRef::Null,
    }
}

/// Returns the row of a vehicle's capacity.
pub fn capacity_values<'a>(key: &'a VehicleKey, row: &'a VehicleRow) -> [ValueRef<'a>; 3]
    ensures { bound result ≡ vehicle_capacity_columns key.now row.now }
{
    [
        name_value(&key.manufacturer),
        name_value(&key.serial),
        row.capacity.to_sql(),
    ]
}

/// Returns the row of an open trip's journey.
pub fn journey_values<'a>(order: &'a Name, journey: &'a JourneyRow) -> [ValueRef<'a>; 9]
    ensures { bound result ≡ journey_columns order.now journey.now }
{
    [
        name_value(order),
        name_value(&journey.vehicle.manufacturer),
        name_value(&journey.vehicle.serial),
        name_value(&journey.start),
        journey.first.to_sql(),
        journey.base.to_sql(),
        journey.sent.to_sql(),
        maybe_number_value(journey.confirmed),
        journey.seen.to_sql(),
    ]
}

/// Returns a number, or NULL.
fn maybe_number_value(n: Option<u32>) -> ValueRef<'static>
    ensures { bound_value (owned result) ≡ or_null number_cell n }
{
    match n {
        Some(n) => n.to_sql(),
        None => ValueRef::Null,
    }
}

/// Returns the row of an act of an open trip.
pub fn act_values<'a>(key: &'a ActKey, act: &'a ActRow) -> [ValueRef<'a>; 6]
    ensures { bound result ≡ act_columns key.now act.now }
{
    [
        name_value(&key.order),
        key.n.to_sql(),
        name_value(&act.job),
        act.kind.name().to_sql(),
        act.place_at.to_sql(),
        act.status.name().to_sql(),
    ]
}

/// Returns the row of an edge of an open trip.
pub fn leg_values<'a>(key: &'a LegKey, edge: &'a Name) -> [ValueRef<'a>; 3]
    ensures { bound result ≡ leg_columns key.now edge.now }
{
    [name_value(&key.order), key.k.to_sql(), name_value(edge)]
}

/// Returns the row of a load.
pub fn load_values<'a>(id: &'a Name, place: &'a Place) -> [ValueRef<'a>; 5]
    ensures { bound result ≡ load_columns id.now place.now }
{
    let (kind, station, manufacturer, serial) = match place {
        Place::Station(station) => (
            "station",
            name_value(station),
            ValueRef::Null,
            ValueRef::Null,
        ),
        Place::Vehicle(key) => (
            "vehicle",
            ValueRef::Null,
            name_value(&key.manufacturer),
            name_value(&key.serial),
        ),
        Place::Checking => ("checking", ValueRef::Null, ValueRef::Null, ValueRef::Null),
        Place::Left => ("left", ValueRef::Null, ValueRef::Null, ValueRef::Null),
    };
    [name_value(id), kind.to_sql(), station, manufacturer, serial]
}

/// Returns the row of a job.
pub fn job_values<'a>(id: &'a Name, job: &'a JobRow) -> [ValueRef<'a>; 5]
    ensures { bound result ≡ job_columns id.now job.now }
{
    [
        name_value(id),
        name_value(&job.load),
        name_value(&job.origin),
        name_value(&job.target),
        job.phase.name().to_sql(),
    ]
}

/// Returns the row of a hold.
pub fn hold_values<'a>(thing: &'a Thing, key: &'a VehicleKey) -> [ValueRef<'a>; 4]
    ensures { bound result ≡ hold_columns thing.now key.now }
{
    let (kind, id) = match thing {
        Thing::Node(id) => ("node", id),
        Thing::Edge(id) => ("edge", id),
    };
    [
        kind.to_sql(),
        name_value(id),
        name_value(&key.manufacturer),
        name_value(&key.serial),
    ]
}

/// Returns the row of a used name.
pub fn used_values(key: &UseKey) -> [ValueRef<'_>; 2]
    ensures { bound result ≡ used_columns key.now }
{
    [use_text(key.kind).to_sql(), name_value(&key.name)]
}
