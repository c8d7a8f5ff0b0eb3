//! The table of routes, and the router made from it.
ghost use Rattle.std.specs.Prelude.{◌≡◌, true, map, IfOk, OnOk};
ghost use Rattle.agv_face_http.specs.routing.RouterRows.{are_apart, inserted, is_apart, router_rows, with_entries};
ghost use Rattle.agv_face_http.specs.routing.Table.{entry};

use crate::routing::line::Line;
use crate::routing::line::RouteKind::{self, Fixed, OfName, OfVehicle};
use crate::{FixedRoute, NamedRoute, VehicleRoute};
use agv_desk::Report;
use agv_header::Memory;
use agv_header::Verb::{self, Delete, Get, Post, Put};
use matchit::{InsertError, Router};
use std::alloc::Global;

/// The lines of the table: the method, the path with names in braces, and the call.
const LINES: [(Verb, &str, RouteKind); 28] = [
    (Put, "/layout", Fixed(FixedRoute::SetLayout)),
    (Post, "/vehicles", Fixed(FixedRoute::RegisterVehicle)),
    (Post, "/loads", Fixed(FixedRoute::RegisterLoad)),
    (
        Post,
        "/loads/{load}/correct",
        OfName(NamedRoute::CorrectLoad),
    ),
    (Post, "/loads/{load}/leave", OfName(NamedRoute::LeaveLoad)),
    (Post, "/jobs", Fixed(FixedRoute::AddJob)),
    (Delete, "/jobs/{job}", OfName(NamedRoute::StopJob)),
    (Post, "/orders", Fixed(FixedRoute::StartOrder)),
    (Post, "/drives", Fixed(FixedRoute::StartDrive)),
    (
        Post,
        "/vehicles/{manufacturer}/{serial}/advance",
        OfVehicle(VehicleRoute::Advance),
    ),
    (
        Post,
        "/vehicles/{manufacturer}/{serial}/cancel",
        OfVehicle(VehicleRoute::Cancel),
    ),
    (
        Post,
        "/vehicles/{manufacturer}/{serial}/pause",
        OfVehicle(VehicleRoute::Pause),
    ),
    (
        Post,
        "/vehicles/{manufacturer}/{serial}/resume",
        OfVehicle(VehicleRoute::Resume),
    ),
    (
        Post,
        "/vehicles/{manufacturer}/{serial}/place",
        OfVehicle(VehicleRoute::PlaceVehicle),
    ),
    (
        Post,
        "/vehicles/{manufacturer}/{serial}/resync",
        OfVehicle(VehicleRoute::Resync),
    ),
    (
        Post,
        "/uagv/v2/{manufacturer}/{serial}/state",
        OfVehicle(VehicleRoute::State),
    ),
    (
        Get,
        "/uagv/v2/{manufacturer}/{serial}/order",
        OfVehicle(VehicleRoute::GetOrder),
    ),
    (
        Get,
        "/uagv/v2/{manufacturer}/{serial}/instantActions",
        OfVehicle(VehicleRoute::GetInstant),
    ),
    (
        Post,
        "/stocktakes/{reference}",
        OfName(NamedRoute::Stocktake),
    ),
    (Get, "/loads/{load}", OfName(NamedRoute::GetLoad)),
    (Get, "/jobs/{job}/phase", OfName(NamedRoute::GetJob)),
    (
        Get,
        "/vehicles/{manufacturer}/{serial}",
        OfVehicle(VehicleRoute::GetVehicle),
    ),
    (
        Get,
        "/report/stock",
        Fixed(FixedRoute::Report(Report::Stock)),
    ),
    (
        Get,
        "/report/holds",
        Fixed(FixedRoute::Report(Report::Holds)),
    ),
    (
        Get,
        "/export/loads",
        Fixed(FixedRoute::Report(Report::Loads)),
    ),
    (Get, "/export/jobs", Fixed(FixedRoute::Report(Report::Jobs))),
    (
        Get,
        "/export/vehicles",
        Fixed(FixedRoute::Report(Report::Vehicles)),
    ),
    (
        Get,
        "/export/layout",
        Fixed(FixedRoute::Report(Report::Layout)),
    ),
];

/// Makes a router of all the lines of the table.
pub(crate) fn table_of_routes(alloc: Global) -> Result<Router<Line>, Memory>
    ensures { IfOk result (λ router. router ≡ router_rows) }
{
    let mut router = Router::new(alloc);
    add_all(&mut router, &LINES)?;
    Ok(router)
}

/// Inserts lines into the router, one after another.
fn add_all(router: &mut Router<Line>, lines: &[(Verb, &str, RouteKind)]) -> Result<(), Memory>
    requires { are_apart (map (λ line. entry line.0 line.1.now line.2) lines.now) router.old ≡ true }
    ensures { OnOk result (router.new ≡ with_entries router.old (map (λ line. entry line.0 line.1.now line.2) lines.now)) }
{
    for (method, path, kind) in lines {
        add(router, *method, path, *kind)?;
    }
    Ok(())
}

/// Inserts a line that conflicts with none in the router, so that the only error is `Memory`.
fn add(router: &mut Router<Line>, method: Verb, path: &str, kind: RouteKind) -> Result<(), Memory>
    requires { is_apart (entry method path.now kind) router.old ≡ true }
    ensures { OnOk result (router.new ≡ inserted (entry method path.now kind) router.old) }
{
    match router.insert(path, Line { method, kind }) {
        Ok(()) => Ok(()),
        Err(error) => Err(lack_of(error)),
    }
}

/// Converts the error of an insert without a conflict.
fn lack_of(error: InsertError) -> Memory
    requires { error ≡ InsertError.OutOfMemory }
{
    match error {
        InsertError::OutOfMemory => Memory,
        _ => unreachable!(),
    }
}
