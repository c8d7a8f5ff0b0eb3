//! The lines of the table of routes, as the router keeps them.
ghost use Rattle.std.specs.Prelude.{◌≡◌};
ghost use Rattle.agv_face_http.specs.routing.Table.{route_with};
ghost use Rattle.agv_face_http.specs.routing.Taken.{listed};

use crate::{FixedRoute, NamedRoute, Route, VehicleRoute};
use agv_header::{Name, VehicleKey, Verb};

/// The call of a line, by which names its path has.
#[derive(Clone, Copy, Debug)]
pub(crate) enum RouteKind {
    Fixed(FixedRoute),
    OfName(NamedRoute),
    OfVehicle(VehicleRoute),
}

/// What the router keeps for a line, beside the pattern of its path.
#[derive(Clone, Copy, Debug)]
pub(crate) struct Line {
    pub(crate) method: Verb,
    pub(crate) kind: RouteKind,
}

/// The names in a path, in order.
#[derive(Clone, Copy, Debug)]
pub(crate) enum Names {
    Zero,
    One(Name),
    Two(Name, Name),
}

/// Returns the call of a line with these names in the path.
pub(crate) fn route_for(kind: RouteKind, names: Names) -> Option<Route>
    ensures { result ≡ route_with kind (listed names) }
{
    match (kind, names) {
        (RouteKind::Fixed(call), Names::Zero) => Some(Route::Fixed(call)),
        (RouteKind::OfName(call), Names::One(name)) => Some(Route::OfName(call, name)),
        (RouteKind::OfVehicle(call), Names::Two(manufacturer, serial)) => {
            let key = VehicleKey {
                manufacturer,
                serial,
            };
            Some(Route::OfVehicle(call, key))
        }
        _ => None,
    }
}
