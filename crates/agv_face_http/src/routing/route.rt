//! The calls that the desk serves, and the part of a request that its method and path determine.
//!
//! The method and the path of each call are in `table`, and their specification in `specs/routing/Table.antt`.

use agv_desk::Report;
use agv_header::{Name, VehicleKey};

/// A call whose path has no name.
#[derive(Clone, Copy, Debug)]
pub enum FixedRoute {
    SetLayout,
    RegisterVehicle,
    RegisterLoad,
    AddJob,
    StartOrder,
    StartDrive,
    Report(Report),
}

/// A call whose path has one name: of a load, a job or a stocktake.
#[derive(Clone, Copy, Debug)]
pub enum NamedRoute {
    CorrectLoad,
    LeaveLoad,
    StopJob,
    Stocktake,
    GetLoad,
    GetJob,
}

/// A call whose path names a vehicle.
#[derive(Clone, Copy, Debug)]
pub enum VehicleRoute {
    Advance,
    Cancel,
    Pause,
    Resume,
    PlaceVehicle,
    Resync,
    State,
    GetOrder,
    GetInstant,
    GetVehicle,
}

/// A call with the names in its path.
#[derive(Clone, Copy, Debug)]
pub enum Route {
    Fixed(FixedRoute),
    OfName(NamedRoute, Name),
    OfVehicle(VehicleRoute, VehicleKey),
}
