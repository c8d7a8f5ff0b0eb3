//! The places of loads.

use agv_header::{Name, VehicleKey};

/// Where a load is. Each load is at exactly one place.
#[derive(Clone, Copy, Debug, PartialEq, Eq)]
pub enum Place {
    /// At the station of this name.
    Station(Name),
    /// On this vehicle.
    Vehicle(VehicleKey),
    /// At the checking place, where goods come in, and where a load goes that a stocktake did not find.
    Checking,
    /// It has left the warehouse, and does not come back.
    Left,
}
