//! What the exports tell.

use agv_header::VehicleKey;
use agv_order::Trip;
use agv_world_core::VehicleRow;

/// A vehicle with its row and its open trip, if any.
#[derive(Debug, Drop)]
pub struct VehicleTold {
    pub key: VehicleKey,
    pub row: VehicleRow,
    pub trip: Option<Trip>,
}
