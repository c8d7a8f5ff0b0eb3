//! The rows of vehicles, cached beside the tables once they were read or written, so that none is read again while
//! there is memory for it. A written row replaces the cached one; the row of a vehicle is never removed.
ghost use Rattle.std.specs.Prelude.{◌≡◌};
ghost use Rattle.std.specs.FinMap as map;
ghost use Rattle.agv_world_core.specs.Changes.{change};
ghost use Rattle.agv_world_core.specs.Maps.{Maps};
ghost use Rattle.agv_store_known.specs.KeptVehicles.{AreVehicles};

use agv_header::VehicleKey;
use agv_world_core::{ByVehicle, Change, VehicleRow};
use std::alloc::Global;

/// Vehicles, each with its row.
pub type KeptVehicles = ByVehicle<VehicleRow>;

/// Returns the cache without rows.
pub(crate) fn none(alloc: Global) -> KeptVehicles
    ensures { (maps : Maps) → AreVehicles result maps }
{
    ByVehicle::new(alloc)
}

/// Returns the cached row of a vehicle, if any.
pub fn kept_row(vehicles: &KeptVehicles, key: &VehicleKey) -> Option<VehicleRow>
    ensures { result ≡ map.get vehicles.now key.now }
{
    match vehicles.get(*key) {
        None => None,
        Some(vehicle) => Some(*vehicle),
    }
}

/// Updates the cached rows for a change.
pub(crate) fn follow(vehicles: &mut KeptVehicles, one: &Change)
    ensures { (maps : Maps) → AreVehicles vehicles.old maps → AreVehicles vehicles.new (change maps one.now) }
{
    if let Change::Vehicle(key, vehicle) = one {
        put_row(vehicles, key, vehicle);
    }
}

/// Caches the row of a vehicle in place of the one before; drops it if there is no memory for it.
fn put_row(vehicles: &mut KeptVehicles, key: &VehicleKey, vehicle: &VehicleRow)
    ensures { (maps : Maps) → AreVehicles vehicles.old maps → AreVehicles vehicles.new (record maps { vehicles = map.insert maps.vehicles key.now vehicle.now }) }
{
    vehicles.remove(*key);
    // The prover asks for the types of a row's parts.
    let _reported = vehicle.reported;
    let _kept = vehicles.insert(*key, *vehicle);
}
