//! The vehicle that carries out a job.
ghost use Rattle.std.specs.Prelude.{◌≡◌, ℕ, List};
ghost use Rattle.std.specs.Option.{option_and_then, option_copied};
ghost use Rattle.agv_world_core.specs.Carriers.{has_drop_of, carrier_of as carrier_in};
ghost use Rattle.agv_world_core.specs.Worlds.{World};
ghost use Rattle.agv_count_exports.specs.Exports.{as_carrier, carrier_of, vehicles_told};

use crate::VehicleTold;
use agv_header::Name;
use agv_order::Trip;
use agv_world_core::{Carrier, has_drop_among};

/// Returns the first of these vehicles whose open trip has an unfinished drop of the job, with the name of that order;
/// `None` if there is none.
pub fn carrier(vehicles: &[VehicleTold], job: Name) -> Option<Carrier>
    ensures is { result ≡ option_and_then as_carrier (carrier_of vehicles.now job) }
    ensures of_all { (world : World) → vehicles.now ≡ vehicles_told world → result ≡ carrier_in world job }
{
    let vehicle = carrier_of(vehicles, job)?;
    as_carrier(vehicle)
}

/// Proves that the vehicle that the list of all vehicles gives for a job is the one of the world.
pub fn gives_the_carrier()
    ensures { (world : World) (job : List ℕ) → option_and_then as_carrier (carrier_of (vehicles_told world) job) ≡ carrier_in world job }
{}

/// Returns the vehicle, with the name of its open trip's order; `None` if it has no open trip.
fn as_carrier(vehicle: &VehicleTold) -> Option<Carrier>
    ensures { result ≡ as_carrier vehicle.now }
{
    match &vehicle.trip {
        Some(trip) => Some(Carrier {
            vehicle: vehicle.key,
            order: trip.order,
        }),
        None => None,
    }
}

/// Returns the first vehicle whose open trip has an unfinished drop of the job, if any.
pub(crate) fn carrier_of(vehicles: &[VehicleTold], job: Name) -> Option<&VehicleTold>
    ensures { option_copied result ≡ carrier_of vehicles.now job }
{
    vehicles
        .iter()
        .find(|vehicle| has_drop_of(job, &vehicle.trip))
}

/// Returns whether there is a trip, and it has an unfinished drop of the job.
fn has_drop_of(job: Name, trip: &Option<Trip>) -> bool
    ensures { result ≡ has_drop_of job trip.now }
{
    match trip {
        Some(trip) => has_drop_among(job, trip.acts.as_slice()),
        None => false,
    }
}
