//! Which vehicle carries out a job, from the tables of a world.
ghost use Rattle.std.specs.Prelude.{◌≡◌};
ghost use Rattle.agv_world_core.specs.Carriers.{carrier_of};
ghost use Rattle.agv_world_core.specs.Told.{world_of, open_trip};
ghost use Rattle.agv_world_plain.specs.Carrying.{order_dropping};

use agv_header::{Name, VehicleKey};
use agv_world_core::{Carrier, World, has_drop_among};

/// Returns the vehicle whose open trip has an unfinished drop of a job, with the name of that order; `None` if there is
/// none.
pub(crate) fn carrier(world: &World, job: Name) -> Option<Carrier>
    ensures { result ≡ carrier_of (world_of world.now) job }
{
    for (key, _) in world.vehicles.iter() {
        if let Some(order) = order_dropping(world, *key, job) {
            return Some(Carrier {
                vehicle: *key,
                order,
            });
        }
    }
    None
}

/// Returns the order of a vehicle's open trip if that has an unfinished drop of the job.
fn order_dropping(world: &World, key: VehicleKey, job: Name) -> Option<Name>
    ensures { result ≡ order_dropping job (open_trip world.now key) }
{
    for (order, trip) in world.trips.iter() {
        if trip.vehicle == key {
            return has_drop_among(job, trip.acts.as_slice()).then_some(*order);
        }
    }
    None
}
