//! The sizes of trips.
ghost use Rattle.std.specs.Prelude.{◌↔◌, IsTrue};
ghost use Rattle.agv_desk.specs.Sizes.{IsOfSize};

use agv_header::limits::{MAX_TRIP_ACTS, MAX_TRIP_EDGES};
use agv_order::Trip;

/// Returns whether the trip, if there is one, is no larger than a well-formed one, as each trip of a lawful world is. A
/// call that looks at a larger trip answers `Limit`, of which its clause says nothing.
pub(crate) fn is_of_size(trip: &Option<Trip>) -> bool
    ensures { IsTrue result ↔ IsOfSize trip.now }
{
    match trip {
        Some(trip) => {
            trip.edges.len() <= MAX_TRIP_EDGES
                && trip.acts.len() <= MAX_TRIP_ACTS
                && trip.sent <= trip.base
        }
        None => true,
    }
}
