//! What is known of a load that was found.
ghost use Rattle.std.specs.Prelude.{◌≡◌};
ghost use Rattle.agv_desk.specs.StocktakeSteps.{is_on_vehicle, is_here};

use agv_header::Name;
use agv_stock::Place;

/// A load, the station where it was found, and the place where it is recorded, or `None` if it is unknown.
#[derive(Clone, Copy, Debug)]
pub(crate) struct CountedLoad {
    pub(crate) station: Name,
    pub(crate) load: Name,
    pub(crate) place: Option<Place>,
}

impl CountedLoad {
    /// Returns whether the load is recorded on a vehicle.
    pub(crate) fn is_on_vehicle(&self) -> bool
        ensures { result ≡ is_on_vehicle self.now.place }
    {
        matches!(self.place, Some(Place::Vehicle(_)))
    }

    /// Returns whether the load is registered, and has not left.
    pub(crate) fn is_here(&self) -> bool
        ensures { result ≡ is_here self.now.place }
    {
        !matches!(self.place, None | Some(Place::Left))
    }
}
