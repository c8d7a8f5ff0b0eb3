//! The room that a station has left.
ghost use Rattle.std.specs.Prelude.{◌≡◌, ◌+◌, Some, count_by, is_some};
ghost use Rattle.agv_stock.specs.Checks.{is_stored};
ghost use Rattle.agv_stock.specs.Rooms.{is_at, is_on, goes_to, room_left, room_of, station_of_place};

use crate::{Job, Place};
use agv_header::{Name, VehicleKey};
use agv_layout::Station;

impl Place {
    /// Returns whether it is the station of this name.
    pub fn is_at(&self, name: Name) -> bool
        ensures { result ≡ is_at name self.now }
    {
        match self {
            Place::Station(id) => *id == name,
            Place::Vehicle(_) | Place::Checking | Place::Left => false,
        }
    }

    /// Returns whether it is this vehicle.
    pub fn is_on(&self, key: &VehicleKey) -> bool
        ensures { result ≡ is_on key.now self.now }
    {
        match self {
            Place::Vehicle(by) => *by == *key,
            Place::Station(_) | Place::Checking | Place::Left => false,
        }
    }
}

/// Returns the station of a place, or `None` if it is no station.
pub fn station_of_place(place: Place) -> Option<Name>
    ensures is { result ≡ station_of_place (Some place) }
    ensures stored { is_some result ≡ is_stored place }
{
    match place {
        Place::Station(id) => Some(id),
        Place::Vehicle(_) | Place::Checking | Place::Left => None,
    }
}

impl Job {
    /// Returns whether it is live and goes to the station of this name, where it reserves a place.
    pub fn goes_to(&self, name: Name) -> bool
        ensures { result ≡ goes_to name self.now }
    {
        self.phase.is_live() && self.target == name
    }
}

/// Returns the room left of a capacity with this many loads and live jobs; 0 if that is negative.
pub fn room_left(capacity: u32, loads: usize, jobs: usize) -> u32
    ensures { result ≡ room_left capacity loads jobs }
{
    let left = (capacity as usize)
        .saturating_sub(loads)
        .saturating_sub(jobs);
    left as u32
}

/// Returns how many more loads fit at a station: its capacity, less those of these loads that are
/// there, less those of these jobs that are live and go to it; 0 if that is negative.
///
/// It takes no memory, and time in proportion to the loads and the jobs.
pub fn room(station: &Station, places: &[(Name, Place)], jobs: &[Job]) -> u32
    ensures { result ≡ room_of station.now places.now jobs.now }
{
    let loads = places
        .iter()
        .filter(|load| load.1.is_at(station.id))
        .count();
    let jobs = jobs.iter().filter(|job| job.goes_to(station.id)).count();
    room_left(station.capacity, loads, jobs)
}
