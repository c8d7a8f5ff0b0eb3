//! The goals of loads.

use agv_header::Name;

/// Where a load is to go, with what the checks need to know of the place.
#[derive(Clone, Copy, Debug, PartialEq, Eq)]
pub enum Goal {
    /// To the checking place, which takes any number of loads.
    Checking,
    /// To a station that the layout does not have.
    Unknown,
    /// To the station of this name, which has room for at least this many more loads; 0 only if none fits.
    At(Name, u32),
}
