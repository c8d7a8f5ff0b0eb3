//! Stations: where loads are picked and dropped.

use agv_header::Name;

/// The node of a station, and how many loads fit there: 1 to 999.
#[derive(Clone, Copy, Debug, PartialEq, Eq)]
pub struct StationSite {
    pub node: Name,
    pub capacity: u32,
}

/// A station, its node, and how many loads fit there: 1 to 999.
#[derive(Clone, Copy, Debug, PartialEq, Eq)]
pub struct Station {
    pub id: Name,
    pub node: Name,
    pub capacity: u32,
}
