//! The limits of what the desk keeps. A contract gives its limit as a number, or as one that `specs/Limits.antt` names,
//! and its proof shows that the constant here is that number.

/// The most nodes of a layout.
pub const MAX_LAYOUT_NODES: usize = 500;

/// The most edges of a layout.
pub const MAX_LAYOUT_EDGES: usize = 1500;

/// The most stations of a layout.
pub const MAX_LAYOUT_STATIONS: usize = 500;

/// The most loads that a station has room for.
pub const MAX_STATION_CAPACITY: u32 = 999;

/// The most edges of a trip's way.
pub const MAX_TRIP_EDGES: usize = 200;

/// The most acts of a trip, and so the most stops of an order.
pub const MAX_TRIP_ACTS: usize = 8;

/// The most vehicles.
pub const MAX_VEHICLES: usize = 100;

/// The most loads, the most jobs, the most names of orders and the most references.
pub const MAX_RECORDS: usize = 1_000_000;
