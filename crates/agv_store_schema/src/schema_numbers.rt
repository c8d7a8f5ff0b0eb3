//! The numbers of the desk's second schema: its own, and the most loads that a vehicle may be built for.

/// The number of the schema, as `meta` stores it.
pub const SCHEMA_NUMBER: u32 = 2;

/// The most loads that a vehicle may be built for.
pub const DESK_SEATS: u32 = 4;
