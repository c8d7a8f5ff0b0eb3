//! The look-ups by columns that are not a table's key.

/// A query for rows by some of their columns.
#[derive(Clone, Copy, Debug)]
pub enum RowsBy {
    /// The journey of a vehicle's open trip.
    VehicleJourney,
    /// The acts of an open trip.
    OrderActs,
    /// The edges of an open trip.
    OrderLegs,
    /// The loads at a station.
    StationLoads,
    /// The jobs of a load in a phase.
    LoadJobs,
}
