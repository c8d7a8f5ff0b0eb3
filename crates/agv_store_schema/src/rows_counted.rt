//! The counts of rows by columns that are not a table's key.

/// A count of rows by some of their columns.
#[derive(Clone, Copy, Debug)]
pub enum RowsCounted {
    /// The loads at a station.
    StationLoads,
    /// The loads on a vehicle.
    VehicleLoads,
    /// The jobs to a station in a phase.
    TargetJobs,
}
