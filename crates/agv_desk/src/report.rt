//! The reports of the desk.

/// A report of the desk. Its bytes in a world are `report_text` (`specs/Reports.antt`).
#[derive(Clone, Copy, Debug, PartialEq, Eq)]
pub enum Report {
    /// The stock report: stations and vehicles with their loads, and the live jobs to each station.
    Stock,
    /// The hold report: the nodes and edges that are held, each with its vehicle.
    Holds,
    /// The export of loads: where each load is, as CSV.
    Loads,
    /// The export of jobs: the live jobs, each with the vehicle that carries it out, if any, as CSV.
    Jobs,
    /// The export of vehicles: where each vehicle stands, what its last state said, and its open order, as CSV.
    Vehicles,
    /// The export of the layout, as a call to set it takes it: a CSV file.
    Layout,
}
