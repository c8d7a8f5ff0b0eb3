//! Changes of rows.

use crate::{JobRow, LegKey, TripRow, UseKey, VehicleRow};
use agv_header::{Name, Thing, VehicleKey};
use agv_layout::{EdgeEnds, StationSite};
use agv_stock::Place;

/// One row that is written, in place of the row with its key if there is one; or removed, if there is
/// no row to write.
#[derive(Debug, Drop)]
pub enum Change {
    Node(Name),
    Edge(Name, EdgeEnds),
    Station(Name, StationSite),
    Vehicle(VehicleKey, VehicleRow),
    /// The open trip of an order; `None` if it has ended.
    Trip(Name, Option<TripRow>),
    /// The name of an edge of an open trip; `None` if the trip has ended.
    Leg(LegKey, Option<Name>),
    Load(Name, Place),
    Job(Name, JobRow),
    /// The vehicle that holds a node or an edge; `None` if it is free.
    Hold(Thing, Option<VehicleKey>),
    Used(UseKey),
}
