//! What the desk knows: worlds, their rows, and the questions that the rules ask.
//!
//! - `agv_world_core` has the [`World`] and its rows, a [`Change`] of a row, the trait [`Floor`] of the questions, and what
//!   a lawful world is.
//! - `agv_world_plain` has [`PlainFloor`], the floor over a world in memory.
//! - `agv_world_lawful` tests whether tables are those of a lawful world: [`TestsLawful`] gives a [`World`] its
//!   `is_lawful`.
#![tactic(auto)]

pub use agv_world_core::{
    ByLeg, ByName, ByVehicle, Carrier, Change, Counted, Fault, Floor, JobRow, LegKey, Names, Row,
    Sent, TripRow, UseKey, UseKind, UsedNames, VehicleRow, World,
};
pub use agv_world_lawful::TestsLawful;
pub use agv_world_plain::PlainFloor;
