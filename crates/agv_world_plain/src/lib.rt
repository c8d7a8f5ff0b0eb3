//! A floor over a world in memory, for tests and small worlds.
//!
//! - [`PlainFloor`] answers the questions of a `Floor` of `agv_world_core` from the tables of a world, which it borrows: the
//!   answers are those of the world that the tables determine (`Told.antt` of `agv_world_core`).
//! - `questions` answers those for which a world has no method. From the rows of vehicles and their trips `holders` finds
//!   the vehicle that holds a node or an edge, and `carriers` the one that carries out a job.
//! - [`laws`] says that over such a floor no decision ends with a fault of the store.
#![tactic(auto)]

mod carriers;
mod holders;
pub mod laws;
mod plain_floor;
mod questions;

pub use plain_floor::PlainFloor;
