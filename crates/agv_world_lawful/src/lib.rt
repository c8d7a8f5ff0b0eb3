//! Tests of whether tables, whatever rows they have, are those of a lawful world.
//!
//! - [`TestsLawful::is_lawful`] tests the tables of `agv_world_core`: it returns `true` if and only if there is a lawful
//!   world (`Lawful.antt` of `agv_world_core`) whose tables they are.
//! - The tests look rows up. `specs/LawfulTests.antt` has those of the layout, the vehicles and their trips, and
//!   `specs/LoadTests.antt` those of loads and jobs; each is a function of the same name, in the file of its subject.
//!   `specs/Values.antt` says what is true of every name and number in tables.
//! - [`laws`] says what the tests prove of a world.
//!
//! The rules of `agv_desk` and the queries of `agv_store_ask` do not use this crate.
#![tactic(auto)]

mod acts;
mod footprints;
mod jobs;
mod laid;
mod lawful;
pub mod laws;
mod room;
mod trips;
mod values;
mod vehicles;

pub use lawful::TestsLawful;
