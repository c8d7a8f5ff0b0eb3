//! The desk's tables as a floor: what a call needs to know is queried by keys and indexes.
//!
//! - A [`KeyedFloor`] answers the questions of `agv_desk` to a floor (`floor_questions`), over a connection to the
//!   desk's tables. Beside the connection it has what is known beside the tables (`Known` of agv_store_known): five counts,
//!   the layout (`kept_layout`), the room at stations (`kept_rooms`), the open trips of orders (`kept_trips`), the rows of
//!   vehicles (`kept_vehicles`) and the live jobs (`kept_jobs`).
//! - The lists of a report and of the exports are read from whole tables, unless they are cached (`report_lists`,
//!   `whole_tables`).
//! - [`flags`] defines what a fault of a query or of a write sets.
//!
//! Its invariant, about its connection and what it knows beside the tables, is in `specs/Floors.antt`. Code that
//! changes its fields has to prove the invariant again. `agv_store` serves calls over it; the rules of calls are in
//! `agv_desk`, which does not depend on this crate.
#![tactic(auto)]

pub mod flags;
mod floor_questions;
mod kept_jobs;
mod kept_layout;
mod kept_rooms;
mod kept_trips;
mod kept_vehicles;
pub mod keyed_floor;
mod report_lists;
mod whole_tables;

pub use keyed_floor::KeyedFloor;
