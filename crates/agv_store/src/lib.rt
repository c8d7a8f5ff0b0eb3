//! The desk over its tables in a SQL database: each call is decided by queries to the tables, and its changes are
//! written in one transaction before it is answered.
//!
//! - [`Desk`] is made in a database, or adopted from one (`opening`; [`OpenFault`] says why there is none). It serves
//!   one call, or a list of calls in order up to the first fault (`running`), and keeps its world lawful. A database of
//!   the first schema is migrated to the second, and its desk adopted (`migration`).
//! - `serving` serves one call over the floor of `agv_store_floor`, which queries the tables.
//! - [`Desk::report`] returns the bytes of a report (`reports`). The floor reads what a report lists, and `agv_count`
//!   writes the text.
//!
//! The invariant of a desk's connection and of what it keeps in memory beside it is in `specs/Floors.antt` of
//! `agv_store_floor`, serving a call in `specs/Serving.antt`, a list of calls in `specs/Running.antt`, opening in
//! `specs/Opening.antt`, and migration in `specs/Migration.antt`.
#![tactic(auto)]

mod desk;
pub mod laws;
mod migration;
mod opening;
mod reports;
mod running;
mod serving;

pub use agv_store_read::OpenFault;
pub use desk::Desk;
