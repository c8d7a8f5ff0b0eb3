//! The first schema of the desk's database, in whose worlds each vehicle has a capacity of one load, and the migration
//! to the second schema.
//!
//! - [`standing`] checks whether a database has its eleven tables, and `rows_reading` reads the rows of each.
//! - [`trip_line`] and `trip_reading`: an open trip is one row, together with the row of its job. `world_decoding`
//!   decodes all rows ([`first_laws`]).
//! - [`world_finding`] joins these: it finds the lawful world, with capacity 1 for each vehicle, whose rows the eleven
//!   tables have.
//! - [`table_moving`] moves the database to the second schema, with the statements of `row_moving`; [`moving_laws`]
//!   proves what is found when the database is opened after a crash.
//!
//! No call of a running desk uses this crate: the command `migrate` reads the first schema and writes the second with
//! it.
#![tactic(auto)]

pub mod first_laws;
pub mod moving_laws;
pub(crate) mod row_moving;
pub(crate) mod rows_reading;
pub mod standing;
pub mod table_moving;
pub mod trip_line;
pub(crate) mod trip_reading;
pub(crate) mod world_decoding;
pub mod world_finding;
