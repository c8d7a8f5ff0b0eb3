//! The program as a library: [`run_program`] reads the arguments, parses them by `agv_app_line`, and carries out their
//! line over the standard streams.
//!
//! [`run_line`] carries out a line over a reader of its input, a writer of its output and a writer of its faults, and
//! returns the exit status. The outcome of a replay in memory, and the end of any line, are specified in
//! `specs/Runs.antt`.
//!
//! - `run` opens the file or the database in memory that a line names, and passes the connection on, or lends a desk in
//!   it.
//! - `desks` has what is done over any store: opening a desk in it, to answer the requests of a stream or print a
//!   report, and migrating a file of the first schema to the second.
//! - `connections` listens on a port and serves one connection after another ([`serve_next`]).
//! - `outcome` has the ends of a run ([`RunFault`]), and why no connection was served ([`NextFault`]).
#![tactic(auto)]

mod connections;
mod desks;
mod outcome;
mod program;
mod run;

pub use connections::{MAX_WAIT_SECONDS, serve_next};
pub use outcome::{NextFault, RunFault, end_of};
pub use program::run_program;
pub use run::run_line;
