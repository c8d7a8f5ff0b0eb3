//! Creates the desk's tables beside whatever a database has, or recognizes them in a database that anyone made.
//!
//! - [`table_texts`] has the SQL texts that create the tables, and [`step_running`] executes them.
//! - [`desk_tables`] creates the tables, the row of `meta` and the indexes in one transaction, or refuses if one of the
//!   names is taken ([`MakingFault`]). [`making_laws`] proves that what it creates is a desk for the statements, and
//!   that opening the database finds it again, after a crash too.
//! - [`standing_tables`] checks whether a schema that anyone made has the desk's tables (`specs/StandingTables.antt`),
//!   and [`tables_beside`] whether they can be created beside the tables that are there.
#![tactic(auto)]

pub mod desk_tables;
pub mod making_fault;
pub mod making_laws;
pub mod standing_tables;
pub mod step_running;
pub(crate) mod table_match;
pub mod table_texts;
pub mod tables_beside;

pub use making_fault::MakingFault;
