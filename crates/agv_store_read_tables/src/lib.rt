//! The desk's tables are read, whole: one of them, or all as a world.
//!
//! - [`table_reading`], [`hold_reading`] and [`layout_reading`] read the tables of one thing each, as a desk that serves
//!   needs them: what is read is what the lawful world has whose rows the tables have, and it has just the rows that the
//!   tables have, whatever these are. A vehicle is read with its capacity. [`meta_reading`] reads the row of the schema's
//!   number.
//! - [`world_reading`] reads all tables into those of a world in memory, and what is held beside it, as an opening needs
//!   them; `world_tables` and `trip_reading` read those that nothing else reads: open trips with their edges, journeys and
//!   acts, and the names that were used. [`reading_laws`] says when the database has the rows of a world.
//! - The world that all the desk's tables tell is a function of the database (`specs/WorldIn.antt`): [`world_laws`] says
//!   that it is the lawful world whose rows they have, where they have those of one.
//! - [`new_desk_laws`] says that a new desk's tables have the rows of the world that knows nothing.
#![tactic(auto)]

pub mod hold_reading;
pub mod layout_reading;
pub mod meta_reading;
pub mod new_desk_laws;
pub mod reading_laws;
pub mod table_reading;
pub(crate) mod trip_reading;
pub mod world_laws;
pub mod world_reading;
pub(crate) mod world_tables;
