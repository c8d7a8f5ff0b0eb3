//! Rows of the desk's tables are queried, and decoded into tables of the world in memory. [`OpenFault`] says why there is no
//! answer.
//!
//! - [`queried_rows`] asks for the rows of a key, for those with some values, and how many these are; [`all_rows`] asks for
//!   all rows of a table. Whatever the database has, an answer changes nothing, and a failure that leaves the store open
//!   changes nothing but that it may end the transaction and so undo it (`specs/WorldAnswers.antt`, `specs/TablesRead.antt`).
//! - [`asked_tables`] and [`row_tables`] decode rows into a table of the world in memory (`specs/ReadTables.antt`): the first
//!   those of acts, legs and loads, of which a floor asks for some, the second those of the other tables. A row that can't be
//!   decoded, or a key that stands twice, is damaged.
//! - [`HeldThings`] is what is held, and tells whether that is what the vehicles of a world hold; [`held_rows`] decodes it.
//! - [`rowid_reading`] tells whether each row of a table has a ROWID of its own (`specs/Rowids.antt`), as an opening asks of
//!   a file that anyone may have written.
//!
//! The questions to a floor are in agv_store_ask, whole tables in agv_store_read_tables.
#![tactic(auto)]

pub mod all_rows;
pub mod asked_tables;
pub mod held_rows;
pub mod held_things;
pub mod open_fault;
pub mod queried_rows;
pub mod row_tables;
pub mod rowid_reading;

pub use held_things::HeldThings;
pub use open_fault::OpenFault;
