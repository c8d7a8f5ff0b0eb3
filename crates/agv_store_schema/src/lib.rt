//! The schema of the desk's tables: fourteen STRICT tables and four plain indexes (`specs/Schema.antt`).
//!
//! - [`table_name`] names the tables; [`schema_numbers`] has the number of the schema and the most loads of a vehicle.
//! - [`rows_by`] names the look-ups by columns that are not a table's key, [`rows_counted`] the counts by such columns.
//!   `specs/RowTexts.antt` has the SQL texts for one row, and says which tables have them.
//! - `specs/DeskRows.antt` defines that the tables are in a database, and which rows they have.
//! - `specs/Connections.antt` defines the state of a connection and its later moments; [`laws`] has their laws. What a
//!   database has is stated for a clean store: one whose disk has so far returned what was written to it. A store in
//!   memory is always clean.
//!
//! The crates above it are agv_store_create (creates and checks the tables), agv_store_rows (rows in columns), agv_store_sql
//! (SQL on rows), agv_store_changes (writes), agv_store_read, agv_store_read, agv_store_read_tables and agv_store_read_tables
//! (reads), agv_store_ask (the queries of a floor) and agv_store_migrate (the migration from the first schema).
#![tactic(auto)]

pub mod laws;
pub mod rows_by;
pub mod rows_counted;
pub mod schema_numbers;
pub mod table_name;

pub use rows_by::RowsBy;
pub use rows_counted::RowsCounted;
pub use schema_numbers::DESK_SEATS;
pub use table_name::TableName;
