//! The SQL statements on the desk's tables, in any database that has these, whatever other tables and indexes it has:
//! their texts, their execution, and their results.
//!
//! - [`query_texts`] and `row_texts` have the texts.
//! - [`row_writes`] inserts a row, deletes it, or puts it in place of the row of its key; [`row_updates`] overwrites an
//!   existing row.
//! - [`row_reads`] reads the rows of a table, of a key or by other columns, or counts them, outside a transaction;
//!   [`row_finds`] finds rows inside one.
//! - `proofs/sql` proves what a statement of SQL over one table means, whatever the table is.
#![tactic(auto)]

pub mod query_texts;
pub mod row_finds;
pub mod row_reads;
pub(crate) mod row_texts;
pub mod row_updates;
pub mod row_writes;
