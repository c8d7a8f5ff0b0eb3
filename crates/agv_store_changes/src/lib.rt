//! Writes what a call changes in one transaction: a list of changes of a world's rows (`specs/ChangesMade.antt`), all
//! of them or none.
//!
//! - [`change_running`] runs the transaction and says why nothing was written; [`change_laws`] proves what is found
//!   when the database is opened after a crash.
//! - `change_writes` writes each kind of row, [`act_writes`] the acts of a trip, `capacity_writes` the capacity of a
//!   vehicle; `hold_rows` removes holds; `shown_rows` checks the rows that are there already.
#![tactic(auto)]

pub mod act_writes;
pub(crate) mod capacity_writes;
pub mod change_laws;
pub mod change_running;
pub(crate) mod change_writes;
pub(crate) mod hold_rows;
pub(crate) mod shown_rows;
