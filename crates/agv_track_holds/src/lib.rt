//! The nodes and edges that vehicles hold, and the table of these holds.
//!
//! - [`footprint`] lists the nodes and edges that a vehicle holds, each once, in the order of its way, from its
//!   [`Standing`]: where it is, and its open order. `specs/Footprints.antt` also defines them as a set.
//! - A [`HoldTable`] has the vehicle that holds each node and edge. [`HoldTable::claim`] gives things
//!   to a vehicle if no other one holds any of them, and [`HoldTable::shed`] takes from it what it no
//!   longer needs.
//! - [`laws`] proves what a footprint lists, and [`hold_laws`] what each thing's holder is after claiming and shedding.
//!
//! `agv_track` judges state messages against trips, and gives these items too.
#![tactic(auto)]

mod claim_fault;
mod footprints;
pub mod hold_laws;
mod holds;
pub mod laws;
mod ordered_set;
mod standing;

pub use claim_fault::ClaimFault;
pub use footprints::footprint;
pub use holds::HoldTable;
pub use standing::Standing;
