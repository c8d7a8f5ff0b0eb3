//! Judging state messages against the trips of their vehicles.
//!
//! - [`judge`] judges a state against the trip of its vehicle: it returns a [`Refusal`](agv_header::Refusal), or the
//!   trip's [`Progress`].
//! - [`judge_idle`] judges a state of a vehicle without one: it returns a refusal, or whether the pending action is
//!   over.
//! - [`laws`] proves what follows from a judgement.
//!
//! What a vehicle holds is in `agv_track_holds`, whose items stand here too: [`footprint`] of a [`Standing`], and the
//! [`HoldTable`] with its [`ClaimFault`].
#![tactic(auto)]

mod action_id;
mod idle;
mod judgement;
pub mod laws;
mod pending;
mod progress;
mod reached;
mod reports;
mod statuses;

pub use agv_track_holds::{ClaimFault, HoldTable, Standing, footprint};
pub use idle::judge_idle;
pub use judgement::judge;
pub use pending::Pending;
pub use progress::{End, Progress};
