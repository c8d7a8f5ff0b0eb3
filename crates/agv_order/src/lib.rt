//! Trips: the orders of the desk, from planning to the messages that a vehicle receives.
//!
//! - A [`Trip`] is an open order of a vehicle: the edges that it is to drive, and the [`Act`]s, picks
//!   and drops of loads, that it carries out on the way.
//! - [`stops_fit`] tests which lists of [`Stop`]s an order can have. [`Trip::plan`] plans the trip that
//!   makes them, by the route from stop to stop; [`Trip::plan_drive`] plans one without acts, which leads a vehicle to
//!   a node; [`Trip::release`] releases more of a trip by an update.
//! - [`Trip::message`] is the order message of the trip's last update, with the sequence numbers of
//!   [`node_seq`] and [`edge_seq`]; [`join`] is what a vehicle does with a message.
//! - [`Trip::is_well_formed`] tests whether a trip is planned on a layout and under way.
//! - [`merge`] is the order of an action's statuses; [`is_finished`] and [`is_final`] test one.
//! - [`laws`] proves properties of the definitions behind these contracts, such as that the next update gives
//!   the whole order, and that trips stay well formed.
#![tactic(auto)]

mod act;
mod drive;
mod fault;
mod job_progress;
mod joins;
pub mod laws;
mod message;
mod number;
mod plan;
mod planned;
mod release;
mod status;
mod stitch;
mod stop;
mod stop_route;
mod trip;
mod under_way;
mod well_formed;

pub use act::{Act, is_drop};
pub use fault::PlanFault;
pub use joins::{JoinRefusal, Joined, join};
pub use number::{edge_seq, node_seq};
pub use status::{is_final, is_finished, merge};
pub use stop::{Stop, stops_fit};
pub use stop_route::job_named;
pub use trip::Trip;
