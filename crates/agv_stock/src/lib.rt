//! Where loads are, the jobs that carry them, and the checks of the calls for them.
//!
//! - A [`Place`] is where a load is: at a station, on a vehicle, at the checking place, or out of the
//!   warehouse.
//! - A [`Job`] carries a load from the station where it is to another. It is live while it waits for a
//!   vehicle or rides on one ([`Phase::is_live`]).
//! - [`room`] is how many more loads fit at a station; a live job to it reserves a place there.
//!   [`station_of_place`] is the station of a place.
//! - [`can_register`], [`can_correct`], [`can_leave`] and [`can_job`] are the checks of the calls for
//!   a load, each in its order: the first that fails is the answer. A [`Goal`] is where the load is to
//!   go.
//!
//! Nothing here takes memory.
#![tactic(auto)]

mod checks;
mod goal;
mod job;
mod place;
mod rooms;

pub use checks::{can_correct, can_job, can_leave, can_register};
pub use goal::Goal;
pub use job::{Job, Phase};
pub use place::Place;
pub use rooms::{room, room_left, station_of_place};
