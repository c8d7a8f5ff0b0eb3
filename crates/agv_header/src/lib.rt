//! The types that all layers of the desk share: names, vehicles, topics, moments and refusals.
//!
//! - [`Name`] is the name of a load, node, edge, station, job, order, reference, manufacturer or
//!   vehicle. [`Name::read`] accepts exactly the texts of 1 to 32 bytes of `A-Z a-z 0-9 _ . : -`, and
//!   [`Name::of_bytes`] the same bytes. [`are_digits`] tests for digits.
//! - [`VehicleKey`] names a vehicle, and [`Thing`] a node or an edge of the layout. The orders of
//!   both are total, and only equal values tie, so they can be keys of maps.
//! - [`topic_text`] writes the topic of a vehicle's messages of a kind, as
//!   `uagv/v2/KIT/0001/order`, and [`read_topic`] accepts exactly the texts that it writes.
//! - [`Moment`] is a time in milliseconds, from 1970 to the end of 2099. [`stamp_text`] writes its
//!   date and time in UTC to the hundredth of a second, and [`read_stamp`] reads what `jiff` reads.
//! - [`is_fresh`] and [`next_number`] are the rules of header numbers.
//! - [`Refusal`] lists every refusal of the desk, each with its number, name and HTTP status.
//! - [`limits`] has the limits of the desk.
//! - [`Memory`] is the error of a call that fails only when out of memory. Only [`topic_text`] and
//!   [`stamp_text`] take memory.
#![tactic(auto)]

mod count;
mod digits;
mod key;
pub mod limits;
mod memory;
mod moment;
mod name;
mod refusal;
mod stamp;
mod topic;

pub use count::{is_fresh, next_number};
pub use digits::are_digits;
pub use key::{Thing, VehicleKey};
pub use memory::Memory;
pub use moment::Moment;
pub use name::{Name, NotName};
pub use refusal::{Refusal, Verb};
pub use stamp::{StampFault, read_stamp, stamp_text};
pub use topic::{NotTopic, Topic, read_topic, topic_text};
