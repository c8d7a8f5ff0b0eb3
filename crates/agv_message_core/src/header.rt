//! The header of the messages that the desk writes.

use agv_header::{Moment, VehicleKey};

/// The header of a message: its number, its moment, and the vehicle that it is for.
#[derive(Clone, Copy, Debug, PartialEq, Eq)]
pub struct Header {
    /// One more than the number of the topic's last message.
    pub number: u32,
    /// When the message was made.
    pub at: Moment,
    /// The vehicle.
    pub key: VehicleKey,
}
