//! Pending actions.

use agv_message_core::InstantKind;

/// An instant action that the desk has sent and that is not over yet on the vehicle. Its id in
/// messages is `instant-` and the number.
#[derive(Clone, Copy, Debug, PartialEq, Eq)]
pub struct Pending {
    pub kind: InstantKind,
    /// The number of its instantActions message.
    pub number: u32,
}
