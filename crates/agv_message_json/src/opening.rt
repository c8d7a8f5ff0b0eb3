//! The header members of a state, and those of the vehicle's progress in its order.
ghost use Rattle.std.specs.Prelude.{◌≡◌, false, true, IfNone, IfSome};
ghost use Rattle.serde_json.specs.View.{view};
ghost use Rattle.agv_message_json.specs.Parts.{IsOpening, IsProgress};
ghost use Rattle.agv_message_json.specs.State.{has_opening, has_progress};

use crate::members::{text, whole};
use serde_json::Value;

/// The header members of a message.
#[derive(Clone, Copy)]
pub struct Opening<'a> {
    pub number: u32,
    pub timestamp: &'a str,
    pub version: &'a str,
    pub manufacturer: &'a str,
    pub serial: &'a str,
}

/// The members of a vehicle's progress in its order.
#[derive(Clone, Copy)]
pub struct Progress<'a> {
    pub order: &'a str,
    pub update: u32,
    pub last_node: &'a str,
    pub last_seq: u32,
}

impl<'a> Opening<'a> {
    /// Reads the members of the state, or returns `None` if one is missing or of the wrong kind.
    #[tactic(auto, unfolding(crate::specs::State::has_opening))]
    pub fn of(state: &'a Value) -> Option<Opening<'a>>
        ensures missing { IfNone result (has_opening (view state.now) ≡ false) }
        ensures present { IfSome result (λ _. has_opening (view state.now) ≡ true) }
        ensures read { IfSome result (IsOpening (view state.now)) }
    {
        let Some(number) = whole(state, "headerId") else {
            return None;
        };
        let Some(timestamp) = text(state, "timestamp") else {
            return None;
        };
        let Some(version) = text(state, "version") else {
            return None;
        };
        let Some(manufacturer) = text(state, "manufacturer") else {
            return None;
        };
        let Some(serial) = text(state, "serialNumber") else {
            return None;
        };
        Some(Opening {
            number,
            timestamp,
            version,
            manufacturer,
            serial,
        })
    }
}

impl<'a> Progress<'a> {
    /// Reads the members of the state, or returns `None` if one is missing or of the wrong kind.
    #[tactic(auto, unfolding(crate::specs::State::has_progress))]
    pub fn of(state: &'a Value) -> Option<Progress<'a>>
        ensures missing { IfNone result (has_progress (view state.now) ≡ false) }
        ensures present { IfSome result (λ _. has_progress (view state.now) ≡ true) }
        ensures read { IfSome result (IsProgress (view state.now)) }
    {
        let Some(order) = text(state, "orderId") else {
            return None;
        };
        let Some(update) = whole(state, "orderUpdateId") else {
            return None;
        };
        let Some(last_node) = text(state, "lastNodeId") else {
            return None;
        };
        let Some(last_seq) = whole(state, "lastNodeSequenceId") else {
            return None;
        };
        Some(Progress {
            order,
            update,
            last_node,
            last_seq,
        })
    }
}
