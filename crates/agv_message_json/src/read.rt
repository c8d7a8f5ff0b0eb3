//! Reading a state message.
ghost use Rattle.std.specs.Prelude.{◌≡◌, true, false, Ok, Err, IfErr, IfOk, codes, nat_eq};
ghost use Rattle.std.specs.List.{starts_with};
ghost use Rattle.serde_json.specs.View.{view};
ghost use Rattle.agv_header.specs.declared.refusal.Refusal.TheVariants as refusal;
ghost use Rattle.agv_message_json.specs.Body.{IsFaultOf};
ghost use Rattle.agv_message_json.specs.Position.{has_position as holds_position};
ghost use Rattle.agv_message_json.specs.State.{state_or_refusal, lacks_members, state_of};
ghost use Rattle.agv_message_json.specs.declared.body.BodyFault.TheVariants as fault;

use crate::BodyFault;
use crate::parts::Parts;
use crate::position::has_position;
use agv_header::{Refusal, read_stamp};
use agv_message_core::StateMessage;
use serde_json::Value;
use std::alloc::Global;

/// Reads the state message that a JSON value holds.
///
/// Returns `Refused` with the first of these that holds: `Position` if the state has `agvPosition`,
/// `velocity`, a `nodePosition` or a `trajectory`; `BadBody` if a member that the desk needs is
/// absent or of the wrong kind; `Version` if `version` doesn't begin with `2.`; `BadTimestamp` if
/// `timestamp` is no moment from 1970 to 2099. Returns `Memory` if an allocation is refused; none is
/// made before the lists are read, so `Position`, and `BadBody` for a member other than `nodeStates`
/// and `actionStates`, don't depend on memory.
pub fn read_state(alloc: Global, body: &Value) -> Result<StateMessage, BodyFault>
    ensures ok { IfOk result (λ message. state_of (view body.now) ≡ Ok message) }
    ensures err { IfErr result (λ fault. IsFaultOf fault (state_of (view body.now))) }
    ensures position { holds_position (view body.now) ≡ true
        → result ≡ Err (fault.Refused refusal.Position) }
    ensures lacking { holds_position (view body.now) ≡ false → lacks_members (view body.now) ≡ true
        → result ≡ Err (fault.Refused refusal.BadBody) }
{
    let is_located = has_position(body);
    if is_located {
        return Err(BodyFault::Refused(Refusal::Position));
    }
    read_located(alloc, body)
}

/// Reads a state that has no position.
fn read_located(alloc: Global, state: &Value) -> Result<StateMessage, BodyFault>
    ensures ok { IfOk result (λ message. state_or_refusal (view state.now) ≡ Ok message) }
    ensures err { IfErr result (λ fault. IsFaultOf fault (state_or_refusal (view state.now))) }
    ensures lacking { lacks_members (view state.now) ≡ true
        → result ≡ Err (fault.Refused refusal.BadBody) }
{
    let Some(parts) = Parts::of(alloc, state)? else {
        return Err(BodyFault::Refused(Refusal::BadBody));
    };
    if !is_served(parts.opening.version) {
        return Err(BodyFault::Refused(Refusal::Version));
    }
    let Ok(at) = read_stamp(parts.opening.timestamp) else {
        return Err(BodyFault::Refused(Refusal::BadTimestamp));
    };
    Ok(parts.message(alloc, at)?)
}

/// Returns whether the desk serves messages of this version: the major version is 2.
fn is_served(version: &str) -> bool
    ensures { result ≡ starts_with nat_eq version.now (codes "2.") }
{
    version.as_bytes().starts_with(b"2.")
}
