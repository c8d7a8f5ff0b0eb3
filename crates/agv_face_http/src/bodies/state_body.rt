//! Bodies that are state messages.
ghost use Rattle.std.specs.Prelude.{◌≡◌, false, Ok, Err, IfErr, IfOk};
ghost use Rattle.std.specs.Str.{is_utf8};
ghost use Rattle.agv_header.specs.declared.refusal.Refusal.TheVariants as refusal;
ghost use Rattle.agv_face_http.specs.bodies.StateBody.{is_sent_by, message_in, state_in};
ghost use Rattle.agv_message_json.specs.Body.{IsFaultOf};
ghost use Rattle.agv_message_json.specs.declared.body.BodyFault.TheVariants as fault;

use agv_desk::Call;
use agv_header::{Refusal, VehicleKey};
use agv_message_core::StateMessage;
use agv_message_json::{BodyFault, read_body, read_state};
use std::alloc::Global;

/// Returns the call that the body of `State` makes, where the path names the vehicle `key`.
///
/// `Refused`, with the first of these that holds: what [`read_body`] and then [`read_state`] refuse, and `WrongVehicle`
/// where the state is of another vehicle than `key`. `Memory` when out of memory, but not for a body that isn't UTF-8.
#[tactic(auto, unfolding(crate::specs::bodies::StateBody::state_in))]
pub fn state_in(alloc: Global, key: &VehicleKey, body: &[u8]) -> Result<Call, BodyFault>
    ensures ok { IfOk result (λ call. state_in key.now body.now ≡ Ok call) }
    ensures err { IfErr result (λ fault. IsFaultOf fault (state_in key.now body.now)) }
    ensures no_text { is_utf8 body.now ≡ false → result ≡ Err (fault.Refused refusal.BadJson) }
{
    let state = message_in(alloc, body)?;
    if !is_sent_by(key, &state) {
        return Err(BodyFault::Refused(Refusal::WrongVehicle));
    }
    Ok(Call::State { key: *key, state })
}

/// Reads the body as a state message.
fn message_in(alloc: Global, body: &[u8]) -> Result<StateMessage, BodyFault>
    ensures ok { IfOk result (λ message. message_in body.now ≡ Ok message) }
    ensures err { IfErr result (λ fault. IsFaultOf fault (message_in body.now)) }
    ensures no_text { is_utf8 body.now ≡ false → result ≡ Err (fault.Refused refusal.BadJson) }
{
    let value = read_body(alloc, body)?;
    read_state(alloc, &value)
}

/// Returns whether the state names this vehicle as its sender.
fn is_sent_by(key: &VehicleKey, state: &StateMessage) -> bool
    ensures { result ≡ is_sent_by key.now state.now }
{
    state.manufacturer.as_str().as_bytes() == key.manufacturer.as_bytes()
        && state.serial.as_str().as_bytes() == key.serial.as_bytes()
}
