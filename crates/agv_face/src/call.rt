//! From a request to the call of the desk that it makes.
ghost use Rattle.std.specs.Prelude.{◌≡◌, Ok, IfOk, IfErr};
ghost use Rattle.agv_message_json.specs.Body.{IsFaultOf};
ghost use Rattle.agv_face.specs.Replies.{call_of_lent};

use agv_desk::Call;
use agv_face_http::{RequestRef, Routes};
use agv_message_json::BodyFault;
use std::alloc::Global;

/// Returns the call of the desk that the request makes, or why it is refused before it is a call.
pub(crate) fn call_in(
    alloc: Global,
    routes: &Routes,
    request: &RequestRef<'_>,
) -> Result<Call, BodyFault>
    ensures ok { IfOk result (λ call. call_of_lent request.now ≡ Ok call) }
    ensures err { IfErr result (λ fault. IsFaultOf fault (call_of_lent request.now)) }
{
    match routes.route_of(&request.method, request.target) {
        Ok(route) => agv_face_http::call_of(alloc, &route, request.body),
        Err(refusal) => Err(BodyFault::Refused(refusal)),
    }
}
