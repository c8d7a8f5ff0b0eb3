//! From a line of the table of routes and a body to the call that they make.
ghost use Rattle.std.specs.Prelude.{◌≡◌, false, true, Ok, Err, IfOk, IfErr, IsOk};
ghost use Rattle.std.specs.Str.{is_utf8};
ghost use Rattle.agv_header.specs.declared.refusal.Refusal.TheVariants as refusal;
ghost use Rattle.agv_message_json.specs.Body.{IsFaultOf};
ghost use Rattle.agv_message_json.specs.declared.body.BodyFault.TheVariants as fault;
ghost use Rattle.agv_face_http.specs.bodies.BodyCalls.{call_of_body, is_json, is_unread};

use crate::Route::{self, Fixed, OfName, OfVehicle};
use crate::bodies::commands::{
    advance_from_json, correction_from_json, drive_from_json, job_from_json, leave_from_json,
    load_from_json, or_bad_body, place_from_json, vehicle_from_json,
};
use crate::bodies::csv_bodies::{layout_call, stocktake_call};
use crate::bodies::order_body::order_in;
use crate::bodies::state_body::state_in;
use crate::{FixedRoute, NamedRoute, VehicleRoute};
use agv_desk::Call;
use agv_message_json::{BodyFault, read_body};
use std::alloc::Global;

/// Returns the call that a request makes, by its line of the table of routes and its body.
///
/// `Refused` where the body of a route that reads one isn't as it should be: `BadJson`, `Fraction` or `BadBody` for
/// JSON, for a state also `Position`, `Version`, `BadTimestamp` and `WrongVehicle`, and `BadCsv` for a table. `Memory`
/// when out of memory. Routes that read no body always give their call, and JSON bodies that aren't UTF-8 always give
/// `BadJson`, since neither allocates.
#[tactic(auto, unfolding(crate::specs::bodies::Members::json_in, crate::specs::bodies::BodyCalls::call_of_body, crate::specs::bodies::BodyCalls::is_json, crate::specs::bodies::BodyCalls::is_unread))]
pub fn call_of(alloc: Global, route: &Route, body: &[u8]) -> Result<Call, BodyFault>
    ensures ok { IfOk result (λ call. call_of_body route.now body.now ≡ Ok call) }
    ensures err { IfErr result (λ fault. IsFaultOf fault (call_of_body route.now body.now)) }
    ensures no_text { is_json route.now ≡ true → is_utf8 body.now ≡ false
        → result ≡ Err (fault.Refused refusal.BadJson) }
    ensures unread { is_unread route.now ≡ true → IsOk result }
{
    match route {
        Fixed(FixedRoute::SetLayout) => layout_call(alloc, body),
        Fixed(FixedRoute::RegisterVehicle) => or_bad_body(vehicle_from_json(&read_body(
            alloc, body,
        )?)),
        Fixed(FixedRoute::RegisterLoad) => or_bad_body(load_from_json(&read_body(alloc, body)?)),
        OfName(NamedRoute::CorrectLoad, load) => or_bad_body(correction_from_json(
            load,
            &read_body(alloc, body)?,
        )),
        OfName(NamedRoute::LeaveLoad, load) => or_bad_body(leave_from_json(
            load,
            &read_body(alloc, body)?,
        )),
        Fixed(FixedRoute::AddJob) => or_bad_body(job_from_json(&read_body(alloc, body)?)),
        OfName(NamedRoute::StopJob, job) => Ok(Call::StopJob { job: *job }),
        Fixed(FixedRoute::StartOrder) => order_in(alloc, body),
        Fixed(FixedRoute::StartDrive) => or_bad_body(drive_from_json(&read_body(alloc, body)?)),
        OfVehicle(VehicleRoute::Advance, key) => or_bad_body(advance_from_json(
            key,
            &read_body(alloc, body)?,
        )),
        OfVehicle(VehicleRoute::Cancel, key) => Ok(Call::Cancel { key: *key }),
        OfVehicle(VehicleRoute::Pause, key) => Ok(Call::Pause { key: *key }),
        OfVehicle(VehicleRoute::Resume, key) => Ok(Call::Resume { key: *key }),
        OfVehicle(VehicleRoute::PlaceVehicle, key) => or_bad_body(place_from_json(
            key,
            &read_body(alloc, body)?,
        )),
        OfVehicle(VehicleRoute::Resync, key) => Ok(Call::Resync { key: *key }),
        OfVehicle(VehicleRoute::State, key) => state_in(alloc, key, body),
        OfVehicle(VehicleRoute::GetOrder, key) => Ok(Call::GetOrder { key: *key }),
        OfVehicle(VehicleRoute::GetInstant, key) => Ok(Call::GetInstant { key: *key }),
        OfName(NamedRoute::Stocktake, reference) => stocktake_call(alloc, reference, body),
        OfName(NamedRoute::GetLoad, load) => Ok(Call::GetLoad { load: *load }),
        OfName(NamedRoute::GetJob, job) => Ok(Call::GetJob { job: *job }),
        OfVehicle(VehicleRoute::GetVehicle, key) => Ok(Call::GetVehicle { key: *key }),
        Fixed(FixedRoute::Report(report)) => Ok(Call::Report(*report)),
    }
}
