//! The calls that the bodies of commands make.
ghost use Rattle.std.specs.Prelude.{◌≡◌, Ok, Err, IfOk, IfErr};
ghost use Rattle.serde_json.specs.View.{view};
ghost use Rattle.agv_message_json.specs.Body.{IsFaultOf};
ghost use Rattle.agv_face_http.specs.bodies.CommandBodies.{capacity_at, vehicle_from_json, load_from_json, correction_from_json, leave_from_json, job_from_json, drive_from_json, advance_from_json, place_from_json};
ghost use Rattle.agv_face_http.specs.bodies.Members.{or_bad_body};

use crate::bodies::members::{key, name, optional_name, whole_or};
use agv_desk::Call;
use agv_header::{Name, Refusal, VehicleKey};
use agv_message_json::{BodyFault, whole};
use serde_json::Value;

/// Returns the call that the body of `RegisterVehicle` makes.
#[tactic(auto, unfolding(crate::specs::bodies::CommandBodies::vehicle_from_json))]
pub(crate) fn vehicle_from_json(body: &Value) -> Option<Call>
    ensures { result ≡ vehicle_from_json (view body.now) }
{
    let key = key(body)?;
    let node = name(body, "node")?;
    let capacity = capacity(body)?;
    Some(Call::RegisterVehicle {
        key,
        node,
        capacity,
    })
}

/// Returns how many loads the vehicle carries at once: 1 where the member is absent.
#[tactic(auto, unfolding(crate::specs::bodies::CommandBodies::capacity_at))]
fn capacity(body: &Value) -> Option<u32>
    ensures { result ≡ capacity_at (view body.now) }
{
    whole_or(body, "capacity", 1)
}

/// Returns the call that the body of `RegisterLoad` makes.
#[tactic(auto, unfolding(crate::specs::bodies::CommandBodies::load_from_json))]
pub(crate) fn load_from_json(body: &Value) -> Option<Call>
    ensures { result ≡ load_from_json (view body.now) }
{
    let load = name(body, "load")?;
    let station = optional_name(body, "station")?;
    Some(Call::RegisterLoad { load, station })
}

/// Returns the call that the body of `CorrectLoad` makes.
#[tactic(auto, unfolding(crate::specs::bodies::CommandBodies::correction_from_json))]
pub(crate) fn correction_from_json(load: &Name, body: &Value) -> Option<Call>
    ensures { result ≡ correction_from_json load.now (view body.now) }
{
    let reference = name(body, "ref")?;
    let station = optional_name(body, "station")?;
    Some(Call::CorrectLoad {
        load: *load,
        reference,
        station,
    })
}

/// Returns the call that the body of `LeaveLoad` makes.
#[tactic(auto, unfolding(crate::specs::bodies::CommandBodies::leave_from_json))]
pub(crate) fn leave_from_json(load: &Name, body: &Value) -> Option<Call>
    ensures { result ≡ leave_from_json load.now (view body.now) }
{
    let reference = name(body, "ref")?;
    Some(Call::LeaveLoad {
        load: *load,
        reference,
    })
}

/// Returns the call that the body of `AddJob` makes.
#[tactic(auto, unfolding(crate::specs::bodies::CommandBodies::job_from_json))]
pub(crate) fn job_from_json(body: &Value) -> Option<Call>
    ensures { result ≡ job_from_json (view body.now) }
{
    let job = name(body, "job")?;
    let load = name(body, "load")?;
    let to = name(body, "to")?;
    Some(Call::AddJob { job, load, to })
}

/// Returns the call that the body of `StartDrive` makes.
#[tactic(auto, unfolding(crate::specs::bodies::CommandBodies::drive_from_json))]
pub(crate) fn drive_from_json(body: &Value) -> Option<Call>
    ensures { result ≡ drive_from_json (view body.now) }
{
    let order = name(body, "order")?;
    let key = key(body)?;
    let to = name(body, "to")?;
    let edges = whole(body, "edges")?;
    Some(Call::StartDrive {
        order,
        key,
        to,
        edges,
    })
}

/// Returns the call that the body of `Advance` makes.
#[tactic(auto, unfolding(crate::specs::bodies::CommandBodies::advance_from_json))]
pub(crate) fn advance_from_json(key: &VehicleKey, body: &Value) -> Option<Call>
    ensures { result ≡ advance_from_json key.now (view body.now) }
{
    let order = name(body, "order")?;
    let update = whole(body, "orderUpdateId")?;
    let edges = whole(body, "edges")?;
    Some(Call::Advance {
        key: *key,
        order,
        update,
        edges,
    })
}

/// Returns the call that the body of `PlaceVehicle` makes.
#[tactic(auto, unfolding(crate::specs::bodies::CommandBodies::place_from_json))]
pub(crate) fn place_from_json(key: &VehicleKey, body: &Value) -> Option<Call>
    ensures { result ≡ place_from_json key.now (view body.now) }
{
    let reference = name(body, "ref")?;
    let node = name(body, "node")?;
    Some(Call::PlaceVehicle {
        key: *key,
        reference,
        node,
    })
}

/// Returns the call, or `BadBody` if there is none.
pub(crate) fn or_bad_body(said: Option<Call>) -> Result<Call, BodyFault>
    ensures ok { IfOk result (λ call. or_bad_body said ≡ Ok call) }
    ensures err { IfErr result (λ fault. IsFaultOf fault (or_bad_body said)) }
{
    match said {
        Some(call) => Ok(call),
        None => Err(BodyFault::Refused(Refusal::BadBody)),
    }
}
