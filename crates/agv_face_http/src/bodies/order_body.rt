//! Bodies that ask for an order.
ghost use Rattle.std.specs.Prelude.{◌≡◌, false, Ok, Err, IfErr, IfOk, codes, map, option_and_then, option_map};
ghost use Rattle.std.specs.Str.{is_utf8};
ghost use Rattle.serde_json.specs.View.{view};
ghost use Rattle.agv_header.specs.Each.{each};
ghost use Rattle.agv_header.specs.declared.refusal.Refusal.TheVariants as refusal;
ghost use Rattle.agv_face_http.specs.bodies.OrderBody.{both_stops, kind_of, listed_stops, order_in, order_from_json, stop_in, stops_from_json};
ghost use Rattle.agv_face_http.specs.bodies.Members.{name_at};
ghost use Rattle.agv_message_json.specs.Body.{IsFaultOf};
ghost use Rattle.agv_message_json.specs.Members.{text_at};
ghost use Rattle.agv_message_json.specs.declared.body.BodyFault.TheVariants as fault;

use crate::bodies::members::{key, name};
use agv_desk::Call;
use agv_header::{Memory, Name, Refusal};
use agv_message_core::{ActKind, Sequence};
use agv_message_json::{BodyFault, has, items, member, read_body, whole};
use agv_order::Stop;
use serde_json::Value;
use std::alloc::Global;

/// Returns the call that the body of `StartOrder` makes.
///
/// `Refused`, with the first of these that holds: what [`read_body`] refuses, and `BadBody` where a member is absent or
/// of the wrong kind, or where there are both a `job` and `stops` or neither. `Memory` when out of memory, but not for
/// a body that isn't UTF-8.
#[tactic(auto, unfolding(crate::specs::bodies::OrderBody::order_in, crate::specs::bodies::Members::json_in))]
pub fn order_in(alloc: Global, body: &[u8]) -> Result<Call, BodyFault>
    ensures ok { IfOk result (λ call. order_in body.now ≡ Ok call) }
    ensures err { IfErr result (λ fault. IsFaultOf fault (order_in body.now)) }
    ensures no_text { is_utf8 body.now ≡ false → result ≡ Err (fault.Refused refusal.BadJson) }
{
    let value = read_body(alloc, body)?;
    match order_from_json(alloc, &value)? {
        Some(call) => Ok(call),
        None => Err(BodyFault::Refused(Refusal::BadBody)),
    }
}

/// Reads the members of a `StartOrder` body; `None` where one is absent or of the wrong kind.
#[tactic(auto, unfolding(crate::specs::bodies::OrderBody::order_from_json))]
fn order_from_json(alloc: Global, body: &Value) -> Result<Option<Call>, Memory>
    ensures { IfOk result (λ said. said ≡ order_from_json (view body.now)) }
{
    let Some(order) = name(body, "order") else {
        return Ok(None);
    };
    let Some(key) = key(body) else {
        return Ok(None);
    };
    let Some(edges) = whole(body, "edges") else {
        return Ok(None);
    };
    let Some(stops) = stops_from_json(alloc, body)? else {
        return Ok(None);
    };
    Ok(Some(Call::StartOrder {
        order,
        key,
        stops,
        edges,
    }))
}

/// Reads the stops of the order: those of its one job, or those that it lists.
#[tactic(auto, unfolding(crate::specs::bodies::OrderBody::stops_from_json))]
fn stops_from_json(alloc: Global, order: &Value) -> Result<Option<Sequence<Stop>>, Memory>
    ensures { IfOk result (λ said. said ≡ stops_from_json (view order.now)) }
{
    if !has(order, "stops") {
        return job_stops(alloc, order);
    }
    if has(order, "job") {
        return Ok(None);
    }
    listed_stops(alloc, order)
}

/// Reads the member `job`, and returns the two stops of that job.
fn job_stops(alloc: Global, order: &Value) -> Result<Option<Sequence<Stop>>, Memory>
    ensures { IfOk result (λ said. said ≡ option_map both_stops (name_at (codes "job") (view order.now))) }
{
    match name(order, "job") {
        Some(job) => Ok(Some(both_stops(alloc, &job)?)),
        None => Ok(None),
    }
}

/// Returns the two stops of a job.
fn both_stops(alloc: Global, job: &Name) -> Result<Sequence<Stop>, Memory>
    ensures { IfOk result (λ stops. stops ≡ both_stops job.now) }
{
    let pick = Stop {
        kind: ActKind::Pick,
        job: *job,
    };
    let drop = Stop {
        kind: ActKind::Drop,
        job: *job,
    };
    let stops = Vec::from_slice(alloc, &[pick, drop])?;
    Ok(stops.into())
}

/// Reads the stops that the member `stops` lists.
#[tactic(auto, unfolding(crate::specs::bodies::OrderBody::listed_stops))]
fn listed_stops(alloc: Global, order: &Value) -> Result<Option<Sequence<Stop>>, Memory>
    ensures { IfOk result (λ said. said ≡ listed_stops (view order.now)) }
{
    match items(order, "stops") {
        Some(values) => stops_in(alloc, values),
        None => Ok(None),
    }
}

/// Reads the values as stops, in order.
fn stops_in(alloc: Global, values: &[Value]) -> Result<Option<Sequence<Stop>>, Memory>
    ensures { IfOk result (λ said. said ≡ each stop_in (map view values.now)) }
{
    let mut stops = Vec::new(alloc);
    for value in values {
        let Some(stop) = stop_in(value) else {
            return Ok(None);
        };
        stops.push(stop)?;
    }
    Ok(Some(stops.into()))
}

/// Reads a value as a stop.
#[tactic(auto, unfolding(crate::specs::bodies::OrderBody::stop_in))]
fn stop_in(value: &Value) -> Option<Stop>
    ensures { result ≡ stop_in (view value.now) }
{
    let kind = kind(value)?;
    let job = name(value, "job")?;
    Some(Stop { kind, job })
}

/// Reads the member `action` of a stop.
#[tactic(auto, unfolding(agv_message_json::specs::Members::text_at))]
fn kind(stop: &Value) -> Option<ActKind>
    ensures { result ≡ option_and_then kind_of (text_at (codes "action") (view stop.now)) }
{
    kind_of(member(stop, "action")?.as_str()?.as_bytes())
}

/// Returns the kind of a stop from its text.
fn kind_of(text: &[u8]) -> Option<ActKind>
    ensures { result ≡ kind_of text.now }
{
    if text == b"pick".as_slice() {
        Some(ActKind::Pick)
    } else if text == b"drop".as_slice() {
        Some(ActKind::Drop)
    } else {
        None
    }
}
