//! The answer to one request.
ghost use Rattle.std.specs.Prelude.{◌≡◌, ◌≤◌, [], true, Err, Ok, IfErr, IfOk, IsErr, OnErr, OnOk, length, vec_capacity};
ghost use Rattle.agv_world_core.specs.Asks.{failed_by};
ghost use Rattle.agv_face_http.specs.request.Requests.{most_body};
ghost use Rattle.agv_face_http.specs.answers.Sizes.{most_answer};
ghost use Rattle.sqlite.specs.Held.{state};
ghost use Rattle.sqlite.specs.State.{Survives};
ghost use Rattle.agv_store_floor.specs.Floors.{world_at};
ghost use Rattle.agv_store.specs.Serving.{LeavesCall};
ghost use Rattle.agv_store_schema.specs.Connections.{IsClean, IsOpen};
ghost use Rattle.agv_world_core.specs.declared.fault.Fault.TheVariants as fault;
ghost use Rattle.agv_face.specs.Replies.{ComesOfCall, IsAnswered, IsLaterDesk, IsCallAnswered, IsReached, LeavesRequest, call_of_lent};

use crate::call::call_in;
use agv_desk::laws::calls::tells_without_change;
use agv_desk::{Answer, Call};
use agv_face_http::laws::sizes::outcomes_fit;
use agv_face_http::{RequestRef, Routes, put_answer};
use agv_header::Moment;
use agv_message_json::BodyFault;
use agv_store::Desk;
use agv_store_read_tables::world_laws::a_database_tells_its_world;
use agv_world_core::Fault;
use sqlite::Alter;
use std::alloc::Global;

/// Serves the request, and writes the bytes of its answer to `out`, which has capacity for each answer to a call that
/// changes something, so that nothing is allocated after a commit.
pub(crate) fn answer_request<S: Alter + Drop>(
    alloc: Global,
    routes: &Routes,
    desk: &mut Desk<S>,
    at: Moment,
    request: &RequestRef<'_>,
    out: &mut Vec<u8>,
) -> Result<(), Fault>
    requires empty { out.old.items ≡ [] }
    requires capacity { most_answer ≤ vec_capacity out.old }
    requires short { length request.now.body.now ≤ most_body }
    ensures later { IsLaterDesk S.Store desk.old desk.new }
    ensures answers { IsClean S.Store desk.new.held → OnOk result (IsAnswered (world_at S.Store desk.old.held) (world_at S.Store desk.new.held) at request.now out.new.items) }
    ensures unchanged_on_err { IsClean S.Store desk.new.held → IsOpen S.Store desk.new.held → OnErr result (world_at S.Store desk.new.held ≡ world_at S.Store desk.old.held) }
    ensures failed { desk.new.failed ≡ failed_by result desk.old.failed }
    ensures stopped { desk.old.failed ≡ true → OnOk result (IsErr (call_of_lent request.now)) }
    ensures fault { IfErr result (ComesOfCall (call_of_lent request.now)) }
    ensures grown { vec_capacity out.old ≤ vec_capacity out.new }
    ensures reached { OnOk result (IsReached S.Store desk.old desk.new (call_of_lent request.now)) }
    ensures crash { Survives (state S.Store desk.old.held) (state S.Store desk.new.held) (LeavesRequest S.Store desk.old.held at (call_of_lent request.now)) }
{
    tells_without_change();
    let answer = answer_to(alloc, routes, desk, at, request)?;
    outcomes_fit(&answer);
    put_answer(&answer, request.close, out)?;
    Ok(())
}

/// Serves the request: serves its call, or refuses it if it makes none.
fn answer_to<S: Alter + Drop>(
    alloc: Global,
    routes: &Routes,
    desk: &mut Desk<S>,
    at: Moment,
    request: &RequestRef<'_>,
) -> Result<Answer, Fault>
    ensures later { IsLaterDesk S.Store desk.old desk.new }
    ensures serves { IsClean S.Store desk.new.held → IfOk result (IsCallAnswered (world_at S.Store desk.old.held) (world_at S.Store desk.new.held) at (call_of_lent request.now)) }
    ensures unchanged_on_err { IsClean S.Store desk.new.held → IsOpen S.Store desk.new.held → OnErr result (world_at S.Store desk.new.held ≡ world_at S.Store desk.old.held) }
    ensures failed { desk.new.failed ≡ failed_by result desk.old.failed }
    ensures stopped { desk.old.failed ≡ true → OnOk result (IsErr (call_of_lent request.now)) }
    ensures fault { IfErr result (ComesOfCall (call_of_lent request.now)) }
    ensures reached { OnOk result (IsReached S.Store desk.old desk.new (call_of_lent request.now)) }
    ensures crash { Survives (state S.Store desk.old.held) (state S.Store desk.new.held) (LeavesRequest S.Store desk.old.held at (call_of_lent request.now)) }
{
    match call_in(alloc, routes, request) {
        Ok(call) => serve_call(desk, at, &call),
        Err(BodyFault::Memory) => Err(Fault::Memory),
        Err(BodyFault::Refused(why)) => Ok(Answer::Refused(why)),
    }
}

/// Serves the call.
fn serve_call<S: Alter + Drop>(desk: &mut Desk<S>, at: Moment, call: &Call) -> Result<Answer, Fault>
    ensures later { IsLaterDesk S.Store desk.old desk.new }
    ensures serves { IsClean S.Store desk.new.held → IfOk result (IsCallAnswered (world_at S.Store desk.old.held) (world_at S.Store desk.new.held) at (Ok call.now)) }
    ensures unchanged_on_err { IsClean S.Store desk.new.held → IsOpen S.Store desk.new.held → OnErr result (world_at S.Store desk.new.held ≡ world_at S.Store desk.old.held) }
    ensures failed { desk.new.failed ≡ failed_by result desk.old.failed }
    ensures stopped { desk.old.failed ≡ true → result ≡ Err fault.Storage }
    ensures reached { OnOk result (IsReached S.Store desk.old desk.new (Ok call.now)) }
    ensures crash { Survives (state S.Store desk.old.held) (state S.Store desk.new.held) (LeavesCall S.Store desk.old.held at call.now) }
{
    a_database_tells_its_world();
    desk.serve(at, call)
}
