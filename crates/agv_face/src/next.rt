//! Answering the next request of a buffer.
ghost use Rattle.std.specs.Prelude.{◌≡◌, ◌≤◌, [], IfErr, IfOk, OnErr, vec_capacity};
ghost use Rattle.agv_world_core.specs.Asks.{failed_by};
ghost use Rattle.agv_face_http.specs.Output.{refusal_text};
ghost use Rattle.agv_face_http.specs.answers.Sizes.{most_answer};
ghost use Rattle.sqlite.specs.Held.{state};
ghost use Rattle.sqlite.specs.State.{Survives};
ghost use Rattle.agv_store_floor.specs.Floors.{world_at};
ghost use Rattle.agv_store_schema.specs.Connections.{IsClean, IsOpen};
ghost use Rattle.agv_face.specs.Nexts.{IsNext, IsNextFault, LeavesNext};
ghost use Rattle.agv_face.specs.Replies.{IsLaterDesk};

use crate::reply::answer_request;
use agv_desk::Answer;
use agv_face_http::laws::sizes::{bodies_fit, refusals_fit};
use agv_face_http::{Heard, Routes, put_answer, read_request};
use agv_header::{Moment, Refusal};
use agv_store::Desk;
use agv_world_core::Fault;
use sqlite::Alter;
use std::alloc::Global;

/// The outcome of serving the next request of a buffer.
#[derive(Clone, Copy)]
pub(crate) enum Next {
    /// More bytes are needed.
    Need,
    /// The input has ended.
    End,
    /// A request was served; its number of bytes, and whether it is the last of its stream.
    Request { len: usize, close: bool },
    /// There is no request, but this fault of HTTP.
    Fault(Refusal),
}

/// Serves the next request of the buffer, if it has arrived whole, and writes the bytes of its answer to `out`, or
/// those of the refusal of a fault of HTTP. `ended` says that no byte follows.
pub(crate) fn serve_request<S: Alter + Drop>(
    alloc: Global,
    routes: &Routes,
    desk: &mut Desk<S>,
    at: Moment,
    buf: &[u8],
    ended: bool,
    out: &mut Vec<u8>,
) -> Result<Next, Fault>
    requires { most_answer ≤ vec_capacity out.old }
    ensures later { IsLaterDesk S.Store desk.old desk.new }
    ensures next { IfOk result (IsNext S.Store at desk.old desk.new buf.now ended out.new.items) }
    ensures unchanged_on_err { IsClean S.Store desk.new.held → IsOpen S.Store desk.new.held → OnErr result (world_at S.Store desk.new.held ≡ world_at S.Store desk.old.held) }
    ensures failed { desk.new.failed ≡ failed_by result desk.old.failed }
    ensures fault { IfErr result (IsNextFault buf.now ended) }
    ensures grown { vec_capacity out.old ≤ vec_capacity out.new }
    ensures crash { Survives (state S.Store desk.old.held) (state S.Store desk.new.held) (LeavesNext S.Store desk.old.held at buf.now ended) }
{
    bodies_fit();
    out.clear();
    match read_request(alloc, buf, ended)? {
        Heard::Need => Ok(Next::Need),
        Heard::End => Ok(Next::End),
        Heard::Fault(why) => {
            refuse(&why, out);
            Ok(Next::Fault(why))
        }
        Heard::Request(request) => {
            answer_request(alloc, routes, desk, at, &request, out)?;
            let (len, close) = (request.len, request.close);
            Ok(Next::Request { len, close })
        }
    }
}

/// Writes the bytes of the refusal after which the stream ends to `out`, which has capacity for them.
fn refuse(why: &Refusal, out: &mut Vec<u8>)
    requires empty { out.old.items ≡ [] }
    requires capacity { most_answer ≤ vec_capacity out.old }
    ensures text { out.new.items ≡ refusal_text why.now }
    ensures grown { vec_capacity out.old ≤ vec_capacity out.new }
{
    refusals_fit(why);
    match put_answer(&Answer::Refused(*why), true, out) {
        Ok(()) => {}
        Err(_) => unreachable!(),
    }
}
