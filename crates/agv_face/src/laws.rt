//! Laws of how a stream ends, whatever the code does.
ghost use Rattle.std.specs.Prelude.{◌≡◌, ◌≢◌, ℕ, List, []};
ghost use Rattle.agv_desk.specs.Step.{steps};
ghost use Rattle.agv_desk.specs.WellTyped.{AreWellTyped};
ghost use Rattle.agv_face_http.specs.Output.{calls_of, world_after};
ghost use Rattle.agv_face_http.specs.request.Requests.{Request};
ghost use Rattle.agv_store_schema.specs.Connections.{IsClean, IsOpen, MoreFaults};
ghost use Rattle.agv_store_schema.specs.SchemaNumbers.{desk_seats};
ghost use Rattle.agv_store_floor.specs.Floors.{Keyed, world_at};
ghost use Rattle.agv_world_core.specs.Lawful.{IsLawful};
ghost use Rattle.agv_world_core.specs.Worlds.{World};
ghost use Rattle.agv_face.specs.Replies.{IsLaterDesk};
ghost use Rattle.agv_face.specs.StreamCalls.{AreDone, AreDoneOrNext};
ghost use Rattle.sqlite.specs.Held.{state};

use agv_face_http::laws::streams::{asks_well_typed_calls, serves_its_calls};
use agv_header::Moment;
use sqlite::Alter;

/// Proves that a stream that has answered a call was served from a lawful world (`start`), even if a fault of the
/// machine came after it (`begun`); that the world after its requests is the world after its calls in order (`world`);
/// and that these calls are well typed (`typed`). So the laws of `agv_desk` on lists of calls from a lawful world (its
/// module `laws::histories`) hold for the stream: the world stays lawful, each load is where they say, each act moves
/// its load once, and repeated states move nothing. It only reads the moment; proofs call it for its clauses.
pub fn streams_have_histories<S: Alter>(at: Moment)
    ensures start { (desk desk_then : Keyed S) (requests : List Request) → AreDone S.Store at desk desk_then requests
        → IsClean S.Store desk_then.held → calls_of requests at ≢ [] → IsLawful desk_seats (world_at S.Store desk.held) }
    ensures begun { (desk desk_then : Keyed S) (input : List ℕ) (requests : List Request) → AreDoneOrNext S.Store at desk desk_then input requests
        → IsClean S.Store desk_then.held → calls_of requests at ≢ [] → IsLawful desk_seats (world_at S.Store desk.held) }
    ensures world { (world : World) (requests : List Request) → world_after desk_seats world at requests ≡ steps desk_seats world (calls_of requests at) }
    ensures typed { (requests : List Request) → AreWellTyped (calls_of requests at) }
{
    serves_its_calls();
    asks_well_typed_calls(at);
}

/// Proves that however a stream ends, a store that was open is still open, unless its disk had a fault meanwhile. So
/// the desk knows the world that the stream left and goes on from there, also after an answer that was cut short or a
/// refusal for memory.
pub fn streams_leave_the_store_open<S: Alter>()
    ensures { (desk desk_then : Keyed S) → IsLaterDesk S.Store desk desk_then → IsClean S.Store desk_then.held → IsOpen S.Store desk.held
        → ¬ MoreFaults (state S.Store desk.held).faults (state S.Store desk_then.held).faults → IsOpen S.Store desk_then.held }
{}
