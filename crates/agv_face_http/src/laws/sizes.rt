//! The lengths of answers, so that a caller that reserves memory can tell that it is enough.
ghost use Rattle.std.specs.Prelude.{◌≡◌, ◌≤◌, ◌<◌, ◌+◌, ◌^◌, ℕ, Bool, true, false, List, All, Option, Ok, length};
ghost use Rattle.agv_count.specs.ExportRecords.{IsPlaceNamed};
ghost use Rattle.agv_desk.specs.declared.answer.OpenOrder.{OpenOrder};
ghost use Rattle.agv_header.specs.declared.key.VehicleKey.{VehicleKey};
ghost use Rattle.agv_stock.specs.declared.place.Place.{Place};
ghost use Rattle.agv_world_core.specs.declared.floor.Carrier.{Carrier};
ghost use Rattle.agv_world_core.specs.declared.row.JobRow.{JobRow};
ghost use Rattle.agv_world_core.specs.declared.row.VehicleRow.{VehicleRow};
ghost use Rattle.agv_desk.specs.declared.answer.Answer.{Answer as AnswerOf};
ghost use Rattle.agv_desk.specs.declared.answer.Answer.TheVariants as answer;
ghost use Rattle.agv_desk.specs.declared.call.Call.{Call};
ghost use Rattle.agv_desk.specs.Outcomes.{answer_of};
ghost use Rattle.agv_desk.specs.Reports.{served};
ghost use Rattle.agv_desk.specs.Step.{step};
ghost use Rattle.agv_desk.specs.Unchanged.{only_tells};
ghost use Rattle.agv_header.specs.Name.{IsName};
ghost use Rattle.agv_world_core.specs.Worlds.{World};
ghost use Rattle.agv_face_http.specs.answers.Answers.{answer_text};
ghost use Rattle.agv_face_http.specs.bodies.BodyCalls.{call_of_body};
ghost use Rattle.agv_face_http.specs.declared.routing.route.Route.{Route};
ghost use Rattle.agv_face_http.specs.Output.{call_of_request, outcome_for};
ghost use Rattle.agv_face_http.specs.request.Requests.{IsRequest, Request, most_body};
ghost use Rattle.agv_face_http.specs.answers.Sizes.{IsBrief, IsJobNamed, IsNameIfAny, IsOrderShort, IsCarrierNamed, IsVehicleShort, is_outcome, most_answer, names_size, only_asks, outcome_bytes};

use crate::answers::outcome::{is_of_its_types, refusal_is_short};
use agv_desk::Answer;
use agv_header::Refusal;

/// Proves that an answer that says only what was done, or why not, has at most 1,024 bytes.
pub fn answers_briefly()
    ensures { (a : AnswerOf) (close : Bool) → IsBrief a → length (answer_text a close) ≤ 1024 }
{}

/// Proves that the answer to a refused request has at most 1,024 bytes. It reads a name or a number of the refusal
/// without a loop; proofs call it for its clause.
pub fn refusals_fit(why: &Refusal)
    ensures { (close : Bool) → length (answer_text (answer.Refused why.now) close) ≤ 1024 }
{
    answers_briefly();
    refusal_is_short(why);
}

/// Proves that the answer to a stocktake has at most 1,024 bytes, plus the bytes of each unknown name and three more.
pub fn counts_briefly()
    ensures { (moved : ℕ) (unknown : List (List ℕ)) (close : Bool)
        → moved < 2 ^ 64 → names_size unknown < 2 ^ 32 → All IsName unknown
        → length (answer_text (answer.Counted moved unknown) close) ≤ 1024 + names_size unknown }
{}

/// Proves that the description of a load has at most 1,024 bytes.
pub fn tells_loads_briefly()
    ensures { (load : List ℕ) (place : Place) (job : Option (List ℕ)) (close : Bool)
        → IsName load → IsPlaceNamed place → IsNameIfAny job
        → length (answer_text (answer.Load load place job) close) ≤ 1024 }
{}

/// Proves that the description of a job has at most 1,024 bytes.
pub fn tells_jobs_briefly()
    ensures { (job : List ℕ) (row : JobRow) (carrier : Option Carrier) (close : Bool)
        → IsName job → IsJobNamed row → IsCarrierNamed carrier
        → length (answer_text (answer.Job job row carrier) close) ≤ 1024 }
{}

/// Proves that the description of a vehicle has at most 1,024 bytes.
pub fn tells_vehicles_briefly()
    ensures { (key : VehicleKey) (row : VehicleRow) (order : Option OpenOrder) (close : Bool)
        → IsVehicleShort key row → IsOrderShort order
        → length (answer_text (answer.Vehicle key row order) close) ≤ 1024 }
{}

/// Proves that a call that doesn't only read is answered by what was done, or why not, in every world and at every
/// moment.
pub fn tells_outcomes()
    ensures { (seats : ℕ) (world : World) (at : ℕ) (made : Call)
        → only_tells made ≡ false → is_outcome (answer_of (step seats world at made)) ≡ true }
{}

/// Proves that the bound of the answer to such a call (`outcome_bytes`) is at most 131,072, where a body of at most
/// 65,536 bytes makes the call: a stocktake names no more unknown loads than are in its file.
pub fn outcome_bytes_fit()
    ensures { (seats : ℕ) (world : World) (at : ℕ) (route : Route) (body : List ℕ) (made : Call)
        → call_of_body route body ≡ Ok made → length body ≤ most_body → only_tells made ≡ false
        → outcome_bytes (answer_of (step seats world at made)) ≤ most_answer }
{}

/// Proves that the answer to such a call has at most 131,072 bytes, with its head, whether or not the stream ends after
/// it. It reads a name or a number of the answer without a loop; proofs call it for its clause.
pub fn outcomes_fit(answer: &Answer)
    ensures { (seats : ℕ) (world : World) (at : ℕ) (route : Route) (body : List ℕ) (made : Call) (close : Bool)
        → call_of_body route body ≡ Ok made → length body ≤ most_body → only_tells made ≡ false
        → answer.now ≡ served world (answer_of (step seats world at made))
        → length (answer_text answer.now close) ≤ most_answer }
{
    is_of_its_types(answer);
}

/// Proves that the body of a request has at most 65,536 bytes.
pub fn bodies_fit()
    ensures { (bytes : List ℕ) (request : Request) → IsRequest bytes request → length request.body ≤ most_body }
{}

/// Proves that the answer to a request that doesn't only read has at most 131,072 bytes, whether its call is served or
/// the request is refused before it is a call. It reads a name or a number of the answer without a loop; proofs call it
/// for its clause.
pub fn answers_fit(answer: &Answer)
    ensures { (seats : ℕ) (world : World) (at : ℕ) (bytes : List ℕ) (request : Request) (close : Bool)
        → IsRequest bytes request → only_asks (call_of_request request) ≡ false
        → answer.now ≡ served world (answer_of (outcome_for seats world at request))
        → length (answer_text answer.now close) ≤ most_answer }
{
    is_of_its_types(answer);
}
