//! Laws for callers that serve a stream in parts: prefixes of an input and what follows them, and what is written at
//! each end of a stream (`specs/StreamEnds.antt`). Each function does nothing, except that one reads a moment: its
//! clause is the law.
ghost use Rattle.std.specs.Prelude.{◌≡◌, ◌⊎◌, ◌++◌, ℕ, Bool, List, Err, true};
ghost use Rattle.agv_desk.specs.Outcomes.{after};
ghost use Rattle.agv_desk.specs.Step.{steps};
ghost use Rattle.agv_desk.specs.WellTyped.{AreWellTyped};
ghost use Rattle.agv_header.specs.declared.refusal.Refusal.{Refusal};
ghost use Rattle.agv_world_core.specs.Worlds.{World};
ghost use Rattle.agv_face_http.specs.request.Cut.{Cut, Ending, at_end};
ghost use Rattle.agv_face_http.specs.request.Fronts.{GoesOn};
ghost use Rattle.agv_face_http.specs.request.Heard.{IsHeard};
ghost use Rattle.agv_face_http.specs.Output.{IsOutput, answers_to, call_of_request, calls_of, outcome_for, world_after};
ghost use Rattle.agv_face_http.specs.request.Requests.{Request};
ghost use Rattle.agv_face_http.specs.answers.Sizes.{only_asks};
ghost use Rattle.agv_face_http.specs.StreamEnds.{EndsInMachineFault, IsFrontOf, IsReadFault, IsRefusedByMachine, IsServedToEnd, IsWriteFault};
ghost use Rattle.agv_face_http.specs.declared.request.heard.Heard.{Heard as HeardOf};

use crate::laws::output::writes_one_output;
use agv_desk::laws::calls::tells_without_change;
use agv_header::Moment;

/// Proves that an input is cut into the requests of a prefix and those of what follows it.
pub fn joins_cuts()
    ensures { (front rest : List ℕ) (requests more : List Request) (ending : Ending)
        → Cut front requests at_end → Cut rest more ending → Cut (front ++ rest) (requests ++ more) ending }
{}

/// Proves that where a prefix of an input is whole requests, the input's cut is these requests and then the cut of what
/// follows.
pub fn parts_cuts()
    ensures { (front rest : List ℕ) (requests all : List Request) (ending : Ending)
        → Cut front requests at_end → Cut (front ++ rest) all ending
        → (more : List Request) × (all ≡ requests ++ more) × Cut rest more ending }
{}

/// Proves that what is heard in a buffer says how the input goes on after a prefix that has been served: it needs more
/// bytes, ends, has a fault, or has one more request.
pub fn hears_how_it_goes_on()
    ensures { (front buf : List ℕ) (ended : Bool) (requests : List Request) (told : HeardOf)
        → Cut front requests at_end → IsHeard buf ended told → GoesOn front buf ended requests told }
{}

/// Proves that requests are answered in order, each in the world that the earlier ones left.
pub fn answers_in_turn()
    ensures answers { (seats : ℕ) (world : World) (at : ℕ) (requests more : List Request)
        → answers_to seats world at (requests ++ more) ≡ answers_to seats world at requests ++ answers_to seats (world_after seats world at requests) at more }
    ensures world { (seats : ℕ) (world : World) (at : ℕ) (requests more : List Request)
        → world_after seats world at (requests ++ more) ≡ world_after seats (world_after seats world at requests) at more }
    ensures calls { (requests more : List Request) (at : ℕ) → calls_of (requests ++ more) at ≡ calls_of requests at ++ calls_of more at }
{}

/// Proves that a request that is refused before it is a call leaves the world as it was.
pub fn refuses_without_change()
    ensures { (seats : ℕ) (world : World) (at : ℕ) (request : Request) (why : Refusal)
        → call_of_request request ≡ Err why → after world (outcome_for seats world at request) ≡ world }
{}

/// Proves that a request that only reads leaves the world as it was.
pub fn asks_without_change()
    ensures { (seats : ℕ) (world : World) (at : ℕ) (request : Request)
        → only_asks (call_of_request request) ≡ true → after world (outcome_for seats world at request) ≡ world }
{
    tells_without_change();
}

/// Proves that the world after some requests is the world after those of them that are calls. So the laws of `agv_desk`
/// on lists of calls hold for a stream.
pub fn serves_its_calls()
    ensures { (seats : ℕ) (world : World) (at : ℕ) (requests : List Request)
        → world_after seats world at requests ≡ steps seats world (calls_of requests at) }
{}

/// Proves that the calls that requests make at a moment are well typed, whatever the requests are. So the laws of
/// `agv_desk` on lists of well-typed calls hold for each stream.
pub fn asks_well_typed_calls(at: Moment)
    ensures { (requests : List Request) → AreWellTyped (calls_of requests at) }
{
    let _ms = at.ms();
}

/// Proves that at whatever end of a stream, what is written is the output of the whole input; or a prefix of it; or a
/// prefix of it followed by a prefix of the refusal of a fault of the machine, which is written whole where the writer
/// hasn't failed.
pub fn writes_a_front()
    ensures to_end { (seats : ℕ) (world : World) (at : ℕ) (input whole : List ℕ) (beyond : World) → IsOutput seats world at input whole beyond
        → (ending : Ending) (out : List ℕ) (left : World) (answers : ℕ)
        → IsServedToEnd seats world at input ending out left answers → (out ≡ whole) × (left ≡ beyond) }
    ensures machine { (seats : ℕ) (world : World) (at : ℕ) (input whole : List ℕ) (beyond : World) → IsOutput seats world at input whole beyond
        → (why : Refusal) (out : List ℕ) (left : World) (answers : ℕ)
        → IsRefusedByMachine seats world at input why out left answers → EndsInMachineFault out whole }
    ensures read_fault { (seats : ℕ) (world : World) (at : ℕ) (bytes more whole : List ℕ) (beyond : World) → IsOutput seats world at (bytes ++ more) whole beyond
        → (out : List ℕ) (left : World) (answers : ℕ)
        → IsReadFault seats world at bytes out left answers → IsFrontOf out whole }
    ensures write_fault { (seats : ℕ) (world : World) (at : ℕ) (input whole : List ℕ) (beyond : World) → IsOutput seats world at input whole beyond
        → (out : List ℕ) (left : World) (answers : ℕ)
        → IsWriteFault seats world at input out left answers → IsFrontOf out whole ⊎ EndsInMachineFault out whole }
{
    writes_one_output();
}
