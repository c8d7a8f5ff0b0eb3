//! What is true of each call, in every world. Each function's clause is the law.
ghost use Rattle.std.specs.Prelude.{◌≡◌, ℕ, true, false, List, [], ◌++◌, None};
ghost use Rattle.std.specs.FinMap as finite;
ghost use Rattle.std.specs.List.{list_all};
ghost use Rattle.agv_header.specs.declared.key.VehicleKey.{VehicleKey};
ghost use Rattle.agv_header.specs.declared.refusal.Refusal.{Refusal as RefusalOf};
ghost use Rattle.agv_message_core.specs.declared.state.StateMessage.{StateMessage as Message};
ghost use Rattle.agv_world_core.specs.Changes.{changed};
ghost use Rattle.agv_world_core.specs.Maps.{maps_of};
ghost use Rattle.agv_world_core.specs.Worlds.{World};
ghost use Rattle.agv_desk.specs.Causes.{is_refusal, moves_for};
ghost use Rattle.agv_desk.specs.InOrder.{IsInOrder};
ghost use Rattle.agv_desk.specs.Moves.{moves_in, moves_made};
ghost use Rattle.agv_desk.specs.Outcomes.{Effect, Move, Refused, after, answer_of, changes_of, decided, moves_of};
ghost use Rattle.agv_desk.specs.Refusals.{IsOfCall};
ghost use Rattle.agv_desk.specs.Reports.{report_asked, served};
ghost use Rattle.agv_desk.specs.StateSteps.{take_state};
ghost use Rattle.agv_desk.specs.Step.{step, steps, answers, moves};
ghost use Rattle.agv_desk.specs.Unchanged.{ChangesNothing, ChangesOnly, IsOld, only_tells};
ghost use Rattle.agv_desk.specs.declared.answer.Answer.TheVariants as answer;
ghost use Rattle.agv_desk.specs.declared.call.Call.{Call};
ghost use Rattle.agv_desk.specs.declared.call.Call.TheVariants as call;

use agv_layout::laws::gives_itself;
use agv_track::laws::advances;
use agv_track_holds::laws::lists_what_is_held;
use agv_world_core::change_laws::{
    follows_a_vehicle, keeps_apart_by_claim, keeps_apart_by_less, keeps_one_trip_further,
    keeps_one_trip_new, keeps_one_trip_without, notes_a_vehicle, sets_the_layout, uses_a_name,
};

/// Proves that the rows that a call changes lead from the maps of a world in order to those of the
/// world after the call.
pub fn leads_to_the_maps()
    ensures { (seats : ℕ) (world : World) (at : ℕ) (call : Call) → IsInOrder world
        → changed (decided (step seats world at call)).changes (maps_of world) ≡ maps_of (after world (step seats world at call)) }
{
    gives_itself();
    advances();
    lists_what_is_held();
    follows_a_vehicle();
    notes_a_vehicle();
    keeps_apart_by_claim();
    keeps_apart_by_less();
    keeps_one_trip_further();
    keeps_one_trip_new();
    keeps_one_trip_without();
    sets_the_layout();
    uses_a_name();
}

/// Proves that the loads' rows among the changes of an effect are its moves, in their order.
#[tactic(auto, using(crate::proofs::row_changes::MovesTold::moves_told))]
pub fn moves_are_told()
    ensures { (effect : Effect) → moves_in (changes_of effect) ≡ moves_made effect }
{}

/// Proves that a refusal changes nothing.
#[tactic(auto, unfolding(crate::specs::Outcomes::after))]
pub fn refuses_without_change()
    ensures world { (world : World) (why : RefusalOf) → after world (Refused why) ≡ world }
    ensures rows { (why : RefusalOf) → (decided (Refused why)).changes ≡ [] }
{}

/// Proves that a call whose answer is a refusal changes nothing.
pub fn leaves_all_where_it_refuses()
    ensures { (seats : ℕ) (world : World) (at : ℕ) (call : Call) → is_refusal (answer_of (step seats world at call)) ≡ true
        → ChangesNothing world (step seats world at call) }
{}

/// Proves that a call is refused only with a refusal of calls, never with one of a request that is
/// not a call or of the machine.
pub fn refuses_as_calls_are_refused()
    ensures { (seats : ℕ) (world : World) (at : ℕ) (call : Call) (why : RefusalOf) → answer_of (step seats world at call) ≡ answer.Refused why → IsOfCall why }
{}

/// Proves that the answer to a call that asks for no report is served as the table of calls has it.
pub fn serves_what_was_decided()
    ensures { (seats : ℕ) (world : World) (at : ℕ) (call : Call) → report_asked call ≡ None
        → served world (answer_of (step seats world at call)) ≡ answer_of (step seats world at call) }
{}

/// Proves that loads move only for these causes: a registration registers a load, a correction, a leave or a stocktake
/// records where a load is, and a state finishes acts; no other call moves a load.
pub fn moves_for_its_cause()
    ensures { (seats : ℕ) (world : World) (at : ℕ) (call : Call)
        → list_all (λ (move : Move). moves_for call move.cause) (moves_of (step seats world at call)) ≡ true }
{}

/// Proves that a call that only reads changes nothing.
pub fn tells_without_change()
    ensures { (seats : ℕ) (world : World) (at : ℕ) (call : Call) → only_tells call ≡ true → ChangesNothing world (step seats world at call) }
{}

/// Proves that a call that starts a drive changes at most the row and the trip of its vehicle, and that the order's name
/// is used: the layout, the other vehicles, the places of all loads, all jobs, and the references are as before.
pub fn drives_one_vehicle()
    ensures { (seats : ℕ) (world : World) (at : ℕ) (order : List ℕ) (key : VehicleKey) (to : List ℕ) (edges : ℕ)
        → ChangesOnly key order world (after world (step seats world at (call.StartDrive order key to edges))) }
{}

/// Proves that a state that is not newer than the last accepted one of its vehicle changes nothing,
/// and is answered `Accepted(false)`.
pub fn leaves_all_for_an_old_state()
    ensures { (seats : ℕ) (world : World) (at : ℕ) (key : VehicleKey) (state : Message) → IsOld world key state
        → (answer_of (step seats world at (call.State key state)) ≡ answer.Accepted false) × ChangesNothing world (step seats world at (call.State key state)) }
{}

/// Proves that calls are served one after the other: the later ones are served in the world that the earlier
/// ones have left.
pub fn serves_in_turn()
    ensures world { (seats : ℕ) (world : World) (calls others : List (ℕ × Call))
        → steps seats world (calls ++ others) ≡ steps seats (steps seats world calls) others }
    ensures answers { (seats : ℕ) (world : World) (calls others : List (ℕ × Call))
        → answers seats world (calls ++ others) ≡ (answers seats world calls ++ answers seats (steps seats world calls) others) }
    ensures moves { (seats : ℕ) (world : World) (calls others : List (ℕ × Call))
        → moves seats world (calls ++ others) ≡ (moves seats world calls ++ moves seats (steps seats world calls) others) }
{}

/// Proves that the outcome of a state depends only on its own vehicle's row and trip and on the jobs: not on the
/// places of loads, on rooms, on holders or on other vehicles.
pub fn states_look_at_their_vehicle_and_jobs()
    ensures { (world other : World) (key : VehicleKey) (state : Message) → finite.get world.vehicles key ≡ finite.get other.vehicles key → world.jobs ≡ other.jobs
        → take_state world key state ≡ take_state other key state }
{}
