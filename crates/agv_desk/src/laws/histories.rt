//! What is true of lists of calls, for every lawful world and every list. Each function's clause is the law.
ghost use Rattle.std.specs.Prelude.{◌≡◌, ◌≤◌, ◌⊎◌, ℕ, List, [], ◌∷◌, ◌++◌};
ghost use Rattle.std.specs.FinMap as finite;
ghost use Rattle.agv_header.specs.declared.key.VehicleKey.{VehicleKey};
ghost use Rattle.agv_message_core.specs.declared.order.ActKind.{ActKind};
ghost use Rattle.agv_message_core.specs.declared.state.StateMessage.{StateMessage as Message};
ghost use Rattle.agv_desk.specs.ActedMoves.{DropsLoads, FindsLoads, HasEffectAfter, IsFoundIn};
ghost use Rattle.agv_desk.specs.Histories.{CancelsSince, HasNoResync, IsRepeated, last_place, later_of, times};
ghost use Rattle.agv_desk.specs.Outcomes.{Acted, Effect, Move, after, moved, moves_of};
ghost use Rattle.agv_desk.specs.Step.{moves, step, steps};
ghost use Rattle.agv_desk.specs.WellTyped.{AreWellTyped, IsSeats};
ghost use Rattle.agv_desk.specs.declared.call.Call.{Call as CallOf};
ghost use Rattle.agv_desk.specs.declared.call.Call.TheVariants as call;
ghost use Rattle.agv_world_core.specs.Lawful.{IsLawful};
ghost use Rattle.agv_world_core.specs.Maps.{maps_of};
ghost use Rattle.agv_world_core.specs.Worlds.{World};

use crate::Call;
use crate::laws::lawful::{finds_each_load, keeps_lawful};
use agv_header::Moment;
use agv_order::laws::pairs_as_said;
use agv_track::laws::advances;
use agv_world_core::laws::holds_are_footprints;

/// Proves that each call of a list is made at a moment before 2100 and is well typed, which follows from the types
/// of its parts. A proof calls it for its clause, a premise of the laws below.
pub fn types_each_call(calls: &[(Moment, Call)])
    ensures { AreWellTyped calls.now }
{
    for made in calls {
        let _ms = made.0.ms();
        made.1.typing_law();
    }
}

/// Proves that after a list of calls each load is where the last of their moves of it has put it, or where it was before
/// if no call moves it.
pub fn stands_where_it_was_put_last()
    ensures all { (seats : ℕ) (world : World) (calls : List (ℕ × CallOf))
        → (steps seats world calls).places ≡ moved world.places (moves seats world calls) }
    ensures each { (seats : ℕ) (world : World) (calls : List (ℕ × CallOf)) (load : List ℕ)
        → finite.get (steps seats world calls).places load ≡ later_of (last_place (moves seats world calls) load) (finite.get world.places load) }
{}

/// Proves that each list of calls leads from a lawful world to a lawful world.
pub fn stays_lawful()
    ensures { (seats : ℕ) → IsSeats seats → (world : World) (calls : List (ℕ × CallOf)) → IsLawful seats world → AreWellTyped calls
        → IsLawful seats (steps seats world calls) }
{
    keeps_lawful();
    advances();
    pairs_as_said();
}

/// Proves that in a list of calls from a lawful world each pick that becomes finished finds its load at the origin of
/// its job, and each drop finds it on the vehicle, where the moves before it have left the loads. The job of a drop is
/// then live, is for the load, and goes to the station where the load is put.
pub fn finds_each_load_in_turn()
    ensures calls { (seats : ℕ) → IsSeats seats → (world : World) (calls earlier : List (ℕ × CallOf)) (effect : Effect) → IsLawful seats world → AreWellTyped calls
        → HasEffectAfter seats world calls earlier effect → FindsLoads (steps seats world earlier) effect }
    ensures drops { (seats : ℕ) → IsSeats seats → (world : World) (calls earlier : List (ℕ × CallOf)) (effect : Effect) → IsLawful seats world → AreWellTyped calls
        → HasEffectAfter seats world calls earlier effect → DropsLoads (steps seats world earlier) effect }
    ensures moves { (seats : ℕ) → IsSeats seats → (world : World) (calls : List (ℕ × CallOf)) (before after : List Move) (move : Move) (kind : ActKind) (order job : List ℕ)
        → IsLawful seats world → AreWellTyped calls → moves seats world calls ≡ before ++ (move ∷ after) → move.cause ≡ Acted kind order job
        → IsFoundIn seats world calls before move kind order job }
{
    finds_each_load();
    stays_lawful();
}

/// Proves that in a list of calls from a lawful world each order picks the load of a job at most once, and drops it
/// at most once.
pub fn carries_out_once()
    ensures { (seats : ℕ) → IsSeats seats → (world : World) (calls : List (ℕ × CallOf)) (kind : ActKind) (order job : List ℕ) → IsLawful seats world → AreWellTyped calls
        → times kind order job (moves seats world calls) ≤ 1 }
{
    keeps_lawful();
    advances();
    pairs_as_said();
}

/// Proves that a state message that is repeated after a list of calls from a lawful world moves no load, whatever came
/// between. It changes no hold either, unless it reports as finished a cancelOrder that the desk has made only since
/// then. If the vehicle was not resynced since then, the message changes nothing at all.
pub fn repeats_quietly()
    ensures moves { (seats : ℕ) → IsSeats seats → (world : World) (calls : List (ℕ × CallOf)) (at : ℕ) (key : VehicleKey) (state : Message)
        → IsLawful seats world → AreWellTyped calls → IsRepeated seats world calls key state
        → moves_of (step seats (steps seats world calls) at (call.State key state)) ≡ [] }
    ensures holds { (seats : ℕ) → IsSeats seats → (world : World) (calls : List (ℕ × CallOf)) (at : ℕ) (key : VehicleKey) (state : Message)
        → IsLawful seats world → AreWellTyped calls → (repeated : IsRepeated seats world calls key state)
        → ((maps_of (after (steps seats world calls) (step seats (steps seats world calls) at (call.State key state)))).holds ≡ (maps_of (steps seats world calls)).holds)
        ⊎ CancelsSince (steps seats world repeated.earlier) (steps seats world calls) key state }
    ensures without_resync { (seats : ℕ) → IsSeats seats → (world : World) (calls : List (ℕ × CallOf)) (at : ℕ) (key : VehicleKey) (state : Message)
        → IsLawful seats world → AreWellTyped calls → (repeated : IsRepeated seats world calls key state) → HasNoResync key repeated.since
        → after (steps seats world calls) (step seats (steps seats world calls) at (call.State key state)) ≡ steps seats world calls }
{
    keeps_lawful();
    advances();
    pairs_as_said();
    holds_are_footprints();
}
