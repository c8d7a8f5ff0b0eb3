//! The counts of vehicles, loads, jobs, orders and references, for every world, moment and call. Each function's
//! clause is the law.
ghost use Rattle.std.specs.Prelude.{◌≡◌, ◌≢◌, ◌+◌, ◌<◌, ℕ};
ghost use Rattle.agv_world_core.specs.Counts.{limit_of};
ghost use Rattle.agv_world_core.specs.LawfulParts.{HasLawfulLoads};
ghost use Rattle.agv_world_core.specs.Questions.{count_of};
ghost use Rattle.agv_world_core.specs.Worlds.{World};
ghost use Rattle.agv_world_core.specs.declared.floor.Counted.{Counted};
ghost use Rattle.agv_desk.specs.Counts.{added};
ghost use Rattle.agv_desk.specs.Outcomes.{after, answer_of};
ghost use Rattle.agv_desk.specs.Step.{step};
ghost use Rattle.agv_desk.specs.declared.call.Call.{Call};

/// Proves that a call adds to the counts what its answer says, one to one of them or nothing, if the loads and the
/// jobs are lawful: then the loads that a state moves are known. So no count ever decreases.
pub fn counts_follow()
    ensures { (seats : ℕ) (world : World) (at : ℕ) (call : Call) (what : Counted) → HasLawfulLoads world
        → count_of (after world (step seats world at call)) what ≡ count_of world what + added call (answer_of (step seats world at call)) what }
{}

/// Proves that a call adds to a count only if the count is below its limit.
pub fn adds_below_the_limit()
    ensures { (seats : ℕ) (world : World) (at : ℕ) (call : Call) (what : Counted)
        → added call (answer_of (step seats world at call)) what ≢ 0 → count_of world what < limit_of what }
{}
