//! The joint invariant, for every lawful world, moment and call. Each function's clause is the law.
ghost use Rattle.std.specs.Prelude.{◌≡◌, ℕ};
ghost use Rattle.agv_world_core.specs.Lawful.{IsLawful};
ghost use Rattle.agv_world_core.specs.LawfulParts.{HasLawfulVehicles};
ghost use Rattle.agv_world_core.specs.Worlds.{World};
ghost use Rattle.agv_desk.specs.ActedMoves.{FindsLoads};
ghost use Rattle.agv_desk.specs.InOrder.{IsInOrder};
ghost use Rattle.agv_desk.specs.Outcomes.{Effect, Made, after};
ghost use Rattle.agv_desk.specs.Sizes.{IsWithinTripLimits};
ghost use Rattle.agv_desk.specs.Step.{step};
ghost use Rattle.agv_desk.specs.WellTyped.{IsMoment, IsSeats, IsWellTyped};
ghost use Rattle.agv_desk.specs.declared.call.Call.{Call};

use crate::laws::stock::{acts_find_their_loads, keeps_stock_invariant};
use crate::laws::vehicles::keeps_vehicles_lawful;
use agv_world_core::lawful_laws::loads_meet_invariant;

/// Proves that each call, refused or not, leads from a lawful world to a lawful world. So no node or edge is ever in
/// the footprints of two vehicles, and no station ever has more loads and live jobs to it than its capacity.
pub fn keeps_lawful()
    ensures { (seats : ℕ) → IsSeats seats → (world : World) (at : ℕ) (call : Call) → IsLawful seats world → IsMoment at → IsWellTyped call
        → IsLawful seats (after world (step seats world at call)) }
{
    keeps_vehicles_lawful();
    keeps_stock_invariant();
    loads_meet_invariant();
}

/// Proves that in a lawful world each pick that becomes finished finds its load at the origin of its job, and each drop
/// finds it on the vehicle; the job rides until then, so room at its target is reserved.
pub fn finds_each_load()
    ensures { (seats : ℕ) (world : World) (at : ℕ) (call : Call) (effect : Effect)
        → IsLawful seats world → step seats world at call ≡ Made effect → FindsLoads world effect }
{
    acts_find_their_loads();
    loads_meet_invariant();
}

/// Proves that a world with lawful vehicles is in order, and that the trips in it are within the
/// limits for which `decide` promises the answer of the table of calls.
pub fn serves_lawful_worlds()
    ensures order { (seats : ℕ) (world : World) → HasLawfulVehicles seats world → IsInOrder world }
    ensures served { (seats : ℕ) (world : World) (call : Call) → HasLawfulVehicles seats world → IsWithinTripLimits world call }
{}
