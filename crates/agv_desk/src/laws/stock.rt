//! What is true of the loads and the jobs after each call in a lawful world.
ghost use Rattle.std.specs.Prelude.{◌≡◌, ℕ};
ghost use Rattle.agv_world_core.specs.StockInvariant.{HasStockInvariant};
ghost use Rattle.agv_world_core.specs.LawfulParts.{HasLawfulVehicles};
ghost use Rattle.agv_world_core.specs.Worlds.{World};
ghost use Rattle.agv_desk.specs.ActedMoves.{FindsLoads};
ghost use Rattle.agv_desk.specs.Outcomes.{Effect, Made, after};
ghost use Rattle.agv_desk.specs.Step.{step};
ghost use Rattle.agv_desk.specs.WellTyped.{IsWellTyped};
ghost use Rattle.agv_desk.specs.declared.call.Call.{Call};

use agv_layout::laws::gives_itself;
use agv_order::laws::{
    drives_go_by_the_route, fitting_stops_are_paired, pairs_as_said, plans_go_by_routes,
};
use agv_track::laws::advances;

/// Proves that the rules of the loads and the jobs (`HasStockInvariant`) are kept by each call, if
/// the vehicles are lawful.
pub fn keeps_stock_invariant()
    ensures { (seats : ℕ) (world : World) (at : ℕ) (call : Call) → IsWellTyped call
        → HasLawfulVehicles seats world → HasStockInvariant world → HasStockInvariant (after world (step seats world at call)) }
{
    gives_itself();
    pairs_as_said();
    fitting_stops_are_paired();
    plans_go_by_routes();
    drives_go_by_the_route();
    advances();
}

/// Proves that each act that becomes finished finds its load, a pick at the origin of its job and a drop on the
/// vehicle, and that the job still rides.
pub fn acts_find_their_loads()
    ensures { (seats : ℕ) (world : World) (at : ℕ) (call : Call) (effect : Effect)
        → HasLawfulVehicles seats world → HasStockInvariant world → step seats world at call ≡ Made effect → FindsLoads world effect }
{
    pairs_as_said();
    advances();
}
