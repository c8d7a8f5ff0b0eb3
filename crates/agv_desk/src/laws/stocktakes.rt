//! What is true after a stocktake, for every world. Each function's clause is the law.
ghost use Rattle.std.specs.Prelude.{◌≡◌, ℕ, List};
ghost use Rattle.agv_world_core.specs.Worlds.{World};
ghost use Rattle.agv_desk.specs.Outcomes.{Effect, Made, with_effect};
ghost use Rattle.agv_desk.specs.StockTaken.{IsStockTaken, number_moved};
ghost use Rattle.agv_desk.specs.StocktakeSteps.{Row, take_stock, unknown_in};
ghost use Rattle.agv_desk.specs.declared.answer.Answer.TheVariants as answer;

/// Proves that after a stocktake that is not refused each counted station has exactly the loads that were found
/// there, are registered and have not left; that each load that was there and was not found is at the checking
/// place; that each other load is where it was; and that no load that is not registered or has left comes back.
pub fn what_was_counted_is_there()
    ensures { (world : World) (reference : List ℕ) (rows : List Row) (effect : Effect) → take_stock world reference rows ≡ Made effect → IsStockTaken world rows (with_effect world effect).places }
{}

/// Proves that the number in the answer is how many loads have another place after the stocktake than before.
pub fn counts_the_loads_that_moved()
    ensures { (world : World) (reference : List ℕ) (rows : List Row) (effect : Effect) → take_stock world reference rows ≡ Made effect
        → effect.answer ≡ answer.Counted (number_moved world.places (with_effect world effect).places) (unknown_in world rows) }
{}
