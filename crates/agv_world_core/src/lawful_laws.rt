//! What follows if a world is lawful. Each function does nothing: its clause is the law.
ghost use Rattle.std.specs.Prelude.{◌↔◌, ℕ};
ghost use Rattle.agv_world_core.specs.StockInvariant.{HasStockInvariant};
ghost use Rattle.agv_world_core.specs.ConsistentTrips.{HasConsistentTrips};
ghost use Rattle.agv_world_core.specs.Lawful.{IsLawful};
ghost use Rattle.agv_world_core.specs.LawfulParts.{HasLawfulLoads, HasLawfulVehicles};
ghost use Rattle.agv_world_core.specs.Worlds.{World, empty_world};

use agv_order::laws::{pairs_as_said, stops_twice};

/// Proves that a world is lawful if and only if its vehicles are lawful by themselves, with their
/// footprints apart, and its loads and jobs are lawful too: the two parts in which the tests of tables
/// and the proofs take it.
pub fn has_two_parts()
    ensures { (seats : ℕ) (world : World) → IsLawful seats world ↔ (HasLawfulVehicles seats world × HasLawfulLoads world) }
{}

/// Proves that, if the vehicles are lawful, `HasLawfulLoads` and `HasStockInvariant` say the same of the
/// world: the second is the form in which the proofs of the rules take the first.
pub fn loads_meet_invariant()
    ensures { (seats : ℕ) (world : World) → HasLawfulVehicles seats world → HasLawfulLoads world ↔ HasStockInvariant world }
{
    pairs_as_said();
    stops_twice();
}

/// Proves that a lawful world has consistent trips, so that its maps and its tables determine it.
pub fn has_consistent_trips()
    ensures { (seats : ℕ) (world : World) → IsLawful seats world → HasConsistentTrips world }
{}

/// Proves that the world of a desk that knows nothing yet is lawful, whatever capacity a vehicle may have.
pub fn begins_lawful()
    ensures { (seats : ℕ) → IsLawful seats empty_world }
{}
