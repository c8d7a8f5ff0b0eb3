//! What the tests of tables say of the world that the tables determine. Each function does nothing: its
//! clause is the law.
ghost use Rattle.std.specs.Prelude.{◌≡◌, ◌↔◌, ◌⊎◌, ℕ, IsTrue};
ghost use Rattle.agv_layout.specs.Layout.{KeepsRules};
ghost use Rattle.agv_world_core.specs.ConsistentTrips.{SharesNothing};
ghost use Rattle.agv_world_core.specs.Kept.{Keeps};
ghost use Rattle.agv_world_core.specs.LawfulParts.{HasLawfulVehicles};
ghost use Rattle.agv_world_lawful.specs.LawfulTests.{are_apart, are_lawful_vehicles, are_legs, are_trips, is_laid};
ghost use Rattle.agv_world_core.specs.Told.{layout_of_tables, world_of};
ghost use Rattle.agv_world_lawful.specs.Values.{HasValues};
ghost use Rattle.agv_world_core.specs.Worlds.{World, empty_layout};
ghost use Rattle.agv_world_core.specs.declared.world.World.{World as Tables};

use agv_layout::laws::{gives_itself, needs_a_node};
use agv_order::laws::tests_well_formed;

/// Proves that the tables of the layout pass their tests if and only if the layout is not set, or follows the
/// rules of a layout.
pub fn tests_the_layout()
    ensures { (tables : Tables) → HasValues tables
        → IsTrue (is_laid tables) ↔ ((layout_of_tables tables ≡ empty_layout) ⊎ KeepsRules (layout_of_tables tables)) }
{}

/// Proves that the vehicles can claim their footprints one after the other if and only if no node or edge is
/// in two of them.
pub fn tests_footprints()
    ensures { (tables : Tables) → IsTrue (are_apart tables) ↔ SharesNothing (world_of tables) }
{}

/// Proves that tables whose trips and edge rows pass their tests are those of the world that they determine.
pub fn tests_trips()
    ensures { (tables : Tables) → IsTrue (are_trips tables) → IsTrue (are_legs tables) → Keeps tables (world_of tables) }
{}

/// Proves that tables which pass the tests of the layout, the vehicles and their trips are those of the world that they
/// determine, which has lawful vehicles; and that the tables of any world with lawful vehicles pass.
pub fn tests_vehicles()
    ensures passed { (seats : ℕ) (tables : Tables) → HasValues tables → IsTrue (are_lawful_vehicles seats tables)
        → Keeps tables (world_of tables) × HasLawfulVehicles seats (world_of tables) }
    ensures again { (seats : ℕ) (tables : Tables) (world : World) → Keeps tables world → HasLawfulVehicles seats world
        → (world_of tables ≡ world) × IsTrue (are_lawful_vehicles seats tables) }
{
    gives_itself();
    needs_a_node();
    tests_well_formed();
}
