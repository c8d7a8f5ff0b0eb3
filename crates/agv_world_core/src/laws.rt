//! What is true of the maps of every world. Each function does nothing: its clause is the law.
ghost use Rattle.std.specs.Prelude.{◌≡◌, ◌↔◌, Some};
ghost use Rattle.std.specs.FinMap as map;
ghost use Rattle.agv_header.specs.declared.key.Thing.{Thing};
ghost use Rattle.agv_header.specs.declared.key.VehicleKey.{VehicleKey};
ghost use Rattle.agv_world_core.specs.ConsistentTrips.{HasConsistentTrips, IsHolder, SharesNothing};
ghost use Rattle.agv_world_core.specs.Kept.{Keeps};
ghost use Rattle.agv_world_core.specs.Maps.{maps_of};
ghost use Rattle.agv_world_core.specs.Told.{world_of};
ghost use Rattle.agv_world_core.specs.Worlds.{World};
ghost use Rattle.agv_world_core.specs.declared.world.World.{World as Tables};

/// Proves that the map of holds has exactly the vehicles' footprints, if no node or edge is in the
/// footprints of two vehicles.
pub fn holds_are_footprints()
    ensures { (world : World) → SharesNothing world → (thing : Thing) (key : VehicleKey)
        → (map.get (maps_of world).holds thing ≡ Some key) ↔ IsHolder world key thing }
{}

/// Proves that two worlds with consistent trips and the same maps are equal.
#[tactic(auto, using(crate::proofs::world_rows::Unique::one_world))]
pub fn maps_tell_the_world()
    ensures { (world other : World) → HasConsistentTrips world → HasConsistentTrips other → maps_of world ≡ maps_of other → world ≡ other }
{}

/// Proves that the tables of a world with consistent trips determine that world.
#[tactic(auto, using(crate::proofs::told_worlds::WorldTold::told_world))]
pub fn tables_tell_the_world()
    ensures { (tables : Tables) (world : World) → Keeps tables world → HasConsistentTrips world → world_of tables ≡ world }
{}
