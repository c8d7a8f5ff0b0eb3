//! What becomes of a world and its maps when one thing is written. Each function does nothing: its
//! clause is the law.
ghost use Rattle.std.specs.Prelude.{◌≡◌, ◌≢◌, ℕ, List, [], ◌∷◌, ◌++◌, None, Some};
ghost use Rattle.std.specs.FinMap as finite;
ghost use Rattle.std.specs.List.{Contains};
ghost use Rattle.agv_header.specs.declared.key.Thing.{Thing};
ghost use Rattle.agv_header.specs.declared.key.VehicleKey.{VehicleKey};
ghost use Rattle.agv_layout.specs.Layout.{Layout};
ghost use Rattle.agv_order.specs.declared.trip.Trip.{Trip};
ghost use Rattle.agv_stock.specs.declared.place.Place.{Place};
ghost use Rattle.agv_track_holds.specs.Footprints.{footprint_of};
ghost use Rattle.agv_track_holds.specs.Holds.{first_held};
ghost use Rattle.agv_world_core.specs.Changes.{changed};
ghost use Rattle.agv_world_core.specs.ConsistentTrips.{HasOneTripAnOrder, HasTrip, SharesNothing};
ghost use Rattle.agv_world_core.specs.Maps.{Maps, maps_of, standing_of};
ghost use Rattle.agv_world_core.specs.TableChanges.{job_changes, layout_changes, load_changes, written, with_use};
ghost use Rattle.agv_world_core.specs.VehicleChanges.{KeepsOrderAndEdges, StandsAsBefore, own_changes, trip_before, vehicle_changes, with_vehicle};
ghost use Rattle.agv_world_core.specs.Worlds.{Vehicle, World, empty_layout};
ghost use Rattle.agv_world_core.specs.declared.change.Change.{Change};
ghost use Rattle.agv_world_core.specs.declared.change.Change.TheVariants as row;
ghost use Rattle.agv_world_core.specs.declared.key.UseKey.{UseKey};
ghost use Rattle.agv_world_core.specs.declared.row.JobRow.{JobRow};

use agv_layout::laws::lists_its_nodes;

/// Proves that a list of changes is carried out one change after the other.
pub fn changes_in_turn()
    ensures { (first later : List Change) (maps : Maps) → changed (first ++ later) maps ≡ changed later (changed first maps) }
{}

/// Proves that footprints stay apart when a vehicle is written whose footprint no other vehicle
/// holds any part of.
pub fn keeps_apart_by_claim()
    ensures { (world : World) (key : VehicleKey) (vehicle : Vehicle) → SharesNothing world
        → first_held (maps_of world).holds key (footprint_of (standing_of vehicle)) ≡ None
        → SharesNothing (with_vehicle world key vehicle) }
{}

/// Proves that footprints stay apart when a vehicle is written whose footprint is part of its old one.
pub fn keeps_apart_by_less()
    ensures { (world : World) (key : VehicleKey) (old new : Vehicle) → finite.get world.vehicles key ≡ Some old
        → ((thing : Thing) → Contains (footprint_of (standing_of new)) thing → Contains (footprint_of (standing_of old)) thing)
        → SharesNothing world → SharesNothing (with_vehicle world key new) }
{}

/// Proves that footprints stay apart when a vehicle is written that stands as before.
pub fn keeps_apart_as_before()
    ensures { (world : World) (key : VehicleKey) (old new : Vehicle) → finite.get world.vehicles key ≡ Some old → StandsAsBefore old new
        → SharesNothing world → SharesNothing (with_vehicle world key new) }
{}

/// Proves that each order still has at most one trip after a vehicle is written that stands as before.
pub fn keeps_one_trip_as_before()
    ensures { (world : World) (key : VehicleKey) (old new : Vehicle) → finite.get world.vehicles key ≡ Some old → StandsAsBefore old new
        → HasOneTripAnOrder world → HasOneTripAnOrder (with_vehicle world key new) }
{}

/// Proves that each order still has at most one trip after a vehicle without a trip is written.
pub fn keeps_one_trip_without()
    ensures { (world : World) (key : VehicleKey) (vehicle : Vehicle) → HasOneTripAnOrder world → vehicle.trip ≡ None
        → HasOneTripAnOrder (with_vehicle world key vehicle) }
{}

/// Proves that each order still has at most one trip after a vehicle is written with a trip of the
/// same order as before.
pub fn keeps_one_trip_further()
    ensures { (world : World) (key : VehicleKey) (vehicle : Vehicle) → HasOneTripAnOrder world
        → (before trip : Trip) → HasTrip world key before → vehicle.trip ≡ Some trip → trip.order ≡ before.order
        → HasOneTripAnOrder (with_vehicle world key vehicle) }
{}

/// Proves that each order still has at most one trip after a vehicle is written with a trip of an order
/// that had none.
pub fn keeps_one_trip_new()
    ensures { (world : World) (key : VehicleKey) (vehicle : Vehicle) → HasOneTripAnOrder world
        → (trip : Trip) → vehicle.trip ≡ Some trip
        → ((other : VehicleKey) (more : Trip) → HasTrip world other more → trip.order ≢ more.order)
        → HasOneTripAnOrder (with_vehicle world key vehicle) }
{}

/// Proves that the changes for writing a vehicle, in place of the one that was there if any, lead from the
/// maps of the world to those of the world with that vehicle: if before and after no order has two trips
/// and no footprints meet, and a trip that goes on keeps its order and its edges.
pub fn follows_a_vehicle()
    ensures { (world : World) (key : VehicleKey) (vehicle : Vehicle)
        → HasOneTripAnOrder world → SharesNothing world
        → HasOneTripAnOrder (with_vehicle world key vehicle) → SharesNothing (with_vehicle world key vehicle)
        → KeepsOrderAndEdges (trip_before (finite.get world.vehicles key)) vehicle.trip
        → changed (vehicle_changes key (finite.get world.vehicles key) vehicle) (maps_of world) ≡ maps_of (with_vehicle world key vehicle) }
{}

/// Proves that at most a vehicle's own row changes when it is written standing as before, with the trip
/// that it had: if no order has two trips and no footprints meet.
pub fn notes_a_vehicle()
    ensures { (world : World) (key : VehicleKey) (old new : Vehicle) → finite.get world.vehicles key ≡ Some old → StandsAsBefore old new
        → HasOneTripAnOrder world → SharesNothing world
        → changed (own_changes key (Some old.row) new.row) (maps_of world) ≡ maps_of (with_vehicle world key new) }
{}

/// Proves that a change of each load's row leads to the maps of the world in which the loads have
/// moved, one after the other.
pub fn moves_loads()
    ensures { (world : World) (moves : List (List ℕ × Place))
        → changed (load_changes moves) (maps_of world) ≡ maps_of (record world { places = written world.places moves }) }
{}

/// Proves that a change of each job's row leads to the maps of the world with the jobs written, one
/// after the other.
pub fn writes_jobs()
    ensures { (world : World) (jobs : List (List ℕ × JobRow))
        → changed (job_changes jobs) (maps_of world) ≡ maps_of (record world { jobs = written world.jobs jobs }) }
{}

/// Proves that one row leads to the maps of the world in which a name was used.
pub fn uses_a_name()
    ensures { (world : World) (key : UseKey) → changed (row.Used key ∷ []) (maps_of world) ≡ maps_of (with_use world key.kind key.name) }
{}

/// Proves that a row for each node, edge and station leads to the maps of the world with that
/// layout, if none was set before.
pub fn sets_the_layout()
    ensures { (world : World) (layout : Layout) → world.layout ≡ empty_layout
        → changed (layout_changes layout) (maps_of world) ≡ maps_of (record world { layout = layout }) }
{
    lists_its_nodes();
}
