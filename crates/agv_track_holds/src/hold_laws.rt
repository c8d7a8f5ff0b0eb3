//! Laws of the definitions that the contracts of [`HoldTable`](crate::HoldTable) cite. Each function does nothing:
//! its clause is the law.
ghost use Rattle.std.specs.Prelude.{◌≡◌, ◌↔◌, IsTrue, if◌then◌else◌, List, [], Option, None, Some};
ghost use Rattle.std.specs.FinMap as map;
ghost use Rattle.std.specs.List.{Contains};
ghost use Rattle.agv_header.specs.declared.key.Thing.{Thing};
ghost use Rattle.agv_header.specs.declared.key.VehicleKey.{VehicleKey};
ghost use Rattle.agv_track_holds.specs.Holders.{Footprints, HoldsFootprints, gained, with_footprint};
ghost use Rattle.agv_track_holds.specs.Holds.{Holds, IsFirstHeld, IsOpenTo, claimed, first_held, is_in, shed_from, sheds};

/// Proves that `is_in` tests membership in the list.
pub fn tests_membership()
    ensures { (thing : Thing) (things : List Thing) → IsTrue (is_in thing things) ↔ Contains things thing }
{}

/// Proves that a claim is refused for the first thing of its list that another vehicle holds: each thing before it
/// is held by the vehicle or by none.
pub fn refuses_for_the_first()
    ensures { (table : Holds) (key : VehicleKey) (things : List Thing) (what : Thing) (by : VehicleKey)
        → (first_held table key things ≡ Some (what, by)) ↔ IsFirstHeld table key things what by }
{}

/// Proves that a claim is not refused exactly if each thing of its list is held by the vehicle or by none.
pub fn refuses_nothing_open()
    ensures { (table : Holds) (key : VehicleKey) (things : List Thing)
        → (first_held table key things ≡ None) ↔ IsOpenTo table key things }
{}

/// Proves that after a claim the vehicle holds each thing of the list, and all else is held as before.
pub fn gives_each()
    ensures { (table : Holds) (key : VehicleKey) (things : List Thing) (thing : Thing)
        → map.get (claimed table key things) thing ≡ (if is_in thing things then Some key else map.get table thing) }
{}

/// Proves that a claim depends only on which things are in the list, and not on how often or where.
pub fn gives_once()
    ensures { (table : Holds) (key : VehicleKey) (things others : List Thing)
        → ((thing : Thing) → is_in thing things ≡ is_in thing others) → claimed table key things ≡ claimed table key others }
{}

/// Proves that after a vehicle has shed, no vehicle holds what it gave up, and all else is held as before.
pub fn frees_each()
    ensures { (table : Holds) (key : VehicleKey) (old new : List Thing) (thing : Thing)
        → map.get (shed_from table key old new) thing ≡ (if sheds key old new thing (map.get table thing) then None else map.get table thing) }
{}

/// Proves that a vehicle gives up exactly what it holds that is in the old list and not in the new one.
pub fn frees_its_own()
    ensures { (key : VehicleKey) (old new : List Thing) (thing : Thing) (by : Option VehicleKey)
        → IsTrue (sheds key old new thing by) ↔ ((by ≡ Some key) × Contains old thing × (¬ (Contains new thing))) }
{}

/// Proves that the empty table agrees with vehicles that need nothing.
pub fn is_empty_at_first()
    ensures { HoldsFootprints map.empty (λ key. []) }
{}

/// Proves that no thing is in the footprints of two vehicles if a table agrees with the footprints.
pub fn is_held_by_one()
    ensures { (table : Holds) (footprint_of : Footprints) → HoldsFootprints table footprint_of
        → (thing : Thing) (one other : VehicleKey) → Contains (footprint_of one) thing → Contains (footprint_of other) thing → one ≡ other }
{}

/// Proves that at most one table agrees with given footprints.
pub fn is_one_table()
    ensures { (footprint_of : Footprints) (table other : Holds) → HoldsFootprints table footprint_of → HoldsFootprints other footprint_of → table ≡ other }
{}

/// Proves that the table agrees with the footprints again after a vehicle has claimed its next footprint, of which no
/// other vehicle holds anything, and then shed what only its last footprint has.
pub fn follows_a_vehicle()
    ensures { (table : Holds) (footprint_of : Footprints) (key : VehicleKey) (next : List Thing)
        → HoldsFootprints table footprint_of → first_held table key next ≡ None
        → HoldsFootprints (shed_from (claimed table key next) key (footprint_of key) next) (with_footprint footprint_of key next) }
{}

/// Proves that, if the table agrees with the footprints, claiming the whole next footprint is the same as claiming
/// only what the last one doesn't have: the claim is refused for the same thing, or gives the same table.
pub fn needs_what_it_gains()
    ensures { (table : Holds) (footprint_of : Footprints) (key : VehicleKey) (next : List Thing) → HoldsFootprints table footprint_of
        → (first_held table key (gained (footprint_of key) next) ≡ first_held table key next)
        × (claimed table key (gained (footprint_of key) next) ≡ claimed table key next) }
{}
