//! What is true of the vehicles after each call in a lawful world.
ghost use Rattle.std.specs.Prelude.{ℕ};
ghost use Rattle.agv_world_core.specs.LawfulParts.{HasLawfulVehicles};
ghost use Rattle.agv_world_core.specs.Worlds.{World};
ghost use Rattle.agv_desk.specs.Outcomes.{after};
ghost use Rattle.agv_desk.specs.Step.{step};
ghost use Rattle.agv_desk.specs.WellTyped.{IsMoment, IsSeats, IsWellTyped};
ghost use Rattle.agv_desk.specs.declared.call.Call.{Call};

use agv_layout::laws::{gives_itself, rules_law};
use agv_order::laws::{
    drives_are_well_formed, drives_go_by_the_route, fitting_stops_are_paired,
    plans_are_well_formed, plans_go_by_routes, releases_keep_trips_well_formed, stops_twice,
};
use agv_track::laws::{advances, stays_well_formed};
use agv_track_holds::laws::lists_what_is_held;
use agv_world_core::change_laws::{
    follows_a_vehicle, keeps_apart_as_before, keeps_apart_by_claim, keeps_apart_by_less,
    keeps_one_trip_as_before, keeps_one_trip_further, keeps_one_trip_new, keeps_one_trip_without,
    notes_a_vehicle, sets_the_layout, uses_a_name,
};

/// Proves that the layout, the vehicles and their trips stay lawful after each call.
pub fn keeps_vehicles_lawful()
    ensures { (seats : ℕ) (world : World) (at : ℕ) (call : Call) → IsSeats seats → IsMoment at → IsWellTyped call
        → HasLawfulVehicles seats world → HasLawfulVehicles seats (after world (step seats world at call)) }
{
    gives_itself();
    rules_law();
    plans_are_well_formed();
    plans_go_by_routes();
    releases_keep_trips_well_formed();
    stops_twice();
    fitting_stops_are_paired();
    drives_are_well_formed();
    drives_go_by_the_route();
    advances();
    lists_what_is_held();
    stays_well_formed();
    follows_a_vehicle();
    notes_a_vehicle();
    keeps_apart_as_before();
    keeps_apart_by_claim();
    keeps_apart_by_less();
    keeps_one_trip_as_before();
    keeps_one_trip_further();
    keeps_one_trip_new();
    keeps_one_trip_without();
    sets_the_layout();
    uses_a_name();
}
