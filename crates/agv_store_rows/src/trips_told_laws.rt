//! Laws about the trips that rows encode. Each function does nothing: its clauses are the law.
ghost use Rattle.std.specs.Prelude.{◌≡◌, ℕ, List, Some};
ghost use Rattle.std.specs.FinMap as finite;
ghost use Rattle.std.specs.List.{AllByRecursion};
ghost use Rattle.std.specs.Option.{option_map};
ghost use Rattle.agv_header.specs.Name.{IsName, name_cmp};
ghost use Rattle.agv_world_core.specs.Lawful.{IsLawful};
ghost use Rattle.agv_world_core.specs.Maps.{maps_of};
ghost use Rattle.agv_world_core.specs.Worlds.{World};
ghost use Rattle.agv_world_core.specs.declared.row.JobRow.{JobRow as RowOfJob};
ghost use Rattle.agv_world_core.specs.declared.row.TripRow.{TripRow};
ghost use Rattle.agv_store_rows.specs.ActKeys.{act_cmp};
ghost use Rattle.agv_store_rows.specs.RowValues.{IsActKey, IsActValue, IsJourneyValue};
ghost use Rattle.agv_store_rows.specs.TripRows.{act_rows, acts_of, journey_of, journeys_of};
ghost use Rattle.agv_store_rows.specs.TripsTold.{AreTripsOf, IsOfJob, acts_told, trip_told};
ghost use Rattle.agv_store_rows.specs.declared.act_key.ActKey.{ActKey};
ghost use Rattle.agv_store_rows.specs.declared.act_row.ActRow.{ActRow as RowOfAct};
ghost use Rattle.agv_store_rows.specs.declared.journey_row.JourneyRow.{JourneyRow as RowOfJourney};

use agv_layout::laws::joins_nodes;

/// Proves that each act of a lawful world's open trips has the load and the station of a job of the world. So each trip
/// is decoded again from its journey, its acts and the jobs.
pub fn lawful_rows_tell_trips()
    ensures all { (seats : ℕ) (world : World) → IsLawful seats world
        → AreTripsOf (journeys_of (maps_of world).trips) (acts_of (maps_of world).trips) (maps_of world).jobs (maps_of world).trips }
    ensures each { (seats : ℕ) (world : World) → IsLawful seats world → (order : List ℕ) (trip : TripRow) → finite.get (maps_of world).trips order ≡ Some trip
        → option_map (trip_told (journey_of trip)) (acts_told (maps_of world).jobs 0 (act_rows order trip)) ≡ Some trip }
{}

/// Proves that the rows of acts decode to these acts, if each is of a known job, and that journeys, acts and jobs
/// encode at most one table of trips.
pub fn rows_tell_one_table()
    ensures acts { (jobs : finite.FinMap name_cmp RowOfJob) (order : List ℕ) (trip : TripRow) → AllByRecursion (IsOfJob jobs) trip.acts
        → acts_told jobs 0 (act_rows order trip) ≡ Some trip.acts }
    ensures one { (journeys : finite.FinMap name_cmp RowOfJourney) (acts : finite.FinMap act_cmp RowOfAct) (jobs : finite.FinMap name_cmp RowOfJob) (trips others : finite.FinMap name_cmp TripRow)
        → AreTripsOf journeys acts jobs trips → AreTripsOf journeys acts jobs others → trips ≡ others }
{}

/// Proves that in the rows of a lawful world's open trips the ids are valid names, the number of an act is below 8, and
/// no position and no update number is above 200.
pub fn lawful_rows_have_values()
    ensures journeys { (seats : ℕ) (world : World) → IsLawful seats world → (order : List ℕ) (row : RowOfJourney)
        → finite.get (journeys_of (maps_of world).trips) order ≡ Some row → IsName order × IsJourneyValue row }
    ensures acts { (seats : ℕ) (world : World) → IsLawful seats world → (key : ActKey) (row : RowOfAct)
        → finite.get (acts_of (maps_of world).trips) key ≡ Some row → IsActKey key × IsActValue row }
{
    joins_nodes();
}
