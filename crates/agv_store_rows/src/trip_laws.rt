//! Laws about the open trips and the vehicles that the rows of a lawful world encode. The functions do nothing: their
//! clauses are the laws.
ghost use Rattle.std.specs.Prelude.{◌≡◌, ◌↔◌, ℕ, List, Some, filter, true};
ghost use Rattle.std.specs.FinMap as finite;
ghost use Rattle.std.specs.Option.{option_and_then};
ghost use Rattle.agv_header.specs.Name.{IsName};
ghost use Rattle.agv_header.specs.declared.key.VehicleKey.{VehicleKey};
ghost use Rattle.agv_order.specs.declared.act.Act.{Act};
ghost use Rattle.agv_order.specs.declared.trip.Trip.{Trip};
ghost use Rattle.agv_store_rows.specs.TripRows.{acts_of, is_of, journeys_of};
ghost use Rattle.agv_store_rows.specs.TripsTold.{acts_told};
ghost use Rattle.agv_store_rows.specs.declared.act_key.ActKey.{ActKey};
ghost use Rattle.agv_store_rows.specs.declared.act_row.ActRow.{ActRow};
ghost use Rattle.agv_store_rows.specs.declared.journey_row.JourneyRow.{JourneyRow};
ghost use Rattle.agv_world_core.specs.Lawful.{IsLawful};
ghost use Rattle.agv_world_core.specs.Questions.{row_of, trip_of};
ghost use Rattle.agv_world_core.specs.Maps.{maps_of};
ghost use Rattle.agv_world_core.specs.Told.{edges_of};
ghost use Rattle.agv_world_core.specs.Worlds.{World};
ghost use Rattle.agv_store_schema.specs.SchemaNumbers.{desk_seats};
ghost use Rattle.agv_store_rows.specs.DecodedTrips.{HasTripRows, is_driven_by, journey_for, tables_of, told_by_journey, trips_with};
ghost use Rattle.agv_store_rows.specs.TypedRows.{IsActRow, IsActRowKey, IsJourneyRow};

use crate::trip_row_laws::{rows_are_of_trips, rows_have_keys, tables_have_rows};
use crate::trips_told_laws::{
    lawful_rows_have_values, lawful_rows_tell_trips, rows_tell_one_table,
};
use agv_world_core::lawful_laws::has_consistent_trips;
use agv_world_core::laws::tables_tell_the_world;

/// Proves that in a lawful world the open trip of a vehicle is decoded from the journey of that vehicle, the acts of
/// its order, the rows of their jobs and the rows of its edges. A vehicle has at most one journey. The acts of every
/// order can be decoded, and all journeys and acts together decode to all trips. Numbers are in range, and ids are
/// valid names.
pub fn rows_tell_trips()
    ensures trip { (world : World) → IsLawful desk_seats world → (key : VehicleKey)
        → trip_of world key ≡ option_and_then (told_by_journey (maps_of world)) (journey_for (maps_of world) key) }
    ensures one { (world : World) → IsLawful desk_seats world → (key : VehicleKey) (a b : List ℕ × JourneyRow)
        → finite.get (journeys_of (maps_of world).trips) a.0 ≡ Some a.1 → finite.get (journeys_of (maps_of world).trips) b.0 ≡ Some b.1
        → is_driven_by key a ≡ true → is_driven_by key b ≡ true → a.0 ≡ b.0 }
    ensures acts { (world : World) → IsLawful desk_seats world → (order : List ℕ)
        → (acts : List Act) × (acts_told (maps_of world).jobs 0 (filter (is_of order) (finite.entries (acts_of (maps_of world).trips))) ≡ Some acts) }
    ensures all { (world : World) → IsLawful desk_seats world
        → trips_with (journeys_of (maps_of world).trips) (acts_of (maps_of world).trips) (maps_of world).jobs ≡ (maps_of world).trips }
    ensures journeys { (world : World) → IsLawful desk_seats world → (order : List ℕ) (journey : JourneyRow)
        → finite.get (journeys_of (maps_of world).trips) order ≡ Some journey → IsName order × IsJourneyRow journey }
    ensures act_values { (world : World) → IsLawful desk_seats world → (key : ActKey) (act : ActRow)
        → finite.get (acts_of (maps_of world).trips) key ≡ Some act → IsActRowKey key × IsActRow act }
    ensures ways { (world : World) → IsLawful desk_seats world → (key : VehicleKey) (trip : Trip)
        → trip_of world key ≡ Some trip → trip.edges ≡ edges_of (tables_of (maps_of world)) trip.order }
{
    rows_have_keys();
    tables_have_rows();
    rows_are_of_trips();
    lawful_rows_tell_trips();
    rows_tell_one_table();
    lawful_rows_have_values();
    has_consistent_trips();
    tables_tell_the_world();
}

/// Proves that in a lawful world the open trip of a vehicle is the one that names the vehicle and whose rows the world
/// has.
pub fn rows_have_trips()
    ensures { (world : World) → IsLawful desk_seats world → (key : VehicleKey) (trip : Trip)
        → (trip_of world key ≡ Some trip) ↔ ((trip.vehicle ≡ key) × HasTripRows (maps_of world) trip) }
{
    has_consistent_trips();
    rows_tell_trips();
}

/// Proves that the row of a vehicle is the row at its key.
pub fn rows_have_vehicles()
    ensures { (world : World) (key : VehicleKey) → finite.get (maps_of world).vehicles key ≡ row_of world key }
{}
