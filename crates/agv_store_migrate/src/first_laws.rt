//! The law about the rows of the first schema. The function does nothing: its clause is the law.
ghost use Rattle.std.specs.Prelude.{List};
ghost use Rattle.sqlite_value.specs.Order.{Row};
ghost use Rattle.agv_world_core.specs.Lawful.{IsLawful};
ghost use Rattle.agv_world_core.specs.Maps.{maps_of};
ghost use Rattle.agv_world_core.specs.Worlds.{World};
ghost use Rattle.agv_store_migrate.specs.FirstRows.{ServesJobs, first_lists};
ghost use Rattle.agv_store_migrate.specs.FirstTold.{TellFirst};
ghost use Rattle.agv_store_rows.specs.DecodedTrips.{tables_of};
ghost use Rattle.agv_store_rows.specs.Rows.{AreAlike};

use agv_order::laws::stops_twice;
use agv_store_rows::trip_row_laws::tables_have_rows;
use agv_store_rows::trips_told_laws::lawful_rows_have_values;
use agv_world_core::lawful_laws::has_consistent_trips;

/// Proves that the rows of a lawful world with capacity 1 for each vehicle and a job for each open trip, in any order,
/// encode its tables and the holds of its vehicles.
pub fn first_rows_tell_their_world()
    ensures { (world : World) (lists : List (List Row)) → IsLawful 1 world → ServesJobs world → AreAlike (first_lists (maps_of world)) lists → TellFirst lists (tables_of (maps_of world)) (maps_of world).holds }
{
    stops_twice();
    tables_have_rows();
    lawful_rows_have_values();
    has_consistent_trips();
}
