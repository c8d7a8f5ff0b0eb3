//! Laws about the lists of SQL rows that encode a world, and about a database that has them. Each function does
//! nothing: its clauses are the law.
ghost use Rattle.std.specs.Prelude.{◌≡◌, ◌++◌, [], List};
ghost use Rattle.sqlite_value.specs.Order.{Row};
ghost use Rattle.sqlite.specs.Effect.{Database};
ghost use Rattle.agv_world_core.specs.Changes.{change, changed};
ghost use Rattle.agv_world_core.specs.Lawful.{IsLawful};
ghost use Rattle.agv_world_core.specs.Maps.{Maps, maps_of};
ghost use Rattle.agv_world_core.specs.Worlds.{World};
ghost use Rattle.agv_world_core.specs.declared.change.Change.{Change};
ghost use Rattle.agv_store_schema.specs.SchemaNumbers.{desk_seats};
ghost use Rattle.agv_store_schema.specs.DeskRows.{Placing, Holds, IsDesk};
ghost use Rattle.agv_store_rows.specs.Rows.{ActsAreOfJobs, AreAlike, HoldsWorld, TellRows, listed, listed_all, row_lists};
ghost use Rattle.agv_store_schema.specs.declared.table_name.TableName.TheVariants as the;

use crate::trip_row_laws::{rows_follow_changes, rows_have_keys};
use crate::trips_told_laws::{lawful_rows_tell_trips, rows_tell_one_table};
use agv_world_core::lawful_laws::has_consistent_trips;
use agv_world_core::laws::maps_tell_the_world;

/// Proves that lists with the rows of some maps have, after a change to the lists, the rows of the maps after that
/// change; the same holds for several changes, which are made in turn.
pub fn lists_follow_changes()
    ensures one { (one : Change) (lists : List (List Row)) (maps : Maps) → TellRows lists maps → TellRows (listed one lists) (change maps one) }
    ensures all { (changes : List Change) (lists : List (List Row)) (maps : Maps) → TellRows lists maps → TellRows (listed_all changes lists) (changed changes maps) }
    ensures in_turn { (first later : List Change) (lists : List (List Row)) → listed_all (first ++ later) lists ≡ listed_all later (listed_all first lists) }
{
    rows_have_keys();
    rows_follow_changes();
}

/// Proves that lists have the rows of the maps of only one world, if each act has the load and the station of its job.
pub fn lists_tell_one_world()
    ensures { (lists : List (List Row)) (maps others : Maps) → ActsAreOfJobs maps → ActsAreOfJobs others
        → TellRows lists maps → TellRows lists others → maps ≡ others }
{
    rows_tell_one_table();
}

/// Proves that in a lawful world each act of an open trip has the load and the station of its job, which is known.
pub fn lawful_acts_are_of_jobs()
    ensures { (world : World) → IsLawful desk_seats world → ActsAreOfJobs (maps_of world) }
{
    lawful_rows_tell_trips();
}

/// Proves that a database that has the rows of some lists also has those of lists with the same rows in another order,
/// and of no others: however the desk's tables are found in it, each has one list of rows, apart from their order.
pub fn a_database_has_one_list_for_each_table()
    ensures alike { (desk : Placing) (db : Database) (lists others : List (List Row)) → AreAlike lists others → Holds desk db lists → Holds desk db others }
    ensures one { (desk again : Placing) (db : Database) (lists others : List (List Row)) → IsDesk desk → IsDesk again
        → Holds desk db lists → Holds again db others → AreAlike lists others }
{}

/// Proves that, if the changes are made to whatever lists a database has, a database that had the rows of a world has
/// those of the world after the changes.
pub fn a_database_follows_changes()
    ensures { (desk : Placing) (old new : Database) (changes : List Change)
        → ((lists : List (List Row)) → Holds desk old lists → Holds desk new (listed_all changes lists))
        → (maps : Maps) → Holds desk old (row_lists maps) → Holds desk new (row_lists (changed changes maps)) }
{
    lists_follow_changes();
}

/// Proves that a database has the rows of at most one lawful world.
pub fn a_database_tells_one_world()
    ensures { (desk again : Placing) (db : Database) (world other : World) → IsDesk desk → IsDesk again → IsLawful desk_seats world → IsLawful desk_seats other
        → HoldsWorld desk db world → HoldsWorld again db other → world ≡ other }
{
    lists_tell_one_world();
    lawful_acts_are_of_jobs();
    has_consistent_trips();
    maps_tell_the_world();
}
