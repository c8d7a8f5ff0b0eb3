//! Laws about the world of a database as a function of what it has. The functions do nothing: their clauses are the
//! laws.
ghost use Rattle.std.specs.Prelude.{◌≡◌};
ghost use Rattle.sqlite.specs.Effect.{Database};
ghost use Rattle.agv_world_core.specs.Worlds.{World};
ghost use Rattle.agv_store_schema.specs.DeskRows.{Placing};
ghost use Rattle.agv_store_read.specs.WorldAnswers.{HasWorld};
ghost use Rattle.agv_store_read_tables.specs.WorldIn.{world_in};

use agv_store_rows::trip_laws::rows_tell_trips;
use agv_world_core::lawful_laws::has_consistent_trips;
use agv_world_core::laws::tables_tell_the_world;

/// Proves that a database whose desk tables have the rows of a lawful world encodes that world.
pub fn a_database_tells_its_world()
    ensures { (desk : Placing) (db : Database) (world : World) → HasWorld desk db world → world_in db ≡ world }
{
    rows_tell_trips();
    has_consistent_trips();
    tables_tell_the_world();
}
