//! The law that a new desk's tables encode the empty world.
ghost use Rattle.std.specs.Prelude.{◌≡◌};
ghost use Rattle.sqlite.specs.Effect.{Database};
ghost use Rattle.agv_world_core.specs.Worlds.{empty_world};
ghost use Rattle.agv_store_create.specs.DeskTables.{first_rows};
ghost use Rattle.agv_store_read_tables.specs.NewWorld.{KnowsNothing};
ghost use Rattle.agv_store_create.specs.NewDesk.{StandsNew};
ghost use Rattle.agv_store_rows.specs.Rows.{rows_of};

use agv_store_rows::trip_row_laws::rows_have_keys;
use agv_world_core::lawful_laws::begins_lawful;

/// Proves that a desk with its first rows has the rows of the empty world, which is lawful. So it can be queried and
/// changed from the start.
pub fn new_desks_know_nothing()
    ensures rows { rows_of empty_world ≡ first_rows }
    ensures world { (db : Database) → StandsNew db → KnowsNothing db }
{
    begins_lawful();
    rows_have_keys();
}
