//! The law about what the tables that were read say of the database. The function does nothing: its clauses are the
//! law.
ghost use Rattle.std.specs.Prelude.{◌≡◌, List};
ghost use Rattle.sqlite_value.specs.Order.{Row};
ghost use Rattle.sqlite.specs.Effect.{Database};
ghost use Rattle.agv_track_holds.specs.Holds.{Holds as Holders};
ghost use Rattle.agv_world_core.specs.Kept.{Keeps};
ghost use Rattle.agv_world_core.specs.Maps.{maps_of};
ghost use Rattle.agv_world_core.specs.Worlds.{World};
ghost use Rattle.agv_world_core.specs.declared.world.World.{World as Tables};
ghost use Rattle.agv_store_schema.specs.DeskRows.{Placing, Holds};
ghost use Rattle.agv_store_rows.specs.Rows.{HoldsWorld, TellRows};
ghost use Rattle.agv_store_read.specs.TablesRead.{HaveAll};

/// Proves that, if the tables that were read are those of a world, and the holds are those of its vehicles, the
/// database has the rows of that world.
pub fn tables_read_tell_the_world()
    ensures rows { (desk : Placing) (db : Database) (lists : List (List Row)) (tables : Tables) (holds : Holders) (world : World)
        → Holds desk db lists → HaveAll lists tables holds → Keeps tables world → holds ≡ (maps_of world).holds → TellRows lists (maps_of world) }
    ensures world { (desk : Placing) (db : Database) (lists : List (List Row)) (tables : Tables) (holds : Holders) (world : World)
        → Holds desk db lists → HaveAll lists tables holds → Keeps tables world → holds ≡ (maps_of world).holds → HoldsWorld desk db world }
{}
