//! Laws about a list of changes: its effect on a world, on the other tables, and on what is found when the database is
//! opened after a crash. Each function does nothing: its clauses are the law.
ghost use Rattle.std.specs.Prelude.{◌≡◌, ◌⊎◌, List};
ghost use Rattle.sqlite_value.specs.Order.{Row};
ghost use Rattle.sqlite.specs.Effect.{Database, IsDatabase};
ghost use Rattle.agv_world_core.specs.Changes.{changed};
ghost use Rattle.agv_world_core.specs.Maps.{Maps};
ghost use Rattle.agv_world_core.specs.declared.change.Change.{Change};
ghost use Rattle.agv_store_changes.specs.ChangesMade.{ChangesWorlds, MakesChanges, MayFind};
ghost use Rattle.agv_store_schema.specs.DeskRows.{Placing, Holds, IsDesk, KeepsOthers};
ghost use Rattle.agv_store_rows.specs.Rows.{listed_all, row_lists};

use agv_store_rows::row_list_laws::lists_follow_changes;

/// Proves that a list of changes, made in tables that had the rows of a world, leaves the rows of the world after all
/// of them.
pub fn changes_make_the_next_world()
    ensures { (changes : List Change) (old new : Database) → MakesChanges changes old new → ChangesWorlds changes old new }
{
    lists_follow_changes();
}

/// Proves that the other tables are unchanged if nothing is done (`itself`), and after two steps that each leave them
/// unchanged (`next`): so after any number of lists of changes.
pub fn other_tables_stay()
    ensures itself { (desk : Placing) (db : Database) → KeepsOthers desk db db }
    ensures next { (desk : Placing) (old mid new : Database) → KeepsOthers desk old mid → KeepsOthers desk mid new → KeepsOthers desk old new }
{}

/// Proves that opening the database after a crash during a list of changes finds the rows from before it or those after
/// all of it, and the other tables unchanged (`either`). That the trees before the changes list their schema
/// (`IsDatabase`) is a fact that a caller has of the connection: the clause `live` of sqlite's `Connection::schema`.
pub fn openings_find_rows_before_or_after()
    ensures either { (changes : List Change) (desk : Placing) (old found : Database) → IsDesk desk → old.schema ≡ desk.schema → IsDatabase old
        → MayFind changes old found → (found ≡ old) ⊎ MakesChanges changes old found }
    ensures rows { (changes : List Change) (desk : Placing) (old found : Database) (lists : List (List Row)) → IsDesk desk → Holds desk old lists → IsDatabase old
        → MayFind changes old found → Holds desk found lists ⊎ Holds desk found (listed_all changes lists) }
    ensures worlds { (changes : List Change) (desk : Placing) (old found : Database) (maps : Maps) → IsDesk desk → Holds desk old (row_lists maps) → IsDatabase old
        → MayFind changes old found → Holds desk found (row_lists maps) ⊎ Holds desk found (row_lists (changed changes maps)) }
{
    changes_make_the_next_world();
}
