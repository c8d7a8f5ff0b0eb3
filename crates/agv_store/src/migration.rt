//! Migrating a database of the first schema to the second, and adopting its desk.
ghost use Rattle.std.specs.Prelude.{◌≡◌, ◌⊎◌, false, IfOk, OnErr};
ghost use Rattle.sqlite.specs.Held.{state};
ghost use Rattle.sqlite.specs.State.{Survives};
ghost use Rattle.agv_store_migrate.specs.Moved.{CanBeAdded};
ghost use Rattle.agv_store_schema.specs.Connections.{HasStorageCause, IsClean, IsOpen};
ghost use Rattle.agv_store.specs.Migration.{CannotBeMigrated, FindsFirstDesk, LeavesMigrated, Migrates, RefusesMigration};
ghost use Rattle.agv_store.specs.Opening.{IsDamaged, IsStorage, left_by};

use crate::desk::Desk;
use crate::opening::of_making;
use agv_store_floor::KeyedFloor;
use agv_store_known::Known;
use agv_store_migrate::table_moving::move_tables;
use agv_store_migrate::world_finding::find_first_world;
use agv_store_read::OpenFault;
use agv_store_read_tables::world_laws::a_database_tells_its_world;
use agv_world_core::World;
use sqlite::{Alter, Connection};
use std::alloc::Global;

impl<S: Alter + Drop> Desk<S> {
    /// Migrates a database of the first schema, which has no capacities, to the second, and adopts the desk. All is
    /// done in one transaction: the tables `capacity`, `journey` and `act` are made and filled, `trip` is emptied, and
    /// `meta` gets the number of the second schema. The world stays the same, and each vehicle has the capacity 1.
    ///
    /// A crash leaves the database as it was, or the second schema's rows of the same world ([`laws`](crate::laws)).
    ///
    /// # Errors
    /// `Damaged` only if the database has the first schema's rows of no lawful world (a table is missing or differs,
    /// say), or a table, a view or an index has one of the three names or a foreign key refers to one. Otherwise
    /// `Memory` when out of memory, and `Storage` for any other error of the database: the store failed, was closed, or
    /// limits the steps of a query (`caused`), or SQL refuses a statement of the move, after those before it ran, as
    /// where the schema has no room for the three tables. The connection is returned; if it is open, its contents are
    /// unchanged.
    pub fn migrate(
        alloc: Global,
        conn: Connection<S>,
    ) -> Result<Desk<S>, (Connection<S>, OpenFault)>
        requires { conn.in_transaction ≡ false }
        ensures migrated { IfOk result (λ desk. IsClean S.Store desk.held → Migrates S.Store conn desk) }
        ensures works { IfOk result (λ desk. desk.failed ≡ false) }
        ensures damaged { IsClean S.Store (left_by result) → IsDamaged result → CannotBeMigrated (state S.Store conn).now }
        ensures caused { IsClean S.Store (left_by result) → IsStorage result → HasStorageCause S.Store conn (left_by result) ⊎ RefusesMigration (state S.Store conn).now }
        ensures possible { IfOk result (λ desk. IsClean S.Store desk.held → CanBeAdded (state S.Store conn).now.schema) }
        ensures undone { IsClean S.Store (left_by result) → IsOpen S.Store (left_by result)
            → OnErr result (IsOpen S.Store conn × ((state S.Store (left_by result)).now ≡ (state S.Store conn).now)) }
        ensures idle { (left_by result).in_transaction ≡ false }
        ensures crash { Survives (state S.Store conn) (state S.Store (left_by result)) (LeavesMigrated (state S.Store conn).now) }
    {
        a_database_tells_its_world();
        let mut conn = conn;
        let _settled = conn.is_autocommit();
        let (tables, known) = match find_first_desk(alloc, &mut conn) {
            Ok(found) => found,
            Err(why) => return Err((conn, why)),
        };
        match move_tables(&mut conn, &tables) {
            Ok(()) => Ok(Desk {
                floor: KeyedFloor::new(alloc, conn, known),
            }),
            Err(why) => Err((conn, of_making(why))),
        }
    }
}

/// Reads the tables of the world whose rows a database of the first schema has, and returns them with what is known of
/// it.
fn find_first_desk<S: Alter>(
    alloc: Global,
    conn: &mut Connection<S>,
) -> Result<(World, Known), OpenFault>
    requires { conn.old.in_transaction ≡ false }
    ensures { FindsFirstDesk S.Store conn.old conn.new result }
{
    let tables = find_first_world(alloc, conn)?;
    let known = Known::of(alloc, &tables)?;
    Ok((tables, known))
}
