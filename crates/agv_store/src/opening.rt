//! Making a desk in a database, and adopting one from a database that has its tables. `is_autocommit` is called for its
//! clause alone: outside a transaction everything is committed.
ghost use Rattle.std.specs.Prelude.{◌≡◌, ◌⊎◌, ◌↔◌, false, IfOk, IsTrue, OnErr};
ghost use Rattle.sqlite.specs.Held.{state};
ghost use Rattle.sqlite.specs.State.{Survives};
ghost use Rattle.agv_world_core.specs.Kept.{Keeps};
ghost use Rattle.agv_world_core.specs.Lawful.{IsLawful};
ghost use Rattle.agv_world_core.specs.Maps.{maps_of};
ghost use Rattle.agv_world_core.specs.Worlds.{World as WorldOf};
ghost use Rattle.agv_store_read.specs.WorldAnswers.{HasNoWorld};
ghost use Rattle.agv_store_create.specs.DeskSchema.{IsEmpty};
ghost use Rattle.agv_store_create.specs.DeskTables.{LeavesDesk};
ghost use Rattle.agv_store_schema.specs.SchemaNumbers.{desk_seats};
ghost use Rattle.agv_store_schema.specs.Connections.{HasStorageCause, IsClean, IsOpen};
ghost use Rattle.agv_store.specs.Opening.{Adopts, CanBeMade, Finds, IsDamaged, IsStorage, Makes, left_by, of_making};

use crate::desk::Desk;
use agv_header::Memory;
use agv_store_create::MakingFault;
use agv_store_create::desk_tables::{NAMES, is_any_used, make_desk_tables};
use agv_store_create::making_laws::made_desks_stand;
use agv_store_create::standing_tables::tables_stand;
use agv_store_create::tables_beside::allows_desk;
use agv_store_floor::KeyedFloor;
use agv_store_known::{Counts, Known};
use agv_store_read::rowid_reading::query_rowids;
use agv_store_read::{HeldThings, OpenFault};
use agv_store_read_tables::new_desk_laws::new_desks_know_nothing;
use agv_store_read_tables::reading_laws::tables_read_tell_the_world;
use agv_store_read_tables::world_laws::a_database_tells_its_world;
use agv_store_read_tables::world_reading::read_world;
use agv_store_schema::DESK_SEATS;
use agv_world_core::World;
use agv_world_lawful::TestsLawful;
use sqlite::{Alter, Connection};
use sqlite_schema::schema::Schema;
use std::alloc::Global;

impl<S: Alter + Drop> Desk<S> {
    /// Makes a desk with the empty world: its tables are made in one transaction, besides whatever the database has.
    ///
    /// # Errors
    /// `Damaged` exactly where a table, a view or an index has the name of one of the desk's tables, a foreign key
    /// refers to one of them, or two tables share a tree, as in no sound database; then nothing is touched. Otherwise
    /// `Memory` when out of memory, and `Storage` for any other error of the database: the store failed or was closed,
    /// or SQL refuses a statement, as where the database has 65,536 trees. In an empty database SQL refuses none, so
    /// `Storage` comes only if the store failed, was closed, or limits the steps of a query. The connection is
    /// returned; if it is open, its contents are unchanged.
    pub fn create(alloc: Global, conn: Connection<S>) -> Result<Desk<S>, (Connection<S>, OpenFault)>
        requires { conn.in_transaction ≡ false }
        ensures made { IfOk result (λ desk. IsClean S.Store desk.held → Makes S.Store conn desk) }
        ensures works { IfOk result (λ desk. desk.failed ≡ false) }
        ensures damaged { IsDamaged result ↔ ¬ CanBeMade (state S.Store conn).now.schema }
        ensures possible { (¬ IsDamaged result) → CanBeMade (state S.Store conn).now.schema }
        ensures caused { IsClean S.Store (left_by result) → IsStorage result → IsEmpty (state S.Store conn).now.schema → HasStorageCause S.Store conn (left_by result) }
        ensures untouched { IsDamaged result → left_by result ≡ conn }
        ensures undone { IsClean S.Store (left_by result) → IsOpen S.Store (left_by result)
            → OnErr result (IsOpen S.Store conn × ((state S.Store (left_by result)).now ≡ (state S.Store conn).now)) }
        ensures idle { (left_by result).in_transaction ≡ false }
        ensures crash { Survives (state S.Store conn) (state S.Store (left_by result)) (LeavesDesk (state S.Store conn).now) }
    {
        made_desks_stand();
        new_desks_know_nothing();
        a_database_tells_its_world();
        let mut conn = conn;
        let _settled = conn.is_autocommit();
        if !allows_desk(conn.schema()) {
            return Err((conn, OpenFault::Damaged));
        }
        match make_desk_tables(&mut conn) {
            Ok(()) => {
                let known = Known::new(alloc, Counts::none(), None);
                Ok(Desk {
                    floor: KeyedFloor::new(alloc, conn, known),
                })
            }
            Err(why) => Err((conn, of_making(why))),
        }
    }

    /// Adopts the desk of a database that has its tables, whoever wrote them: it checks the schema, every row and the
    /// holds, and changes nothing.
    ///
    /// # Errors
    /// `Damaged` if the database has the rows of no lawful world: a table is missing or differs, a row can't be
    /// decoded, the rows break a rule of the desk, or the rows of holds aren't those of what the vehicles hold. A
    /// database that has the rows of a lawful world is never damaged. Otherwise `Memory` when out of memory, and
    /// `Storage` only if the store failed, was closed, or limits the steps of a query, whatever the database has. The
    /// connection is returned; if it is open, its contents are unchanged.
    pub fn adopt(alloc: Global, conn: Connection<S>) -> Result<Desk<S>, (Connection<S>, OpenFault)>
        requires { conn.in_transaction ≡ false }
        ensures adopted { IfOk result (λ desk. IsClean S.Store desk.held → Adopts S.Store conn desk) }
        ensures works { IfOk result (λ desk. desk.failed ≡ false) }
        ensures damaged { IsClean S.Store (left_by result) → IsDamaged result → HasNoWorld (state S.Store conn).now }
        ensures caused { IsClean S.Store (left_by result) → IsStorage result → HasStorageCause S.Store conn (left_by result) }
        ensures unchanged { IsClean S.Store (left_by result) → IsOpen S.Store (left_by result)
            → IsOpen S.Store conn × ((state S.Store (left_by result)).now ≡ (state S.Store conn).now) }
        ensures idle { (left_by result).in_transaction ≡ false }
        ensures crash { Survives (state S.Store conn) (state S.Store (left_by result)) (λ _. ⊥) }
    {
        let mut conn = conn;
        let _settled = conn.is_autocommit();
        match find_desk(alloc, &mut conn) {
            Ok(known) => Ok(Desk {
                floor: KeyedFloor::new(alloc, conn, known),
            }),
            Err(why) => Err((conn, why)),
        }
    }

    /// Opens a database as a desk: makes one ([`Desk::create`]) where its tables can be made besides what the database
    /// has, and otherwise adopts the one that is there ([`Desk::adopt`]).
    ///
    /// # Errors
    /// As for these two. `Damaged` only where a desk can't be made and the database has the rows of no lawful world;
    /// where a desk can't be made, or the database is empty, `Storage` has one of the causes given at [`Desk::adopt`].
    pub fn open(alloc: Global, conn: Connection<S>) -> Result<Desk<S>, (Connection<S>, OpenFault)>
        requires { conn.in_transaction ≡ false }
        ensures opened { IfOk result (λ desk. IsClean S.Store desk.held → (CanBeMade (state S.Store conn).now.schema × Makes S.Store conn desk) ⊎ ((¬ CanBeMade (state S.Store conn).now.schema) × Adopts S.Store conn desk)) }
        ensures works { IfOk result (λ desk. desk.failed ≡ false) }
        ensures damaged { IsClean S.Store (left_by result) → IsDamaged result → (¬ CanBeMade (state S.Store conn).now.schema) × HasNoWorld (state S.Store conn).now }
        ensures caused { IsClean S.Store (left_by result) → IsStorage result → CanBeMade (state S.Store conn).now.schema ⊎ HasStorageCause S.Store conn (left_by result) }
        ensures caused_if_empty { IsClean S.Store (left_by result) → IsStorage result → IsEmpty (state S.Store conn).now.schema → HasStorageCause S.Store conn (left_by result) }
        ensures undone { IsClean S.Store (left_by result) → IsOpen S.Store (left_by result)
            → OnErr result (IsOpen S.Store conn × ((state S.Store (left_by result)).now ≡ (state S.Store conn).now)) }
        ensures idle { (left_by result).in_transaction ≡ false }
        ensures crash { Survives (state S.Store conn) (state S.Store (left_by result)) (λ trees. CanBeMade (state S.Store conn).now.schema × LeavesDesk (state S.Store conn).now trees) }
    {
        let mut conn = conn;
        let _settled = conn.is_autocommit();
        if can_be_made(conn.schema()) {
            Desk::create(alloc, conn)
        } else {
            Desk::adopt(alloc, conn)
        }
    }
}

/// Returns whether the desk's tables can be made besides what the database has.
fn can_be_made(schema: &Schema) -> bool
    ensures { IsTrue result ↔ CanBeMade schema.now }
{
    !is_any_used(schema, &NAMES) && allows_desk(schema)
}

/// Converts a fault of making the desk's tables to the fault of the opening.
pub(crate) fn of_making(why: MakingFault) -> OpenFault
    ensures { result ≡ of_making why }
{
    match why {
        MakingFault::Taken => OpenFault::Damaged,
        MakingFault::Memory => OpenFault::Memory,
        MakingFault::Storage => OpenFault::Storage,
    }
}

/// Checks that the desk's tables have the rows of a lawful world, and returns what is known of it.
fn find_desk<S: Alter>(alloc: Global, conn: &mut Connection<S>) -> Result<Known, OpenFault>
    requires { conn.old.in_transaction ≡ false }
    ensures { Finds S.Store conn.old conn.new result }
{
    tables_read_tell_the_world();
    a_database_tells_its_world();
    let _settled = conn.is_autocommit();
    let stand = tables_stand(alloc, conn.schema())?;
    if !stand {
        return Err(OpenFault::Damaged);
    }
    if !query_rowids(alloc, conn)? {
        return Err(OpenFault::Damaged);
    }
    let (tables, holds) = read_world(alloc, conn)?;
    if !are_of_a_lawful_world(alloc, &tables, &holds)? {
        return Err(OpenFault::Damaged);
    }
    let known = Known::of(alloc, &tables)?;
    Ok(known)
}

/// Returns whether these are the tables of a lawful world, and the holds are those of its vehicles.
fn are_of_a_lawful_world(alloc: Global, tables: &World, holds: &HeldThings) -> Result<bool, Memory>
    ensures { IfOk result (λ are. IsTrue are ↔ ((world : WorldOf) × Keeps tables.now world × IsLawful desk_seats world × (holds.now.table ≡ (maps_of world).holds))) }
{
    Ok(tables.is_lawful(alloc, DESK_SEATS)? && holds.are_footprints(alloc, tables)?)
}
