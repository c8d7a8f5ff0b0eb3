//! Moving a database from the first schema to the second, in one transaction.
ghost use Rattle.std.specs.Prelude.{◌≡◌, ◌≢◌, ◌↔◌, ◌⊎◌, false, true, Err, IsTrue, IfErr, OnErr, OnOk, map};
ghost use Rattle.sqlite.specs.State.{HasCleanDisk, KeepsCommit, Survives};
ghost use Rattle.sqlite.specs.Held.{state};
ghost use Rattle.agv_world_core.specs.Kept.{Keeps};
ghost use Rattle.agv_world_core.specs.Worlds.{World as WorldOf};
ghost use Rattle.agv_store_create.specs.declared.making_fault.MakingFault.TheVariants as fault;
ghost use Rattle.agv_store_create.specs.Refusals.{RefusesSteps};
ghost use Rattle.agv_store_migrate.specs.FirstRows.{HasFirstWorld};
ghost use Rattle.agv_store_migrate.specs.MoveStatements.{HaveFewActs, RefusesMove, adding_steps};
ghost use Rattle.agv_store_migrate.specs.Moved.{CanBeAdded, LeavesMoved, MovesTables, added_texts};
ghost use Rattle.agv_store_schema.specs.Connections.{HasStorageCause};
ghost use Rattle.agv_store_schema.specs.DeskRows.{Makes, Placing};
ghost use Rattle.agv_store_schema.specs.Errors.{IsOfStore};
ghost use Rattle.agv_store_create.specs.TextsRun.{RunsSteps};

use crate::row_moving::move_rows;
use agv_order::laws::stops_twice;
use agv_store_create::MakingFault;
use agv_store_create::desk_tables::is_any_used;
use agv_store_create::step_running::run_text;
use agv_store_create::table_texts::{ACT, CAPACITY, JOURNEY};
use agv_store_create::tables_beside::are_unreferred;
use agv_store_rows::trip_row_laws::rows_have_keys;
use agv_world_core::World;
use sqlite::{Alter, Connection, Error, Transaction};
use sqlite_schema::schema::Schema;

// The tables that the second schema adds.
const ADDED: [&str; 3] = ["capacity", "journey", "act"];

/// Returns whether the three tables that the second schema adds can be created beside what a database has: no table,
/// view or index has one of their names, and no foreign key refers to one of them.
pub fn can_be_added(schema: &Schema) -> bool
    ensures { IsTrue result ↔ CanBeAdded schema.now }
{
    !is_any_used(schema, &ADDED) && are_unreferred(schema.tables.as_slice(), &ADDED)
}

/// Moves a database of the first schema to the second in one transaction, if it has the rows of a world, of which these
/// are the tables in memory: creates the tables `capacity`, `journey` and `act`, inserts a row with the capacity of
/// each vehicle, writes each open trip as a journey with its acts, empties `trip`, and sets the number of the schema.
/// If it succeeds, all of it is committed, the fourteen tables have the rows of that world, every other table has the
/// rows that it had, and the store was open and still is. After an error that leaves the store open nothing is
/// committed; a store that was closed stays closed; and a crash leaves none of it or all.
///
/// # Errors
/// [`MakingFault::Taken`] if the three tables can't be created beside what the database has ([`can_be_added`]), and
/// only then; nothing is touched in that case. Otherwise [`MakingFault::Memory`] when out of memory, and
/// [`MakingFault::Storage`] for any other error of the database: the store failed, was closed, or limits the steps of a
/// query, the schema has no room for the three tables, or SQL refuses a statement that rewrites the rows (`caused`).
pub fn move_tables<S: Alter>(conn: &mut Connection<S>, tables: &World) -> Result<(), MakingFault>
    requires idle { conn.old.in_transaction ≡ false }
    ensures taken { (result ≡ Err fault.Taken) ↔ (¬ CanBeAdded (state S.Store conn.old).now.schema) }
    ensures refused { result ≡ Err fault.Taken → conn.new ≡ conn.old }
    ensures made { HasCleanDisk (state S.Store conn.new) → OnOk result (MovesTables tables.now (state S.Store conn.old).now (state S.Store conn.new).committed) }
    ensures all_committed { HasCleanDisk (state S.Store conn.new) → OnOk result ((state S.Store conn.new).now ≡ (state S.Store conn.new).committed) }
    ensures open { HasCleanDisk (state S.Store conn.new) → OnOk result (IsTrue (state S.Store conn.old).is_open × IsTrue (state S.Store conn.new).is_open) }
    ensures was_open { HasCleanDisk (state S.Store conn.new) → IsTrue (state S.Store conn.new).is_open → IsTrue (state S.Store conn.old).is_open }
    ensures undone { HasCleanDisk (state S.Store conn.new) → IsTrue (state S.Store conn.new).is_open
        → IfErr result (λ why. why ≢ fault.Taken → ((state S.Store conn.new).now ≡ (state S.Store conn.old).committed) × ((state S.Store conn.new).committed ≡ (state S.Store conn.old).committed)) }
    ensures caused { HasCleanDisk (state S.Store conn.new) → result ≡ Err fault.Storage
        → (first : Placing) (world : WorldOf) → HasFirstWorld first (state S.Store conn.old).now world → Keeps tables.now world
        → HasStorageCause S.Store conn.old conn.new ⊎ RefusesMove tables.now (state S.Store conn.old).now }
    ensures crash { Survives (state S.Store conn.old) (state S.Store conn.new) (LeavesMoved tables.now (state S.Store conn.old).now) }
    ensures idle { conn.new.in_transaction ≡ false }
{
    stops_twice();
    if !can_be_added(conn.schema()) {
        return Err(MakingFault::Taken);
    }
    run_move(conn, tables)?;
    Ok(())
}

/// Creates the three tables, which has to be possible, and moves the rows.
fn run_move<S: Alter>(conn: &mut Connection<S>, tables: &World) -> Result<(), Error>
    requires idle { conn.old.in_transaction ≡ false }
    requires possible { CanBeAdded (state S.Store conn.old).now.schema }
    ensures made { HasCleanDisk (state S.Store conn.new) → OnOk result (MovesTables tables.now (state S.Store conn.old).now (state S.Store conn.new).committed) }
    ensures all_committed { HasCleanDisk (state S.Store conn.new) → OnOk result ((state S.Store conn.new).now ≡ (state S.Store conn.new).committed) }
    ensures open { HasCleanDisk (state S.Store conn.new) → OnOk result (IsTrue (state S.Store conn.old).is_open × IsTrue (state S.Store conn.new).is_open) }
    ensures was_open { HasCleanDisk (state S.Store conn.new) → IsTrue (state S.Store conn.new).is_open → IsTrue (state S.Store conn.old).is_open }
    ensures undone { HasCleanDisk (state S.Store conn.new) → IsTrue (state S.Store conn.new).is_open
        → OnErr result (((state S.Store conn.new).now ≡ (state S.Store conn.old).committed) × ((state S.Store conn.new).committed ≡ (state S.Store conn.old).committed)) }
    ensures caused { HasCleanDisk (state S.Store conn.new) → HaveFewActs tables.now.trips
        → IfErr result (λ why. IsOfStore why → HasStorageCause S.Store conn.old conn.new ⊎ RefusesMove tables.now (state S.Store conn.old).now) }
    ensures crash { Survives (state S.Store conn.old) (state S.Store conn.new) (LeavesMoved tables.now (state S.Store conn.old).now) }
    ensures idle { conn.new.in_transaction ≡ false }
{
    rows_have_keys();
    let mut tx = conn.transaction();
    add_tables(&mut tx)?;
    move_rows(&mut tx, tables)?;
    tx.commit()
}

/// Creates the three tables.
fn add_tables<S: Alter>(tx: &mut Transaction<'_, S>) -> Result<usize, Error>
    ensures same_reference { tx.new.conn.ghost_name ≡ tx.old.conn.ghost_name }
    ensures survives { Survives (state S.Store tx.old.conn.now) (state S.Store tx.new.conn.now) (λ _. ⊥) }
    ensures kept { HasCleanDisk (state S.Store tx.new.conn.now) → KeepsCommit (state S.Store tx.old.conn.now) (state S.Store tx.new.conn.now) }
    ensures ran { HasCleanDisk (state S.Store tx.new.conn.now)
        → OnOk result (RunsSteps (map (λ text. (true, text)) added_texts) (state S.Store tx.old.conn.now) (state S.Store tx.new.conn.now)) }
    ensures caused { HasCleanDisk (state S.Store tx.new.conn.now) → IsTrue (state S.Store tx.old.conn.now).in_transaction
        → IfErr result (λ why. IsOfStore why → HasStorageCause S.Store tx.old.conn.now tx.new.conn.now ⊎ RefusesSteps adding_steps (state S.Store tx.old.conn.now).now) }
{
    run_text(tx, CAPACITY)?;
    run_text(tx, JOURNEY)?;
    run_text(tx, ACT)
}
