//! Making changes of the rows of a world in the desk's tables, in one transaction.
ghost use Rattle.std.specs.Prelude.{◌≡◌, false, IsTrue, OnErr, OnOk};
ghost use Rattle.sqlite.specs.State.{HasCleanDisk, Survives};
ghost use Rattle.sqlite.specs.Held.{state};
ghost use Rattle.agv_store_changes.specs.ChangesMade.{ChangesWorlds, LeavesChanges, MakesChanges};
ghost use Rattle.agv_store_changes.specs.Faults.{fault_of};

use crate::change_laws::changes_make_the_next_world;
use crate::change_writes::write_change;
use agv_world_core::{Change, Fault};
use sqlite::{Alter, Connection, Error, ErrorCode};

/// Makes the changes in turn, in one transaction, in the tables of a desk, whatever else the database has. If it
/// succeeds, all of them are committed, every other table has the rows that it had, the schema is unchanged, and the
/// store is open. After an error that leaves the store open none is made; a store that was closed stays closed. A crash
/// leaves the rows from before the changes or after all of them, and opening the database finds these
/// ([`change_laws`](crate::change_laws)).
///
/// # Errors
/// [`Fault::Memory`] when out of memory, and [`Fault::Storage`] for any other error of the database: the store failed
/// or was closed by an earlier failure, or the connection limits the steps of its queries. No clause says that the disk
/// has failed in that case: SQL also refuses a row if the changes would give two open trips one vehicle, or two acts
/// one job and one kind, or if a unique index that isn't the desk's forbids it.
pub fn write_changes<S: Alter>(conn: &mut Connection<S>, changes: &[Change]) -> Result<(), Fault>
    requires { conn.old.in_transaction ≡ false }
    ensures made { HasCleanDisk (state S.Store conn.new) → OnOk result (MakesChanges changes.now (state S.Store conn.old).now (state S.Store conn.new).committed) }
    ensures worlds { HasCleanDisk (state S.Store conn.new) → OnOk result (ChangesWorlds changes.now (state S.Store conn.old).now (state S.Store conn.new).committed) }
    ensures all_committed { HasCleanDisk (state S.Store conn.new) → OnOk result ((state S.Store conn.new).now ≡ (state S.Store conn.new).committed) }
    ensures open { HasCleanDisk (state S.Store conn.new) → OnOk result (IsTrue (state S.Store conn.old).is_open × IsTrue (state S.Store conn.new).is_open) }
    ensures was_open { HasCleanDisk (state S.Store conn.new) → IsTrue (state S.Store conn.new).is_open → IsTrue (state S.Store conn.old).is_open }
    ensures undone { HasCleanDisk (state S.Store conn.new) → IsTrue (state S.Store conn.new).is_open
        → OnErr result (((state S.Store conn.new).now ≡ (state S.Store conn.old).committed) × ((state S.Store conn.new).committed ≡ (state S.Store conn.old).committed)) }
    ensures crash { Survives (state S.Store conn.old) (state S.Store conn.new) (LeavesChanges changes.now (state S.Store conn.old).now) }
    ensures idle { conn.new.in_transaction ≡ false }
{
    let done = run_changes(conn, changes);
    match done {
        Ok(()) => Ok(()),
        Err(error) => Err(fault_of(error)),
    }
}

/// Returns the fault for an error of the database.
fn fault_of(error: Error) -> Fault
    ensures { result ≡ fault_of error }
{
    match error {
        Error::SqliteFailure(ErrorCode::OutOfMemory) => Fault::Memory,
        _ => Fault::Storage,
    }
}

/// Makes the changes in turn, and commits them.
fn run_changes<S: Alter>(conn: &mut Connection<S>, changes: &[Change]) -> Result<(), Error>
    requires { conn.old.in_transaction ≡ false }
    ensures made { HasCleanDisk (state S.Store conn.new) → OnOk result (MakesChanges changes.now (state S.Store conn.old).now (state S.Store conn.new).committed) }
    ensures worlds { HasCleanDisk (state S.Store conn.new) → OnOk result (ChangesWorlds changes.now (state S.Store conn.old).now (state S.Store conn.new).committed) }
    ensures all_committed { HasCleanDisk (state S.Store conn.new) → OnOk result ((state S.Store conn.new).now ≡ (state S.Store conn.new).committed) }
    ensures open { HasCleanDisk (state S.Store conn.new) → OnOk result (IsTrue (state S.Store conn.old).is_open × IsTrue (state S.Store conn.new).is_open) }
    ensures was_open { HasCleanDisk (state S.Store conn.new) → IsTrue (state S.Store conn.new).is_open → IsTrue (state S.Store conn.old).is_open }
    ensures undone { HasCleanDisk (state S.Store conn.new) → IsTrue (state S.Store conn.new).is_open
        → OnErr result (((state S.Store conn.new).now ≡ (state S.Store conn.old).committed) × ((state S.Store conn.new).committed ≡ (state S.Store conn.old).committed)) }
    ensures crash { Survives (state S.Store conn.old) (state S.Store conn.new) (LeavesChanges changes.now (state S.Store conn.old).now) }
    ensures idle { conn.new.in_transaction ≡ false }
{
    changes_make_the_next_world();
    let mut tx = conn.transaction();
    for change in changes {
        write_change(&mut tx, change)?;
    }
    tx.commit()
}
