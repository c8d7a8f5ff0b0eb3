//! Creating the desk's tables in a database, beside whatever else it has.
ghost use Rattle.std.specs.Prelude.{◌≡◌, ◌≢◌, ◌↔◌, false, true, Err, IsTrue, IfErr, OnErr, OnOk};
ghost use Rattle.std.specs.List.{list_any};
ghost use Rattle.sqlite.specs.State.{HasCleanDisk, Survives};
ghost use Rattle.sqlite.specs.Held.{state};
ghost use Rattle.sqlite_catalog.specs.Change.{is_used};
ghost use Rattle.agv_store_schema.specs.Connections.{HasStorageCause};
ghost use Rattle.agv_store_schema.specs.Errors.{IsOfStore};
ghost use Rattle.agv_store_create.specs.DeskSchema.{IsEmpty, is_name_taken};
ghost use Rattle.agv_store_create.specs.DeskTables.{LeavesDesk, MakesDesk};
ghost use Rattle.agv_store_create.specs.declared.making_fault.MakingFault.TheVariants as fault;

use crate::making_fault::MakingFault;
use crate::step_running::run_steps;
use crate::table_texts::making_steps;
use sqlite::{Alter, Connection, Error};
use sqlite_catalog::layout::is_used;
use sqlite_schema::schema::Schema;

/// The names of the desk's tables.
pub const NAMES: [&str; 14] = [
    "meta", "node", "edge", "station", "vehicle", "trip", "leg", "load", "job", "hold", "used",
    "capacity", "journey", "act",
];

/// Creates the fourteen tables, the row of `meta` and the indexes in one transaction, beside whatever the database has;
/// an index whose name is taken is left out. If it succeeds, all of it is committed, and the store was open and still
/// is. After an error that leaves the store open nothing is committed; a store that was closed stays closed; and a
/// crash leaves none of it or all.
///
/// # Errors
/// [`MakingFault::Taken`] if a table, a view or an index has the name of one of the tables, and only then; nothing is
/// touched in that case. Otherwise [`MakingFault::Memory`] when out of memory, and [`MakingFault::Storage`] for any
/// other error of the database; in an empty database only if the store failed, was closed, or limits the steps of a
/// query.
pub fn make_desk_tables<S: Alter>(conn: &mut Connection<S>) -> Result<(), MakingFault>
    requires idle { conn.old.in_transaction ≡ false }
    ensures taken { (result ≡ Err fault.Taken) ↔ (is_name_taken (state S.Store conn.old).now.schema ≡ true) }
    ensures refused { result ≡ Err fault.Taken → conn.new ≡ conn.old }
    ensures made { HasCleanDisk (state S.Store conn.new) → OnOk result (MakesDesk (state S.Store conn.old).now (state S.Store conn.new).committed) }
    ensures all_committed { HasCleanDisk (state S.Store conn.new) → OnOk result ((state S.Store conn.new).now ≡ (state S.Store conn.new).committed) }
    ensures open { HasCleanDisk (state S.Store conn.new) → OnOk result (IsTrue (state S.Store conn.old).is_open × IsTrue (state S.Store conn.new).is_open) }
    ensures was_open { HasCleanDisk (state S.Store conn.new) → IsTrue (state S.Store conn.new).is_open → IsTrue (state S.Store conn.old).is_open }
    ensures undone { HasCleanDisk (state S.Store conn.new) → IsTrue (state S.Store conn.new).is_open
        → IfErr result (λ why. why ≢ fault.Taken → ((state S.Store conn.new).now ≡ (state S.Store conn.old).committed) × ((state S.Store conn.new).committed ≡ (state S.Store conn.old).committed)) }
    ensures caused { HasCleanDisk (state S.Store conn.new) → IsEmpty (state S.Store conn.old).now.schema → result ≡ Err fault.Storage → HasStorageCause S.Store conn.old conn.new }
    ensures crash { Survives (state S.Store conn.old) (state S.Store conn.new) (LeavesDesk (state S.Store conn.old).now) }
    ensures idle { conn.new.in_transaction ≡ false }
{
    if is_name_taken(conn.schema()) {
        return Err(MakingFault::Taken);
    }
    make_tables(conn)?;
    Ok(())
}

/// Returns whether a table, a view or an index has the name of one of the desk's tables.
fn is_name_taken(schema: &Schema) -> bool
    ensures { result ≡ is_name_taken schema.now }
{
    is_any_used(schema, &NAMES)
}

/// Returns whether a table, a view or an index has one of the names.
pub fn is_any_used(schema: &Schema, names: &[&str]) -> bool
    ensures { result ≡ list_any (λ name. is_used schema.now name.now) names.now }
{
    names.iter().any(|name| is_used(schema, name.as_bytes()))
}

/// Creates the tables, whose names are free.
fn make_tables<S: Alter>(conn: &mut Connection<S>) -> Result<(), Error>
    requires idle { conn.old.in_transaction ≡ false }
    requires free { is_name_taken (state S.Store conn.old).now.schema ≡ false }
    ensures made { HasCleanDisk (state S.Store conn.new) → OnOk result (MakesDesk (state S.Store conn.old).now (state S.Store conn.new).committed) }
    ensures all_committed { HasCleanDisk (state S.Store conn.new) → OnOk result ((state S.Store conn.new).now ≡ (state S.Store conn.new).committed) }
    ensures open { HasCleanDisk (state S.Store conn.new) → OnOk result (IsTrue (state S.Store conn.old).is_open × IsTrue (state S.Store conn.new).is_open) }
    ensures was_open { HasCleanDisk (state S.Store conn.new) → IsTrue (state S.Store conn.new).is_open → IsTrue (state S.Store conn.old).is_open }
    ensures undone { HasCleanDisk (state S.Store conn.new) → IsTrue (state S.Store conn.new).is_open
        → OnErr result (((state S.Store conn.new).now ≡ (state S.Store conn.old).committed) × ((state S.Store conn.new).committed ≡ (state S.Store conn.old).committed)) }
    ensures caused { HasCleanDisk (state S.Store conn.new) → IsEmpty (state S.Store conn.old).now.schema → IfErr result (λ why. IsOfStore why → HasStorageCause S.Store conn.old conn.new) }
    ensures crash { Survives (state S.Store conn.old) (state S.Store conn.new) (LeavesDesk (state S.Store conn.old).now) }
    ensures idle { conn.new.in_transaction ≡ false }
{
    let steps = making_steps(conn.schema());
    run_steps(conn, &steps)
}
