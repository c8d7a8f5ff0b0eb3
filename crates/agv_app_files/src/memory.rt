//! A database in memory.
ghost use Rattle.std.specs.Prelude.{◌≡◌, IfErr, IfOk, IsTrue};
ghost use Rattle.sqlite_trees.specs.View.{IsClean};
ghost use Rattle.sqlite.specs.Files.{IsEmpty as HaveNothing};
ghost use Rattle.sqlite.specs.Held.{IsNew, state};
ghost use Rattle.sqlite.specs.Opening.{is_open_error};
ghost use Rattle.sqlite.specs.State.{HasCleanDisk};
ghost use Rattle.sqlite.specs.Steps.{IsEmpty, IsFresh};
ghost use Rattle.agv_app_files.specs.MemoryStores.{over_memory_files};

use crate::laws::stores_in_memory_are_clean;
use crate::new_database::{NO_MEMORY, new_store};
use crate::{InMemory, MemoryFile};
use sqlite::{Alter, Connection, Error, FileStore, Files, Options};
use std::alloc::Global;

/// Creates a new database in memory, without tables, which ends with the connection.
///
/// # Errors
/// `OutOfMemory` when out of memory, also if a file ran out of it. The same holds for the calls of the connection.
pub fn open_in_memory(alloc: Global) -> Result<Connection<InMemory<FileStore<MemoryFile>>>, Error>
    ensures empty { IfOk result (λ conn. IsEmpty (state over_memory_files conn)) }
    ensures fresh { IfOk result IsNew }
    ensures fault { IfErr result (λ error. IsTrue (is_open_error error)) }
{
    stores_in_memory_are_clean();
    let files = Files {
        log: MemoryFile::new(alloc),
        db: MemoryFile::new(alloc),
    };
    match new_store(alloc, files, Options::new(0)) {
        Ok(store) => connect(alloc, InMemory::new(store)),
        // Files in memory fail only where memory is refused.
        Err(_) => Err(NO_MEMORY),
    }
}

/// Opens a connection over a new store, which has no tables.
fn connect<S: Alter + Drop>(alloc: Global, store: S) -> Result<Connection<S>, Error>
    requires fresh { IsClean (S.Store.view store) → IsFresh (S.Store.view store) }
    requires nothing { IsTrue (S.Store.view store).is_clean → HaveNothing (S.Store.view store).trees }
    ensures empty { IfOk result (λ conn. HasCleanDisk (state S.Store conn) → IsEmpty (state S.Store conn)) }
    ensures fresh { IfOk result IsNew }
    ensures fault { IfErr result (λ error. IsTrue (is_open_error error)) }
{
    match Connection::over(alloc, store) {
        Ok(conn) => Ok(conn),
        Err((error, _)) => Err(error),
    }
}
