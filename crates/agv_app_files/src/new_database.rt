//! Creating a database over two files that have none yet.
ghost use Rattle.std.specs.Prelude.{◌≡◌, IfErr, IfOk, IsTrue};
ghost use Rattle.sqlite_trees.specs.View.{IsClean};
ghost use Rattle.sqlite_wal.specs.Reads.{AreClean};
ghost use Rattle.sqlite_store.specs.FileStore.{is_shielded, view};
ghost use Rattle.sqlite.specs.Files.{IsEmpty as HaveNothing, file_state};
ghost use Rattle.sqlite.specs.Held.{IsNew};
ghost use Rattle.sqlite.specs.Opening.{is_open_error};
ghost use Rattle.sqlite.specs.State.{HasCleanDisk};
ghost use Rattle.sqlite.specs.Steps.{IsEmpty, IsFresh};

use sqlite::{Connection, Error, ErrorCode, FileStore, Files, Options};
use sqlite_disk::Disk;
use sqlite_pager::Pager;
use sqlite_store::{OpenError, Unopened};
use sqlite_wal::PageSize;
use std::alloc::Global;

/// The bytes of a page of a new database, the fewest possible: changes are written, and checksummed, in whole pages.
pub const PAGE_SIZE: usize = 512;

/// The error when out of memory.
pub const NO_MEMORY: Error = Error::SqliteFailure(ErrorCode::OutOfMemory);

/// Creates a database over these files, with pages of 512 bytes and without tables.
///
/// # Errors
/// `OutOfMemory` when out of memory, `SystemIoFailure` or `DiskFull` if the files fail, and `DatabaseCorrupt` if they
/// have a database already.
pub fn new_database<D: Disk + Drop>(
    alloc: Global,
    files: Files<D>,
    options: Options,
) -> Result<Connection<FileStore<D>>, Error>
    requires log { IsTrue (D.Disk.is_usable files.log) }
    requires db { IsTrue (D.Disk.is_usable files.db) }
    ensures empty { IfOk result (λ conn. HasCleanDisk (file_state conn) → IsEmpty (file_state conn)) }
    ensures guarded { IfOk result (λ conn. HasCleanDisk (file_state conn) → (file_state conn).IsShielded) }
    ensures honest { IfOk result (λ conn. HasCleanDisk (file_state conn) → AreClean D.Disk files.log files.db) }
    ensures fresh { IfOk result IsNew }
    ensures fault { IfErr result (λ error. IsTrue (is_open_error error)) }
{
    let store = new_store(alloc, files, options)?;
    match Connection::over(alloc, store) {
        Ok(conn) => Ok(conn),
        Err((error, _)) => Err(error),
    }
}

/// Creates an empty store over these files.
///
/// # Errors
/// As [`new_database`].
pub fn new_store<D: Disk + Drop>(
    alloc: Global,
    files: Files<D>,
    options: Options,
) -> Result<FileStore<D>, Error>
    requires log { IsTrue (D.Disk.is_usable files.log) }
    requires db { IsTrue (D.Disk.is_usable files.db) }
    ensures fresh { IfOk result (λ store. IsClean (view store) → IsFresh (view store)) }
    ensures empty { IfOk result (λ store. IsTrue (view store).is_clean → HaveNothing (view store).trees) }
    ensures guarded { IfOk result (λ store. IsTrue (view store).is_clean → is_shielded store) }
    ensures honest { IfOk result (λ store. IsTrue (view store).is_clean → AreClean D.Disk files.log files.db) }
    ensures fault { IfErr result (λ error. IsTrue (is_open_error error)) }
{
    let size = PageSize::new(PAGE_SIZE).unwrap();
    let Ok(pager) = Pager::new(alloc, files, size, options) else {
        return Err(NO_MEMORY);
    };
    let Ok(unopened) = Unopened::new(alloc, pager, &[]) else {
        return Err(NO_MEMORY);
    };
    match unopened.create() {
        Ok(store) => Ok(store),
        Err((error, _)) => Err(open_error(error)),
    }
}

/// Converts an error of creating a store to one of a connection.
fn open_error(error: OpenError) -> Error
    ensures { IsTrue (is_open_error result) }
{
    Error::SqliteFailure(match error {
        OpenError::OutOfMemory => ErrorCode::OutOfMemory,
        OpenError::Io => ErrorCode::SystemIoFailure,
        OpenError::Full => ErrorCode::DiskFull,
        OpenError::Refused => ErrorCode::DatabaseCorrupt,
    })
}
