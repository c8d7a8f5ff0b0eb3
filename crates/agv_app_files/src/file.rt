//! A database in a file.
ghost use Rattle.std.specs.Prelude.{codes, ◌≡◌, IfErr, IfOk, IsTrue};
ghost use Rattle.sqlite_std_file.specs.File.{file_is_usable};
ghost use Rattle.sqlite.specs.Files.{IsOpened, file_state};
ghost use Rattle.sqlite.specs.Held.{IsNew};
ghost use Rattle.sqlite.specs.Opening.{is_open_error};
ghost use Rattle.sqlite.specs.State.{HasCleanDisk};
ghost use Rattle.sqlite_wal.specs.Reads.{OnlyReads};
ghost use Rattle.agv_app_files.specs.FoundDatabases.{Shows};

use crate::new_database::{NO_MEMORY, PAGE_SIZE, new_database};
use sqlite::{Connection, Error, ErrorCode, FileStore, Files, Options};
use sqlite_disk::{Disk, Unknown};
use sqlite_pool::probe_blank;
use sqlite_std_file::{File, OpenError};
use sqlite_wal::{PageSize, probe_page_size};
use std::alloc::Global;
use std::hash::{BuildHasher, RandomState};
use std::io::ErrorKind;

/// The most pages of 512 bytes that are kept in memory, of those read and of those that a transaction has written: as
/// many bytes as the kit keeps in 2,000 pages of 4,096.
const KEPT_PAGES: usize = 16_000;

const CANNOT_OPEN: Error = Error::SqliteFailure(ErrorCode::CannotOpen);

/// Opens the database in the file. If there is no file, it creates one; if the file has no database yet, it creates an
/// empty one with pages of 512 bytes. Any other file keeps its page size. A file whose creation with pages of 4,096
/// bytes was interrupted gets pages of that size.
///
/// A path `:memory:` and one that begins with `file:`, which other programs do not take for a file's name, are refused.
///
/// No clause ties the connection to the path, or says anything about the contents of the file. A torn write is assumed
/// to leave each byte old or new, as by the kit's `Connection::open`.
///
/// # Errors
/// `DatabaseBusy` if another program has the file open, `NotADatabase` or `DatabaseCorrupt` if it has something else
/// than a sound database, `OutOfMemory` when out of memory, and others if the system refuses it.
pub fn open_file(rt: &HostRuntime, path: &str) -> Result<Connection<FileStore<File>>, Error>
    ensures memory { path.now ≡ codes ":memory:" → result ≡ Err (Error.SqliteFailure ErrorCode.CannotOpen) }
    ensures opened { IfOk result (λ conn. HasCleanDisk (file_state conn) → IsOpened conn) }
    ensures guarded { IfOk result (λ conn. HasCleanDisk (file_state conn) → (file_state conn).IsShielded) }
    ensures fresh { IfOk result IsNew }
    ensures fault { IfErr result (λ error. IsTrue (is_open_error error)) }
{
    let seed = random_number(rt)?;
    let files = files_at(rt, path)?;
    let mut conn = open_files(rt.alloc(), files, seed)?;
    conn.set_clock(rt);
    Ok(conn)
}

/// Opens the two files of the database: its own and its log.
fn files_at(rt: &HostRuntime, path: &str) -> Result<Files<File>, Error>
    ensures memory { path.now ≡ codes ":memory:" → result ≡ Err (Error.SqliteFailure ErrorCode.CannotOpen) }
    ensures log { IfOk result (λ files. IsTrue (file_is_usable _ files.log)) }
    ensures db { IfOk result (λ files. IsTrue (file_is_usable _ files.db)) }
    ensures fault { IfErr result (λ error. IsTrue (is_open_error error)) }
{
    if path == ":memory:" || path.starts_with("file:") {
        return Err(CANNOT_OPEN);
    }
    match sqlite_std_file::open(rt, path, Unknown) {
        Ok(files) => Ok(files),
        Err(OpenError::OutOfMemory) => Err(NO_MEMORY),
        Err(OpenError::Busy) => Err(Error::SqliteFailure(ErrorCode::DatabaseBusy)),
        Err(OpenError::Io(error)) if error.kind() == ErrorKind::OutOfMemory => Err(NO_MEMORY),
        Err(_) => Err(CANNOT_OPEN),
    }
}

/// Returns a random number, for the salts of the log.
fn random_number(rt: &HostRuntime) -> Result<u64, Error>
    ensures { IfErr result (λ error. error ≡ Error.SqliteFailure ErrorCode.CannotOpen) }
{
    match RandomState::new(rt) {
        Ok(state) => Ok(state.hash_one(&0u8)),
        Err(_) => Err(CANNOT_OPEN),
    }
}

/// Opens the database that these files hold; if they have none, it creates an empty one, as [`open_file`] does. `seed`
/// is a number drawn at random, for the salts of the log.
///
/// # Errors
/// `NotADatabase` or `DatabaseCorrupt` if the files have something else than a sound database, `OutOfMemory` when out
/// of memory, and others if the files fail.
pub fn open_files<D: Disk + Drop>(
    alloc: Global,
    mut files: Files<D>,
    seed: u64,
) -> Result<Connection<FileStore<D>>, Error>
    requires log { IsTrue (D.Disk.is_usable files.log) }
    requires db { IsTrue (D.Disk.is_usable files.db) }
    ensures opened { IfOk result (λ conn. HasCleanDisk (file_state conn) → IsOpened conn) }
    ensures found { IfOk result (λ conn. HasCleanDisk (file_state conn) → Shows files conn) }
    ensures guarded { IfOk result (λ conn. HasCleanDisk (file_state conn) → (file_state conn).IsShielded) }
    ensures fresh { IfOk result IsNew }
    ensures fault { IfErr result (λ error. IsTrue (is_open_error error)) }
{
    let size = PageSize::new(PAGE_SIZE).unwrap();
    match probe_blank(alloc, &mut files, size, false) {
        Ok(true) => new_database(alloc, files, small_page_options(seed)),
        Ok(false) => open_existing(alloc, files, seed),
        Err(error) => Err(probe_error(error)),
    }
}

/// Opens files that have a database, as the kit does.
fn open_existing<D: Disk + Drop>(
    alloc: Global,
    mut files: Files<D>,
    seed: u64,
) -> Result<Connection<FileStore<D>>, Error>
    requires log { IsTrue (D.Disk.is_usable files.log) }
    requires db { IsTrue (D.Disk.is_usable files.db) }
    ensures opened { IfOk result (λ conn. HasCleanDisk (file_state conn) → IsOpened conn) }
    ensures found { IfOk result (λ conn. HasCleanDisk (file_state conn) → Shows files conn) }
    ensures guarded { IfOk result (λ conn. HasCleanDisk (file_state conn) → (file_state conn).IsShielded) }
    ensures fresh { IfOk result IsNew }
    ensures fault { IfErr result (λ error. IsTrue (is_open_error error)) }
{
    let options = options_of(&mut files, seed)?;
    match Connection::open_files_with(alloc, files, options, false) {
        Ok(conn) => Ok(conn),
        Err((error, _)) => Err(error),
    }
}

/// Returns the options for opening these files, by their page size.
fn options_of<D: Disk>(files: &mut Files<D>, seed: u64) -> Result<Options, Error>
    requires log { IsTrue (D.Disk.is_usable files.old.log) }
    requires db { IsTrue (D.Disk.is_usable files.old.db) }
    ensures log { OnlyReads D.Disk files.old.log files.new.log }
    ensures db { OnlyReads D.Disk files.old.db files.new.db }
    ensures fault { IfErr result (λ error. IsTrue (is_open_error error)) }
{
    match probe_page_size(files) {
        Ok(Some(size)) if size.bytes() == PAGE_SIZE => Ok(small_page_options(seed)),
        Ok(_) => Ok(Options::new(seed)),
        Err(_) => Err(Error::SqliteFailure(ErrorCode::SystemIoFailure)),
    }
}

/// Returns the options for files with pages of 512 bytes.
fn small_page_options(seed: u64) -> Options {
    let mut options = Options::new(seed);
    options.cache_pages = KEPT_PAGES;
    options.spill_pages = KEPT_PAGES;
    options
}

/// Converts an error of probing the files to one of a connection.
fn probe_error(error: sqlite_wal::Error) -> Error
    ensures { IsTrue (is_open_error result) }
{
    Error::SqliteFailure(match error {
        sqlite_wal::Error::OutOfMemory => ErrorCode::OutOfMemory,
        sqlite_wal::Error::Io(_) => ErrorCode::SystemIoFailure,
        sqlite_wal::Error::Full => ErrorCode::DiskFull,
        _ => ErrorCode::NotADatabase,
    })
}
