//! Desks over files in memory that may fail.

use crate::cases::check;
use agv_store::{Desk, OpenFault};
use sqlite::{Alter, Connection, FileStore, Files, Options};
use sqlite_disk::{Crash, Disk, Fuse, Memory};
use std::alloc::Global;
use std::process::Abort;

/// Returns two empty files behind fuses that are never reached.
pub(crate) fn blank(alloc: Global) -> Files<Fuse<Memory>> {
    Files {
        log: Fuse::new(Memory::new(alloc), u64::MAX),
        db: Fuse::new(Memory::new(alloc), u64::MAX),
    }
}

/// Puts the files behind fuses: `log` calls succeed on the log, and `db` on the database file.
pub(crate) fn fused<D: Disk>(files: Files<D>, log: u64, db: u64) -> Files<Fuse<D>> {
    Files {
        log: Fuse::new(files.log, log),
        db: Fuse::new(files.db, db),
    }
}

/// Opens the database in the files.
pub(crate) fn open<D: Disk + Drop>(
    rt: &impl Abort,
    alloc: Global,
    files: Files<D>,
) -> Connection<FileStore<D>> {
    assert!(rt; files.log.may_be_used(), "the log");
    assert!(rt; files.db.may_be_used(), "the database file");
    match Connection::open_files(alloc, files, Options::new(7)) {
        Ok(conn) => conn,
        Err(_) => panic!(rt; "the files open"),
    }
}

/// Returns the files of a database, and whether all of the log was copied into the database file.
pub(crate) fn copied_out<D: Disk + Drop>(conn: Connection<FileStore<D>>) -> (Files<D>, bool) {
    match conn.close_files() {
        Ok(files) => (files, true),
        Err((_, store)) => (store.close(), false),
    }
}

/// Stops the machine, so that what was not synced is lost, and opens the database again. The files fail no more.
pub(crate) fn after_a_stop<D: Crash + Drop>(
    rt: &impl Abort,
    alloc: Global,
    files: Files<D>,
) -> Connection<FileStore<D>> {
    let mut files = files;
    files.log.crash();
    files.db.crash();
    open(rt, alloc, files)
}

/// Opens a desk in this database, by the call of this name.
pub(crate) fn opened<S: Alter + Drop>(
    rt: &impl Abort,
    alloc: Global,
    conn: Connection<S>,
    way: &str,
) -> Result<Desk<S>, (Connection<S>, OpenFault)> {
    assert!(rt; conn.is_autocommit(), "idle");
    match way {
        "create" => Desk::create(alloc, conn),
        "adopt" => Desk::adopt(alloc, conn),
        "open" => Desk::open(alloc, conn),
        _ => Desk::migrate(alloc, conn),
    }
}

/// Opens a desk by the call of this name, and returns it, or fails the test.
pub(crate) fn desk<S: Alter + Drop>(
    rt: &impl Abort,
    alloc: Global,
    conn: Connection<S>,
    way: &str,
) -> Desk<S> {
    match opened(rt, alloc, conn, way) {
        Ok(desk) => {
            check(rt, !desk.failed(), "the store works");
            desk
        }
        Err(_) => panic!(rt; "no desk: `{way}`"),
    }
}
