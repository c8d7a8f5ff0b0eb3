//! Files that fail from each of their calls on, and a machine that then stops, while a desk is made and serves a
//! script, or while a database is migrated to the second schema.

use crate::cases::check;
use crate::desks::{after_a_stop, blank, copied_out, desk, fused, open, opened};
use crate::lists::{List, list_of, serve_from};
use crate::tables::{rows_text, told_text};
use agv_store::{Desk, OpenFault};
use agv_world::Fault;
use sqlite::{Alter, Connection, Files, Options};
use sqlite_disk::{Crash, Disk, Memory};
use std::alloc::Global;
use std::process::Abort;

/// The work under way.
#[derive(Clone, Copy)]
pub(crate) enum Work<'w> {
    /// A desk is made, and serves these calls.
    Calls(&'w List),
    /// A database of the first schema is migrated: its rows before and after.
    Move(&'w str, &'w str),
}

/// Returns options by which the log is copied into the database file at the first change after 16 pages, so that this
/// happens in the middle of a script, too.
fn with_short_log() -> Options {
    let mut options = Options::new(7);
    options.checkpoint_frames = 16;
    options
}

/// Checks that each call is answered `Storage`.
fn check_stays_failed<S: Alter + Drop>(rt: &impl Abort, desk: &mut Desk<S>, list: &List) {
    for (at, call) in &list.calls {
        let ended = desk.serve(*at, call);
        check(rt, ended.err() == Some(Fault::Storage), "it fails again");
    }
    check(rt, desk.failed(), "it has failed still");
}

/// Serves the calls up to the first fault of the store, if any, which has to be `Storage` for that call and for each
/// later one. Returns how many calls were answered before.
fn serve_until_it_fails<S: Alter + Drop>(
    rt: &impl Abort,
    alloc: Global,
    desk: &mut Desk<S>,
    list: &List,
) -> usize {
    let (answers, fault) = desk.run(list.calls_from(rt, 0));
    list.check_answers(rt, alloc, 0, &answers);
    check(rt, desk.failed() == fault.is_some(), "it has failed");
    if let Some(why) = fault {
        check(rt, why == Fault::Storage, "the store fails");
        check_stays_failed(rt, desk, list);
    } else {
        let whole = answers.len() == list.calls.len();
        check(rt, whole, "an answer to each call");
    }
    answers.len()
}

impl Work<'_> {
    /// Begins the work in a database that may fail. Returns the database, how many calls were answered, and whether
    /// nothing failed.
    fn begin<S: Alter + Drop>(
        &self,
        rt: &impl Abort,
        alloc: Global,
        conn: Connection<S>,
    ) -> (Connection<S>, usize, bool) {
        let way = match self {
            Work::Calls(_) => "create",
            Work::Move(..) => "migrate",
        };
        let mut desk = match opened(rt, alloc, conn, way) {
            Ok(desk) => desk,
            Err((conn, why)) => {
                check(rt, why == OpenFault::Storage, "the store fails");
                return (conn, 0, false);
            }
        };
        let answered = match self {
            Work::Calls(list) => serve_until_it_fails(rt, alloc, &mut desk, list),
            Work::Move(..) => 1,
        };
        let works = !desk.failed();
        (desk.release_conn(), answered, works)
    }

    /// Goes on with the work in a database that works, after this many calls were answered.
    fn go_on<S: Alter + Drop>(
        &self,
        rt: &impl Abort,
        alloc: Global,
        conn: Connection<S>,
        answered: usize,
    ) {
        match self {
            Work::Calls(list) => serve_rest(rt, alloc, conn, list, answered),
            Work::Move(before, after) => move_on(rt, alloc, conn, before, after, answered),
        }
    }
}

/// Checks that the database has the world after the calls that were answered, or after one more, and has the desk that
/// is opened there serve the others.
fn serve_rest<S: Alter + Drop>(
    rt: &impl Abort,
    alloc: Global,
    conn: Connection<S>,
    list: &List,
    answered: usize,
) {
    let mut conn = desk(rt, alloc, conn, "open").release_conn();
    let world = told_text(rt, alloc, &mut conn);
    let next = if list.is_before(answered, world.as_str()) {
        answered
    } else {
        answered.saturating_add(1)
    };
    check(rt, list.is_before(next, world.as_str()), world.as_str());
    let desk = desk(rt, alloc, conn, "adopt");
    serve_from(rt, alloc, desk, list, next);
}

/// Migrates the database if it is unchanged, and checks that it is migrated; a migration that was answered has to last.
fn move_on<S: Alter + Drop>(
    rt: &impl Abort,
    alloc: Global,
    conn: Connection<S>,
    before: &str,
    after: &str,
    answered: usize,
) {
    let mut conn = conn;
    let rows = rows_text(rt, alloc, &mut conn);
    if answered == 0 && rows.as_str() == before {
        conn = desk(rt, alloc, conn, "migrate").release_conn();
    }
    let mut conn = desk(rt, alloc, conn, "adopt").release_conn();
    let rows = rows_text(rt, alloc, &mut conn);
    check(rt, rows.as_str() == after, rows.as_str());
}

/// Does the work over files that may fail, stops the machine, and goes on with the work. Returns whether nothing
/// failed.
fn stop<D: Crash + Drop>(rt: &impl Abort, alloc: Global, files: Files<D>, work: &Work<'_>) -> bool {
    assert!(rt; files.log.may_be_used(), "the log");
    assert!(rt; files.db.may_be_used(), "the database file");
    match Connection::open_files(alloc, files, with_short_log()) {
        Ok(conn) => {
            let (conn, answered, works) = work.begin(rt, alloc, conn);
            let (files, copied) = copied_out(conn);
            work.go_on(rt, alloc, after_a_stop(rt, alloc, files), answered);
            works && copied
        }
        Err((_, left)) => {
            work.go_on(rt, alloc, after_a_stop(rt, alloc, left.into_files()), 0);
            false
        }
    }
}

/// Returns a file with these bytes.
fn disk_of(rt: &impl Abort, alloc: Global, bytes: &[u8]) -> Memory {
    let mut disk = Memory::new(alloc);
    disk.write_at(0, bytes).expect(rt, "memory");
    disk.sync().expect(rt, "memory");
    disk
}

/// Executes these statements in the database of the files.
fn carried_out<D: Disk + Drop>(
    rt: &impl Abort,
    alloc: Global,
    files: Files<D>,
    texts: &str,
) -> Files<D> {
    let mut conn = open(rt, alloc, files);
    conn.execute_batch(texts).expect(rt, texts);
    copied_out(conn).0
}

/// Returns files in whose database these statements were executed, or empty ones if there are none. They are not behind
/// fuses yet, so that a desk over them has the type of one on the files of `blank`.
fn written(rt: &impl Abort, alloc: Global, texts: &str) -> Files<Memory> {
    if texts.is_empty() {
        return Files {
            log: Memory::new(alloc),
            db: Memory::new(alloc),
        };
    }
    let files = carried_out(rt, alloc, blank(alloc), texts);
    Files {
        log: disk_of(rt, alloc, files.log.inner().bytes()),
        db: disk_of(rt, alloc, files.db.inner().bytes()),
    }
}

/// The most calls of a file.
const MOST: u64 = 1000;

/// Does the work with the log, or the database file, failing from each of its calls on, until nothing fails, even as
/// the database is closed.
pub(crate) fn stop_each(
    rt: &impl Abort,
    alloc: Global,
    texts: &str,
    work: &Work<'_>,
    of_log: bool,
) {
    for n in 0..MOST {
        let (log, db) = if of_log { (n, u64::MAX) } else { (u64::MAX, n) };
        let files = fused(written(rt, alloc, texts), log, db);
        if stop(rt, alloc, files, work) {
            return;
        }
    }
    panic!(rt; "it never ends");
}

/// Serves a script on files that fail at each of their calls in turn.
pub(crate) fn stop_script(rt: &impl Abort, alloc: Global, text: &str) {
    let list = list_of(rt, alloc, text);
    for of_log in [true, false] {
        stop_each(rt, alloc, "", &Work::Calls(&list), of_log);
    }
}
