//! What is done over any store: opening a desk in it, to serve a stream or print a report, or migrating a file of the
//! first schema to the second. Where a store is opened, its connection is passed, or the error of its opening.
ghost use Rattle.std.specs.Prelude.{◌≡◌, ◌⊎◌, ◌≤◌, ◌<◌, IfErr, IfOk};
ghost use Rattle.sqlite.specs.Held.{IsNew};
ghost use Rattle.agv_app_line.specs.CommandLine.{last_moment};
ghost use Rattle.agv_app_run.specs.Runs.{IsNewDatabase, IsReplayed, IsReplayedAnew, KnowsNothing};
ghost use Rattle.agv_app_run.specs.declared.outcome.RunFault.TheVariants as fault;

use crate::outcome::{RunFault, end_of};
use agv_app_line::ReportKind;
use agv_desk::Report;
use agv_face::{CountingIo, serve_stream, write_whole};
use agv_header::Moment;
use agv_store::Desk;
use agv_store_read_tables::world_laws::a_database_tells_its_world;
use agv_world_core::Fault;
use sqlite::{Alter, Connection, Error, ErrorCode};
use std::alloc::Global;
use std::io::{Read, Write};

/// Serves the reader's requests by the desk of this database, all at this moment.
pub(crate) fn replay<S: Alter + Drop, R: Read, W: Write>(
    alloc: Global,
    opened: Result<Connection<S>, Error>,
    at: u64,
    reader: &mut CountingIo<R>,
    writer: &mut CountingIo<W>,
) -> Result<(), RunFault>
    requires { IfOk opened IsNew }
    ensures { IsNewDatabase S.Store opened → IsReplayedAnew R.remaining W.contents reader.old reader.new writer.old writer.new S.Store at result }
{
    let mut desk = desk_of(alloc, opened)?;
    replay_on(alloc, &mut desk, at, reader, writer)
}

/// Opens the desk of this database, or a new one if it has none of a desk's tables.
pub(crate) fn desk_of<S: Alter + Drop>(
    alloc: Global,
    opened: Result<Connection<S>, Error>,
) -> Result<Desk<S>, RunFault>
    requires { IfOk opened IsNew }
    ensures new { IsNewDatabase S.Store opened → IfOk result (KnowsNothing S.Store) }
    ensures fault { IsNewDatabase S.Store opened → IfErr result (λ why. (why ≡ fault.Memory) ⊎ (why ≡ fault.Storage)) }
{
    a_database_tells_its_world();
    let conn = match opened {
        Ok(conn) => conn,
        Err(error) => return Err(fault_of(error)),
    };
    match Desk::open(alloc, conn) {
        Ok(desk) => Ok(desk),
        Err((_, why)) => Err(RunFault::from(why)),
    }
}

/// Converts the error of opening a database.
fn fault_of(error: Error) -> RunFault
    ensures { (result ≡ fault.Memory) ⊎ (result ≡ fault.Storage) }
{
    match error {
        Error::SqliteFailure(ErrorCode::OutOfMemory) => RunFault::Memory,
        _ => RunFault::Storage,
    }
}

/// Serves the reader's requests by this desk, all at this moment.
fn replay_on<S: Alter + Drop, R: Read, W: Write>(
    alloc: Global,
    desk: &mut Desk<S>,
    at: u64,
    reader: &mut CountingIo<R>,
    writer: &mut CountingIo<W>,
) -> Result<(), RunFault>
    ensures { IsReplayed R.remaining W.contents reader.old reader.new writer.old writer.new S.Store at desk.old result }
{
    let at = moment_of(at)?;
    end_of(serve_stream(alloc, desk, at, reader, writer))
}

/// Returns the moment this many milliseconds since 1970, up to 2099; otherwise `Clock`.
fn moment_of(ms: u64) -> Result<Moment, RunFault>
    ensures moment { IfOk result (λ at. (at ≡ ms) × (ms ≤ last_moment)) }
    ensures none { IfErr result (λ why. (why ≡ fault.Clock) × (last_moment < ms)) }
{
    let Ok(ms) = i64::try_from(ms) else {
        return Err(RunFault::Clock);
    };
    match Moment::of(ms) {
        Some(at) => Ok(at),
        None => Err(RunFault::Clock),
    }
}

/// Prints a report of this desk.
pub(crate) fn report<S: Alter + Drop, W: Write>(
    desk: &mut Desk<S>,
    kind: ReportKind,
    writer: &mut CountingIo<W>,
) -> Result<(), RunFault> {
    let report = match kind {
        ReportKind::Stock => Report::Stock,
        ReportKind::Holds => Report::Holds,
    };
    print(writer, desk.report(report))
}

/// Prints the bytes of a report.
fn print<W: Write>(
    writer: &mut CountingIo<W>,
    bytes: Result<Vec<u8>, Fault>,
) -> Result<(), RunFault> {
    match bytes {
        Ok(bytes) if write_whole(writer, &bytes) => Ok(()),
        Ok(_) => Err(RunFault::Write),
        Err(Fault::Memory) => Err(RunFault::Memory),
        Err(Fault::Storage) => Err(RunFault::Storage),
    }
}

/// Migrates the database from the first schema to the second, and prints so.
pub(crate) fn migrate<S: Alter + Drop, W: Write>(
    alloc: Global,
    opened: Result<Connection<S>, Error>,
    writer: &mut CountingIo<W>,
) -> Result<(), RunFault>
    requires { IfOk opened IsNew }
{
    migrate_tables(alloc, opened)?;
    if write_whole(writer, b"migrated\n") {
        Ok(())
    } else {
        Err(RunFault::Write)
    }
}

/// Migrates the database from the first schema to the second.
fn migrate_tables<S: Alter + Drop>(
    alloc: Global,
    opened: Result<Connection<S>, Error>,
) -> Result<(), RunFault>
    requires { IfOk opened IsNew }
{
    let conn = match opened {
        Ok(conn) => conn,
        Err(error) => return Err(fault_of(error)),
    };
    match Desk::migrate(alloc, conn) {
        Ok(_) => Ok(()),
        Err((_, why)) => Err(RunFault::from(why)),
    }
}
