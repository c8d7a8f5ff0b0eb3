//! Carrying out a line: opening the file that it names, or a database in memory, and passing on its connection, or
//! lending a desk in it.
ghost use Rattle.std.specs.Prelude.{◌≡◌, IfOk, codes};
ghost use Rattle.sqlite.specs.Files.{over_files};
ghost use Rattle.sqlite.specs.Held.{IsNew};
ghost use Rattle.agv_app_files.specs.FullMemory.{in_memory};
ghost use Rattle.agv_app_run.specs.Runs.{IsCarriedOut, IsNewDatabase, IsReplayedAnew, IsReplayedInMemory, IsRun, IsTold, status_of};

use crate::connections::serve;
use crate::desks::{desk_of, migrate, replay, report};
use crate::outcome::RunFault;
use agv_app_files::laws::stores_in_memory_are_clean;
use agv_app_files::{InMemory, open_file, open_in_memory};
use agv_app_line::Line;
use agv_face::{CountingIo, write_whole};
use sqlite::{Alter, Connection, Error, FileStore};
use sqlite_disk::Disk;
use std::alloc::Global;
use std::io::{Read, Write};

/// Carries out a line over a reader of its input, a writer of its output and a writer of its faults, and returns the
/// exit status: 0 on success; 1 after a fault, which is one line on the writer of faults (`IsRun`, `specs/Runs.antt`).
///
/// For a `replay` in memory the contract also says what was written: the output of its input, from the empty world of a
/// new desk.
pub fn run_line<R: Read, W: Write, E: Write>(
    rt: &HostRuntime,
    alloc: Global,
    line: &Line<'_>,
    reader: &mut CountingIo<R>,
    writer: &mut CountingIo<W>,
    errors: &mut CountingIo<E>,
) -> u8
    ensures { IsRun R.remaining W.contents E.contents line.now reader.old reader.new writer.old writer.new errors.old errors.new result }
{
    let end = carry_out(rt, alloc, line, reader, writer);
    tell(end, errors)
}

/// Does what the line asks for.
fn carry_out<R: Read, W: Write>(
    rt: &HostRuntime,
    alloc: Global,
    line: &Line<'_>,
    reader: &mut CountingIo<R>,
    writer: &mut CountingIo<W>,
) -> Result<(), RunFault>
    ensures { IsCarriedOut R.remaining W.contents reader.old reader.new writer.old writer.new line.now result }
{
    match *line {
        Line::Replay { db, at } => replay_by(rt, alloc, line, db, at, reader, writer),
        Line::Serve { db, .. } => carry_out_on_file(rt, alloc, line, db, reader, writer),
        Line::Report { db, .. } => carry_out_on_file(rt, alloc, line, db, reader, writer),
        Line::Migrate { db } => carry_out_on_file(rt, alloc, line, db, reader, writer),
    }
}

/// Serves the reader's requests by the desk in the file, or by a new one in memory if the file is `memory`.
fn replay_by<R: Read, W: Write>(
    rt: &HostRuntime,
    alloc: Global,
    line: &Line<'_>,
    db: &str,
    at: u64,
    reader: &mut CountingIo<R>,
    writer: &mut CountingIo<W>,
) -> Result<(), RunFault>
    ensures { db.now ≡ codes "memory" → IsReplayedInMemory R.remaining W.contents reader.old reader.new writer.old writer.new at result }
{
    if db == "memory" {
        return replay_in_memory(alloc, at, reader, writer);
    }
    carry_out_on_file(rt, alloc, line, db, reader, writer)
}

/// Does what the line asks for, in the database of the file.
fn carry_out_on_file<R: Read, W: Write>(
    rt: &HostRuntime,
    alloc: Global,
    line: &Line<'_>,
    db: &str,
    reader: &mut CountingIo<R>,
    writer: &mut CountingIo<W>,
) -> Result<(), RunFault> {
    carry_out_over(rt, alloc, line, open_file(rt, db), reader, writer)
}

/// Does what the line asks for, in this database over files. It is a function of its own, as [`replay_over`] is, since
/// it is faster to prove with a store over any files in the place of `S` than with one over given files.
fn carry_out_over<D: Disk + Drop, R: Read, W: Write>(
    rt: &HostRuntime,
    alloc: Global,
    line: &Line<'_>,
    opened: Result<Connection<FileStore<D>>, Error>,
    reader: &mut CountingIo<R>,
    writer: &mut CountingIo<W>,
) -> Result<(), RunFault>
    requires { IfOk opened IsNew }
{
    carry_out_in(rt, alloc, line, opened, reader, writer)
}

/// Does what the line asks for, in this database.
fn carry_out_in<S: Alter + Drop, R: Read, W: Write>(
    rt: &HostRuntime,
    alloc: Global,
    line: &Line<'_>,
    opened: Result<Connection<S>, Error>,
    reader: &mut CountingIo<R>,
    writer: &mut CountingIo<W>,
) -> Result<(), RunFault>
    requires { IfOk opened IsNew }
{
    match *line {
        Line::Replay { at, .. } => replay(alloc, opened, at, reader, writer),
        Line::Serve {
            port,
            connections,
            ..
        } => {
            let mut desk = desk_of(alloc, opened)?;
            serve(rt, alloc, &mut desk, port, connections, writer)
        }
        Line::Report { kind, .. } => {
            let mut desk = desk_of(alloc, opened)?;
            report(&mut desk, kind, writer)
        }
        Line::Migrate { .. } => migrate(alloc, opened, writer),
    }
}

/// Serves the reader's requests by a new desk in memory.
fn replay_in_memory<R: Read, W: Write>(
    alloc: Global,
    at: u64,
    reader: &mut CountingIo<R>,
    writer: &mut CountingIo<W>,
) -> Result<(), RunFault>
    ensures { IsReplayedInMemory R.remaining W.contents reader.old reader.new writer.old writer.new at result }
{
    stores_in_memory_are_clean();
    replay_over(alloc, open_in_memory(alloc), at, reader, writer)
}

/// Serves the reader's requests by the desk of this database over files in memory.
fn replay_over<D: Disk + Drop, R: Read, W: Write>(
    alloc: Global,
    opened: Result<Connection<InMemory<FileStore<D>>>, Error>,
    at: u64,
    reader: &mut CountingIo<R>,
    writer: &mut CountingIo<W>,
) -> Result<(), RunFault>
    requires { IfOk opened IsNew }
    ensures { IsNewDatabase (in_memory (over_files {g = D.Disk})) opened → IsReplayedAnew R.remaining W.contents reader.old reader.new writer.old writer.new (in_memory (over_files {g = D.Disk})) at result }
{
    replay(alloc, opened, at, reader, writer)
}

/// Prints the line of a fault, and returns the exit status. A failure of that write doesn't change the status.
fn tell<E: Write>(end: Result<(), RunFault>, errors: &mut CountingIo<E>) -> u8
    ensures line { IsTold E.contents errors.old errors.new end }
    ensures status { result ≡ status_of end }
{
    match end {
        Ok(()) => 0,
        Err(fault) => {
            write_whole(errors, fault.line().as_bytes());
            1
        }
    }
}
