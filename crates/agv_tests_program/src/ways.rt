//! Tests by a desk in a new database, which is the kit's store in memory.

use crate::connections::serve_one;
use crate::cuts::{Cut, serve_cut};
use crate::desks::desk_in;
use crate::reads::read_ten_times;
use crate::turns::answer_in_turn;
use agv_store::Desk;
use sqlite::{Alter, Connection};
use std::alloc::{AllocError, Global};
use std::process::Abort;

/// A test.
#[derive(Clone, Copy)]
pub(crate) enum Way<'t> {
    /// A stream that is cut short.
    Cut(&'t Cut<'t>),
    /// A stream whose second request waits for the answer to the first.
    InTurn,
    /// A stream with at most ten reads.
    TenReads,
    /// A connection on a free port of this machine.
    Connection(&'t HostRuntime),
}

impl Way<'_> {
    /// Runs the test by this desk.
    fn go<S: Alter + Drop>(&self, ends: &impl Abort, alloc: Global, desk: &mut Desk<S>) {
        match self {
            Way::Cut(cut) => serve_cut(ends, alloc, desk, cut),
            Way::InTurn => answer_in_turn(ends, alloc, desk),
            Way::TenReads => read_ten_times(ends, alloc, desk),
            Way::Connection(rt) => serve_one(rt, ends, desk),
        }
    }

    /// Runs the test by a new desk in this database.
    fn go_in<S: Alter + Drop>(
        &self,
        ends: &impl Abort,
        alloc: Global,
        opened: Result<Connection<S>, AllocError>,
    ) {
        let mut desk = desk_in(ends, alloc, opened);
        self.go(ends, alloc, &mut desk);
    }
}

/// Runs the test by a new desk in a new database.
pub(crate) fn in_memory(ends: &impl Abort, alloc: Global, way: &Way<'_>) {
    way.go_in(ends, alloc, Connection::open_in_memory(alloc));
}
