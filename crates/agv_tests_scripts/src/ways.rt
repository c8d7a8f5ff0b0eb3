//! Tests in a database on files behind fuses that are never reached.

use crate::desks::{blank, open};
use crate::lists::{List, serve_list};
use crate::player::play;
use sqlite::{Alter, Connection};
use std::alloc::Global;
use std::process::Abort;

/// A test.
#[derive(Clone, Copy)]
pub(crate) enum Way<'t> {
    /// A script, call by call.
    Calls(&'t str),
    /// A script as one list, by a new desk.
    List(&'t List),
}

impl Way<'_> {
    /// Runs the test in this database.
    fn go<S: Alter + Drop>(&self, rt: &impl Abort, alloc: Global, conn: Connection<S>) {
        match self {
            Way::Calls(text) => play(rt, alloc, conn, text),
            Way::List(list) => serve_list(rt, alloc, conn, list),
        }
    }
}

/// Runs the test in a new database.
pub(crate) fn in_database(rt: &impl Abort, alloc: Global, way: &Way<'_>) {
    let conn = open(rt, alloc, blank(alloc));
    way.go(rt, alloc, conn);
}
