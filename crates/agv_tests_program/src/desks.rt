//! A desk in a database, and the moment at which streams are served.

use agv_header::Moment;
use agv_store::Desk;
use sqlite::{Alter, Connection};
use std::alloc::{AllocError, Global};
use std::process::Abort;

/// Makes a desk in this database, which is empty.
pub(crate) fn desk_in<S: Alter + Drop>(
    ends: &impl Abort,
    alloc: Global,
    opened: Result<Connection<S>, AllocError>,
) -> Desk<S> {
    let conn = opened.expect(ends, "a database");
    assert!(ends; conn.is_autocommit(), "idle");
    match Desk::open(alloc, conn) {
        Ok(desk) => desk,
        Err(_) => panic!(ends; "a desk is made"),
    }
}

/// Returns the moment at which streams are served.
pub(crate) fn moment(ends: &impl Abort) -> Moment {
    Moment::of(1_700_000_000_000).expect(ends, "a moment")
}
