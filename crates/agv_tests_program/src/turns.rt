//! A reader that gives a request only once the whole answer to the one before is written.

use crate::desks::moment;
use crate::fakes::{InTurn, Tally};
use crate::texts::{ASKS, DONE, KNOWN, REGISTERS, joined};
use crate::ways::{Way, in_memory};
use agv_face::{CountingIo, Ended, Served, serve_stream};
use agv_store::Desk;
use sqlite::Alter;
use std::alloc::Global;
use std::cell::Cell;
use std::process::Abort;

/// Registers a load and queries it, and checks that the desk doesn't read the second request before it has answered the
/// first.
pub(crate) fn answer_in_turn<S: Alter + Drop>(
    ends: &impl Abort,
    alloc: Global,
    desk: &mut Desk<S>,
) {
    let at = moment(ends);
    let written = Cell::new(0);
    let mut reader = CountingIo::new(InTurn {
        first: REGISTERS.as_bytes(),
        second: ASKS.as_bytes(),
        awaited: DONE.len(),
        given: 0,
        written: &written,
    });
    let mut writer = CountingIo::new(Tally {
        taken: Vec::new(alloc),
        written: &written,
    });
    let served = serve_stream(alloc, desk, at, &mut reader, &mut writer);
    let ended = Ended::End;
    let wanted = Served { answers: 2, ended };
    assert!(ends; served == Ok(wanted), "the end of the stream");
    assert!(ends; reader.calls() == 3, "two requests and the end");
    assert!(ends; reader.failures() == 0, "no read too early");
    let answers = joined(ends, alloc, &[DONE, KNOWN]);
    assert!(ends;
        writer.inner().taken.as_slice() == answers.as_str().as_bytes(),
        "the answers"
    );
}

#[test]
fn an_answer_comes_before_the_next_request(rt: HostRuntime) {
    in_memory(&rt, rt.alloc(), &Way::InTurn);
}
