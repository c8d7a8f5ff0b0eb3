//! A stream with at most ten reads, each of which gives a byte.

use crate::desks::moment;
use crate::fakes::Drip;
use crate::texts::{ASKS, REGISTERS, joined};
use crate::ways::{Way, in_memory};
use agv_face::{CountingIo, StreamFault, serve_stream_within};
use agv_store::Desk;
use sqlite::Alter;
use std::alloc::Global;
use std::process::Abort;

/// Serves a stream whose reads are used up before the first request is complete, and checks that nothing is written.
pub(crate) fn read_ten_times<S: Alter + Drop>(
    ends: &impl Abort,
    alloc: Global,
    desk: &mut Desk<S>,
) {
    let at = moment(ends);
    let requests = joined(ends, alloc, &[REGISTERS, ASKS]);
    let mut reader = CountingIo::new(Drip {
        bytes: requests.as_str().as_bytes(),
        reads: usize::MAX,
    });
    let mut writer = CountingIo::new(Vec::new(alloc));
    let served = serve_stream_within(alloc, desk, at, &mut reader, &mut writer, 10);
    let wanted = StreamFault::Read { answers: 0 };
    assert!(ends; served == Err(wanted), "the end of the stream");
    assert!(ends; reader.calls() == 10, "ten reads");
    assert!(ends; writer.inner().is_empty(), "nothing is written");
}

#[test]
fn a_stream_has_ten_reads(rt: HostRuntime) {
    in_memory(&rt, rt.alloc(), &Way::TenReads);
}
