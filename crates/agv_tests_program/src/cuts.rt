//! Streams whose reader fails after each byte of their input, and whose writer fails, or takes none, after each byte of
//! their answers: how many answers are counted, what is written, and what the same desk answers afterwards.

use crate::desks::moment;
use crate::fakes::{Drip, Trickle};
use crate::texts::{ASKS, DONE, KNOWN, REGISTERS, UNKNOWN, joined};
use crate::ways::{Way, in_memory};
use agv_face::{CountingIo, Ended, Served, StreamFault, serve_stream};
use agv_store::Desk;
use sqlite::Alter;
use std::alloc::Global;
use std::process::Abort;

/// A stream: its requests, of which the first registers the load L1, what follows them, and all answers.
#[derive(Clone, Copy)]
struct Stream {
    requests: [&'static str; 2],
    rest: &'static str,
    answers: [&'static str; 3],
}

const REGISTERS_ANOTHER: &str =
    "POST /loads HTTP/1.1\r\nContent-Length: 13\r\n\r\n{\"load\":\"L2\"}";

const BAD_HEAD: &str = concat!(
    "HTTP/1.1 400 Bad Request\r\nContent-Length: 30\r\nContent-Type: application/json\r\n",
    "Connection: close\r\n\r\n{\"name\":\"BadHead\",\"refusal\":1}",
);

/// A load is registered and queried; and two are registered, and the body of a third is cut short.
const STREAMS: [Stream; 2] = [
    Stream {
        requests: [REGISTERS, ASKS],
        rest: "",
        answers: [DONE, KNOWN, ""],
    },
    Stream {
        requests: [REGISTERS, REGISTERS_ANOTHER],
        rest: "POST /loads HTTP/1.1\r\nContent-Length: 13\r\n\r\n{\"loa",
        answers: [DONE, DONE, BAD_HEAD],
    },
];

/// Counts how many of the texts, one after another, are complete in the first `n` bytes.
fn count_in(texts: &[&str], n: usize) -> u64 {
    let mut count: u64 = 0;
    let mut end: usize = 0;
    for text in texts {
        end = end.saturating_add(text.len());
        if end <= n && !text.is_empty() {
            count = count.saturating_add(1);
        }
    }
    count
}

/// A stream whose reader fails after `n` bytes, or its writer, which may take none instead.
#[derive(Clone, Copy)]
pub(crate) struct Cut<'t> {
    stream: &'t Stream,
    /// Its requests in one text, and what follows them.
    input: &'t str,
    /// Its answers in one text.
    output: &'t str,
    of_reader: bool,
    takes_none: bool,
    n: usize,
}

impl<'t> Cut<'t> {
    /// Returns the reader of the stream.
    fn reader(&self) -> Drip<'t> {
        Drip {
            bytes: self.input.as_bytes(),
            reads: if self.of_reader { self.n } else { usize::MAX },
        }
    }

    /// Returns the writer of the stream.
    fn writer(&self, alloc: Global) -> Trickle {
        Trickle {
            taken: Vec::new(alloc),
            writes: if self.of_reader { usize::MAX } else { self.n },
            takes_none: self.takes_none,
        }
    }

    /// Returns how many answers are complete, and how many bytes are written.
    fn written(&self) -> (u64, usize) {
        if !self.of_reader {
            return (count_in(&self.stream.answers, self.n), self.n);
        }
        let count = count_in(&self.stream.requests, self.n);
        let [first, second, _] = self.stream.answers;
        match count {
            0 => (0, 0),
            1 => (1, first.len()),
            _ => (count, first.len().saturating_add(second.len())),
        }
    }

    /// Returns the fault after this many answers.
    fn fault(&self, answers: u64) -> StreamFault {
        if self.of_reader {
            StreamFault::Read { answers }
        } else {
            StreamFault::Write { answers }
        }
    }
}

/// Checks that the desk goes on: it knows the load if its registration was served.
fn goes_on<S: Alter + Drop>(ends: &impl Abort, alloc: Global, desk: &mut Desk<S>, known: bool) {
    let at = moment(ends);
    let mut reader = CountingIo::new(ASKS.as_bytes());
    let mut writer = CountingIo::new(Vec::new(alloc));
    let served = serve_stream(alloc, desk, at, &mut reader, &mut writer);
    let ended = Ended::End;
    let wanted = Served { answers: 1, ended };
    assert!(ends; served == Ok(wanted), "the desk goes on");
    let answer = if known { KNOWN } else { UNKNOWN };
    assert!(ends;
        writer.inner().as_slice() == answer.as_bytes(),
        "what it knows"
    );
}

/// Has a new desk serve what comes before the cut, and go on.
pub(crate) fn serve_cut<S: Alter + Drop>(
    ends: &impl Abort,
    alloc: Global,
    desk: &mut Desk<S>,
    cut: &Cut<'_>,
) {
    let (answers, written) = cut.written();
    serve_to_cut(ends, alloc, desk, cut, answers, written);
    goes_on(ends, alloc, desk, !cut.of_reader || answers > 0);
}

/// Has the desk serve what comes before the cut, and checks how many answers are counted, and how many bytes are
/// written.
fn serve_to_cut<S: Alter + Drop>(
    ends: &impl Abort,
    alloc: Global,
    desk: &mut Desk<S>,
    cut: &Cut<'_>,
    answers: u64,
    written: usize,
) {
    let at = moment(ends);
    let mut reader = CountingIo::new(cut.reader());
    let mut writer = CountingIo::new(cut.writer(alloc));
    let served = serve_stream(alloc, desk, at, &mut reader, &mut writer);
    let wanted = cut.fault(answers);
    assert!(ends; served == Err(wanted), "the end of the stream");
    let front = cut.output.get(..written).expect(ends, "a front");
    let taken = writer.inner().taken.as_slice();
    assert!(ends; taken == front.as_bytes(), "the answers");
}

/// Cuts the stream after each number of bytes below this one.
fn cut_below(ends: &impl Abort, alloc: Global, cut: Cut<'_>, count: usize) {
    for n in 0..count {
        let cut = Cut { n, ..cut };
        in_memory(ends, alloc, &Way::Cut(&cut));
    }
}

/// Cuts the stream at each byte: by its reader, also after the last byte; by its writer that fails; and by one that
/// takes none.
fn cut_each(ends: &impl Abort, alloc: Global, stream: &Stream) {
    let [first, second] = stream.requests;
    let input = joined(ends, alloc, &[first, second, stream.rest]);
    let output = joined(ends, alloc, &stream.answers);
    let by_reader = Cut {
        stream,
        input: input.as_str(),
        output: output.as_str(),
        of_reader: true,
        takes_none: false,
        n: 0,
    };
    cut_below(ends, alloc, by_reader, input.len().saturating_add(1));
    let by_writer = Cut {
        of_reader: false,
        ..by_reader
    };
    cut_below(ends, alloc, by_writer, output.len());
    let taking_none = Cut {
        takes_none: true,
        ..by_writer
    };
    cut_below(ends, alloc, taking_none, output.len());
}

#[test]
fn readers_and_writers_fail(rt: HostRuntime) {
    for stream in &STREAMS {
        cut_each(&rt, rt.alloc(), stream);
    }
}
