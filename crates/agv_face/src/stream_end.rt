//! How the serving of a stream ends.

use agv_header::Refusal;
use thiserror::Error;

/// Why a stream was served to its end.
#[derive(Clone, Copy, Debug, PartialEq, Eq)]
pub enum Ended {
    /// The input ended, with no byte after the last request.
    End,
    /// A request was the last of its stream: HTTP/1.0, or an element `close` in a Connection line. What follows it
    /// is ignored.
    Close,
    /// The last answer was this refusal of a fault of HTTP (`BadHead`, `NoLength`, `TooLarge`, `Coding`) or of the
    /// machine (`Memory`, `Storage`).
    Refused(Refusal),
}

/// The outcome of a stream that was served to its end.
#[derive(Clone, Copy, Debug, PartialEq, Eq)]
pub struct Served {
    /// How many answers were written, including the last refusal.
    pub answers: u64,
    pub ended: Ended,
}

/// Why the serving of a stream stopped before its end. The desk can go on.
#[derive(Clone, Copy, Debug, PartialEq, Eq, Error)]
pub enum StreamFault {
    /// A read failed, or the stream has had the most reads and needs one more.
    #[error("a read failed, behind {answers} answers")]
    Read {
        /// How many answers were written: those to all requests that had arrived completely.
        answers: u64,
    },
    /// A write failed, or took no byte. The call whose answer was cut short is done.
    #[error("a write failed, behind {answers} answers")]
    Write {
        /// How many answers were written whole.
        answers: u64,
    },
}
