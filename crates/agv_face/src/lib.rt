//! Serving a stream of HTTP requests by a desk over its tables, and writing the answers.
//!
//! A reader gives bytes, cut as it likes. `agv_face_http` finds the next request in what has arrived so far, and the
//! call of the desk that it makes. `agv_store` serves the call and commits its changes before it is answered; an answer
//! that is a report has its bytes. The answer's bytes are written before the next request is parsed. [`serve_stream`]
//! does so to the end of the stream, in memory that is reserved before the first call: 73,728 bytes for the longest
//! request and 131,072 for the answer to any call that changes something. [`serve_stream_within`] also takes the most
//! reads. Both take their reader and their writer as [`CountingIo`], so that a clause can say why a stream ended.
//!
//! - `specs/StreamEnd.antt` specifies how a stream ends, however the reads and writes are cut: which input arrived,
//!   what was written, and which world the desk then knows. It is the theorem of this crate. What is written at each
//!   end is defined by `agv_face_http` (its `StreamEnds`), whose module `laws::streams` relates the requests of a
//!   stream to lists of calls, so that the laws of `agv_desk` on these hold for streams.
//! - `specs/StreamCalls.antt` specifies what the calls of a stream do to the desk, and what a crash leaves of its
//!   tables; [`laws`] relates a stream to the laws of `agv_desk` on lists of calls.
//! - `specs/Replies.antt` specifies one request and its answer, `specs/Nexts.antt` the next request of a buffer,
//!   `specs/Bytes.antt` reading and writing bytes, `specs/Refusals.antt` the refusal for a fault of the machine, and
//!   `specs/CountingIo.antt` counted calls and failures.
//! - The functions for one request and its answer are those of `agv_face_http`, re-exported here: [`read_request`] with
//!   [`Heard`], [`Routes`] with the parts of a [`Route`], [`call_of`], [`answer_bytes`], [`put_answer`].
//! - A request goes from `stream` to `next` (what the buffer begins with), `reply` (its answer) and `call` (which call
//!   it makes).
#![tactic(auto)]

mod bytes;
mod call;
mod counting_io;
pub mod laws;
mod next;
mod reply;
mod stream;
mod stream_end;

pub use agv_face_http::{
    FixedRoute, Heard, NamedRoute, RequestRef, Route, Routes, VehicleRoute, answer_bytes, call_of,
    put_answer, read_request,
};
pub use bytes::write_whole;
pub use counting_io::CountingIo;
pub use stream::{serve_stream, serve_stream_within};
pub use stream_end::{Ended, Served, StreamFault};
