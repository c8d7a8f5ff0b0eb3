//! The desk's HTTP: the call that a request makes, and the bytes of every answer. It needs no store.
//!
//! - [`read_request`] finds the next request of a stream in the bytes that have arrived: a whole one, its fault, the
//!   end, or that more bytes are needed. `specs/request/Requests.antt` defines a request, and
//!   `specs/request/Heard.antt` what is heard of it.
//! - [`Routes`] finds the line of the table of routes for a method and a target: a [`Route`], or the refusal where no
//!   path matches or the path has another method (`specs/routing/Table.antt`).
//! - [`call_of`] returns the call that a [`Route`] and a body make, or the refusal that applies
//!   (`specs/bodies/BodyCalls.antt`).
//! - [`put_answer`] and [`answer_bytes`] write an answer, head and body (`specs/answers/Answers.antt`);
//!   [`memory_answer`] and [`storage_answer`] are the two for faults of the machine.
//! - [`laws`] has the laws of the definitions. [`laws::output`] proves that each input has one output
//!   (`specs/Output.antt`): the answers to its requests, each served in the world that the earlier ones left.
//!   [`laws::sizes`] proves how long answers are, and that 131,072 bytes are enough for each answer to a call that
//!   doesn't only read.
//! - [`laws::streams`] is for callers that serve a stream in parts: a prefix of whole requests and the rest of an
//!   input, and what is written at each end of a stream (`specs/request/Fronts.antt`, `specs/StreamEnds.antt`).
//!
//! `request`, `routing`, `bodies` and `answers` have these four steps, each in `src`, `specs` and `proofs`. What
//! concerns whole streams is beside them.
#![tactic(auto)]

mod answers;
mod bodies;
pub mod laws;
mod request;
mod routing;

pub use answers::answer::{answer_bytes, put_answer};
pub use answers::last_words::{memory_answer, storage_answer};
pub use bodies::body_calls::call_of;
pub use request::heard::{Heard, RequestRef, read_request};
pub use routing::route::{FixedRoute, NamedRoute, Route, VehicleRoute};
pub use routing::routes::Routes;
