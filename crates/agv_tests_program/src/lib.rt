//! Tests that call the program's libraries as the program does.
//!
//! - `lines` parses lines, and carries out one in memory; `connections` serves a connection over the network.
//! - `cuts` has streams that fail at each of their bytes, `turns` one whose second request waits for the answer to the
//!   first, and `reads` one with few reads.
//! - `ways` runs a test in a new database, which is the kit's store in memory: `serve_stream` is one function over
//!   every store, and one over files takes many times as long to prove (docs/GATE.md). Everything else is generic over
//!   the store.
//! - `texts` has requests and answers, `fakes` the readers and writers that fail, and `desks` the desk.
#![tactic(auto)]

#[cfg(test)]
mod connections;
#[cfg(test)]
mod cuts;
#[cfg(test)]
mod desks;
#[cfg(test)]
mod fakes;
#[cfg(test)]
mod lines;
#[cfg(test)]
mod reads;
#[cfg(test)]
mod texts;
#[cfg(test)]
mod turns;
#[cfg(test)]
mod ways;
