//! The tests of the desk's HTTP, as bytes in and bytes out. They are a crate of their own, since a crate with tests is
//! proved twice. The expected values are written out or worked out by hand.
//!
//! Each case is a line of a table: the input, ` => `, and the expected result, as it is printed.
//!
//! - `cases` reads such lines, and compares.
//! - `requests` has requests as their bytes arrive, one at a time.
//! - `calls` has paths and methods with their lines of the table of routes, and the calls that bodies make there.
//! - `answers` has the bytes of answers.
#![tactic(auto)]

#[cfg(test)]
mod answers;
#[cfg(test)]
mod calls;
#[cfg(test)]
mod cases;
#[cfg(test)]
mod requests;
