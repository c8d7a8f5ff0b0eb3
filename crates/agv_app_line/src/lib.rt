//! The command line of the program: its arguments and what they mean.
//!
//! [`words_of`] returns the arguments, or a [`WordsFault`], and [`line_of`] parses them into a [`Line`]: `replay`, `serve`,
//! `report` or `migrate`, with the values of its arguments. The words are parsed by `clap`. [`LineFault`] says why they are
//! no line. `specs/CommandLine.antt` defines what `clap` is given, when words are a line, and which fault a refused line
//! has.
#![tactic(auto)]

mod line;
mod line_fault;
mod words;

pub use line::{Line, ReportKind, line_of};
pub use line_fault::{LineFault, WordsFault};
pub use words::words_of;
