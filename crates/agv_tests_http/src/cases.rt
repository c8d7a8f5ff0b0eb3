//! Reading lines of tables, and comparing results with the expected ones: a test that fails prints the line.

use agv_header::Name;
use std::alloc::Global;
use std::fmt::Debug;
use std::process::Abort;

/// Fails the test unless the condition holds for the case.
pub(crate) fn check(rt: &impl Abort, holds: bool, case: &str) {
    assert!(rt; holds, "`{case}`");
}

/// Fails the test unless the text found for the case is the expected one.
pub(crate) fn check_text(rt: &impl Abort, found: &str, wanted: &str, case: &str) {
    assert!(rt; found == wanted, "`{case}`: {found}, and not {wanted}");
}

/// Returns a value as it is printed.
pub(crate) fn shown(rt: &impl Abort, alloc: Global, value: &impl Debug) -> String {
    format!(in alloc; "{value:?}").expect(rt, "memory")
}

/// Splits a text at the first mark.
pub(crate) fn parts<'a>(rt: &impl Abort, text: &'a str, mark: &str) -> (&'a str, &'a str) {
    text.split_once(mark).expect(rt, text)
}

/// Splits a line into its case and the expected result.
pub(crate) fn row<'a>(rt: &impl Abort, line: &'a str) -> (&'a str, &'a str) {
    parts(rt, line, " => ")
}

/// Returns the part with this number, from 0, of a text that is separated by the mark.
pub(crate) fn part<'a>(rt: &impl Abort, text: &'a str, mark: char, i: usize) -> &'a str {
    text.split(mark).nth(i).expect(rt, text)
}

/// Replaces the mark in a text.
pub(crate) fn unmarked(rt: &impl Abort, alloc: Global, text: &str, mark: char, to: &str) -> String {
    text.replace(alloc, mark, to).expect(rt, "memory")
}

/// Reads a name.
pub(crate) fn name(rt: &impl Abort, text: &str) -> Name {
    Name::read(text).expect(rt, text)
}
