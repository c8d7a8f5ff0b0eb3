//! Comparing results with the expected ones: a test that fails prints both. These are functions, so that their code is
//! proved once and not at each of their calls.

use agv_header::Moment;
use std::alloc::Global;
use std::fmt::Debug;
use std::process::Abort;
use std::str;

/// Fails the test unless the condition holds for the case.
pub(crate) fn check(rt: &impl Abort, holds: bool, case: &str) {
    assert!(rt; holds, "`{case}`");
}

/// Fails the test unless the text found for the case is the expected one.
pub(crate) fn check_text(rt: &impl Abort, found: &str, wanted: &str, case: &str) {
    assert!(rt; found == wanted, "`{case}`: {found}, and not {wanted}");
}

/// Compares bytes with the expected text.
pub(crate) fn check_bytes(rt: &impl Abort, found: &[u8], wanted: &str, case: &str) {
    let text = str::from_utf8(found).expect(rt, case);
    check_text(rt, text, wanted, case);
}

/// Returns a value as it is printed.
pub(crate) fn shown(rt: &impl Abort, alloc: Global, value: &impl Debug) -> String {
    format!(in alloc; "{value:?}").expect(rt, "memory")
}

/// Returns the moment of this many milliseconds.
pub(crate) fn moment(rt: &impl Abort, ms: i64) -> Moment {
    Moment::of(ms).expect(rt, "a moment")
}
