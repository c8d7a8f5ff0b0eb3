//! What command lines ask for, and a line that is carried out.

use crate::texts::{ASKS, DONE, KNOWN, REGISTERS, joined};
use agv_app_line::{Line, LineFault, ReportKind, line_of};
use agv_app_run::run_line;
use agv_face::CountingIo;
use std::alloc::Global;
use std::process::Abort;

/// Splits a line into words.
fn split_words<'a>(ends: &impl Abort, alloc: Global, line: &'a str) -> Vec<&'a str> {
    let words = line.split_whitespace();
    words.collect::<Vec<&'a str>>(alloc).expect(ends, line)
}

/// Returns what the words of a line ask for.
fn asked(ends: &impl Abort, alloc: Global, line: &str) -> &'static str {
    let words = split_words(ends, alloc, line);
    match line_of(alloc, &words) {
        Ok(
            Line::Report {
                db: "f",
                kind: ReportKind::Stock,
            },
        ) => "the stock report of f",
        Ok(_) => "another line",
        Err(LineFault::Refused(_)) => "refused",
        Err(_) => "another fault",
    }
}

#[test]
fn lines_are_read(rt: HostRuntime) {
    let asked_for = asked(&rt, rt.alloc(), "report --db f stock");
    assert!(rt; asked_for == "the stock report of f", "a report");
    let asked_for = asked(&rt, rt.alloc(), "replay --db memory --at x");
    assert!(rt; asked_for == "refused", "a moment that is no number");
}

#[test]
fn requests_are_answered_in_memory(rt: HostRuntime) {
    let line = Line::Replay {
        db: "memory",
        at: 1_700_000_000_000,
    };
    let requests = joined(&rt, rt.alloc(), &[REGISTERS, ASKS]);
    let answers = joined(&rt, rt.alloc(), &[DONE, KNOWN]);
    let mut reader = CountingIo::new(requests.as_str().as_bytes());
    let mut writer = CountingIo::new(Vec::new(rt.alloc()));
    let mut faults = CountingIo::new(Vec::new(rt.alloc()));
    let status = run_line(
        &rt,
        rt.alloc(),
        &line,
        &mut reader,
        &mut writer,
        &mut faults,
    );
    assert!(rt; status == 0, "the status");
    assert!(rt;
        writer.inner().as_slice() == answers.as_str().as_bytes(),
        "the answers"
    );
    assert!(rt; faults.inner().is_empty(), "no fault");
}
