//! The parts of an answer.
ghost use Rattle.std.specs.Prelude.{◌≡◌, ◌+◌, ◌<◌, ◌≤◌, option_map, vec_len, vec_capacity};
ghost use Rattle.agv_face_http.specs.answers.Answers.{allowed, answer_content, answer_status, answer_text, content_text, media_type, report_type};
ghost use Rattle.agv_face_http.specs.answers.Given.{head_of, turned};
ghost use Rattle.agv_message_json.specs.Appending.{Appended};

use crate::answers::body::{
    put_accepted, put_counted, put_instructed, put_load, put_refusal, put_update,
};
use crate::answers::head::put_head;
use crate::answers::job_body::put_job;
use crate::answers::vehicle_body::put_vehicle;
use agv_desk::{Answer, Report};
use agv_header::{Memory, Refusal, Verb};
use agv_message_json::{put_bytes, put_instant, put_order};

/// Appends an answer, or part of it when out of memory. It writes the body first and then the head, and swaps them.
pub fn put_parts(out: &mut Vec<u8>, answer: &Answer, close: bool) -> Result<(), Memory>
    ensures { Appended result out.old out.new (answer_text answer.now close) }
{
    let start = out.len();
    put_content(out, answer)?;
    let len = out.len() - start;
    put_head_of(out, answer, len, close)?;
    turn(out, start, len);
    Ok(())
}

/// Appends the body of an answer.
fn put_content(out: &mut Vec<u8>, answer: &Answer) -> Result<(), Memory>
    ensures { Appended result out.old out.new (content_text (answer_content answer.now)) }
{
    match answer {
        Answer::Refused(refusal) => put_refusal(out, refusal),
        Answer::Done => put_bytes(out, b"{}"),
        Answer::Update(n) => put_update(out, *n),
        Answer::Instructed(n) => put_instructed(out, *n),
        Answer::Accepted(accepted) => put_accepted(out, *accepted),
        Answer::NoMessage => put_bytes(out, b""),
        Answer::Order { header, order } => put_order(out, header, order),
        Answer::Instant { header, instant } => put_instant(out, header, instant),
        Answer::Counted { moved, unknown } => put_counted(out, *moved, unknown.as_slice()),
        Answer::Load { load, place, job } => put_load(out, load, place, job),
        Answer::Job { job, row, carrier } => put_job(out, job, row, carrier),
        Answer::Vehicle { key, row, order } => put_vehicle(out, key, row, order),
        Answer::Report { text, .. } => put_bytes(out, text.as_slice()),
    }
}

/// Appends the head of an answer whose body has this length.
fn put_head_of(out: &mut Vec<u8>, answer: &Answer, len: usize, close: bool) -> Result<(), Memory>
    ensures { Appended result out.old out.new (head_of answer.now len close) }
{
    let status = status_of(answer);
    let kind = media_type_of(answer);
    let allow = allowed_by(answer);
    put_head(out, status, kind, len, allow, close)
}

/// Returns the status code of an answer.
fn status_of(answer: &Answer) -> u16
    ensures status { result ≡ answer_status answer.now }
    ensures low { 100 ≤ result }
    ensures high { result < 1000 }
{
    match answer {
        Answer::Refused(refusal) => refusal.status(),
        Answer::NoMessage => 204,
        _ => 200,
    }
}

/// Returns the media type of an answer's body, if it has one.
fn media_type_of(answer: &Answer) -> Option<&'static str>
    ensures { option_map (λ k. k.now) result ≡ media_type (answer_content answer.now) }
{
    match answer {
        Answer::NoMessage => None,
        Answer::Report { report, .. } => Some(report_type(*report)),
        _ => Some("application/json"),
    }
}

/// Returns the media type of a report.
fn report_type(report: Report) -> &'static str
    ensures { result.now ≡ report_type report }
{
    match report {
        Report::Stock => "text/plain",
        Report::Holds => "text/plain",
        Report::Loads => "text/csv",
        Report::Jobs => "text/csv",
        Report::Vehicles => "text/csv",
        Report::Layout => "text/csv",
    }
}

/// Returns the only method that serves the path, if the answer refuses another one.
fn allowed_by(answer: &Answer) -> Option<Verb>
    ensures { result ≡ allowed answer.now }
{
    match answer {
        Answer::Refused(Refusal::BadMethod { allow }) => Some(*allow),
        _ => None,
    }
}

/// Moves the first `len` bytes from `start` on behind those that follow them.
fn turn(out: &mut Vec<u8>, start: usize, len: usize)
    requires { start + len ≤ vec_len out.old }
    ensures items { out.new.items ≡ turned start len out.old.items }
    ensures capacity { vec_capacity out.new ≡ vec_capacity out.old }
{
    let tail = &mut out[start..];
    tail.rotate_left(len);
}
