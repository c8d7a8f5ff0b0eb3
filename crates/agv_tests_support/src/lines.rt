//! The text of a script. The first word of a line says what the line is; lines after it that begin with `| ` are its
//! text:
//!
//! ```text
//! # a comment
//! at 1700000000000                        the moment of the calls from here on
//! POST /loads {"load":"L1"}               a request: its method, its target and its body
//! 200 {}                                  its answer: the status and the body
//! state 0001 2 O1 0 N1 0 O1.0=FINISHED    a state of KIT/0001, number 2: its order (- for none), the update, the last
//! 200 {"accepted":true}                   node and its sequenceId, and statuses of actions
//! moves L1 station B                      the loads that the last call moved, in order, with commas between
//! row job J1 L1 A B done                  a row that a table has
//! rows                                    all rows of all tables
//! | meta 1 2
//! *100 load L# station A# NULL NULL       as many lines, in which # is 000, 001 and so on, and % the end of a line
//! ```
//!
//! The heads of requests and answers are not in a script: they are built from it. `player` of
//! `agv_tests_scripts` says what a script can say about a database.
//!
//! A function that reads a text returns `None` if an allocation is refused, or if the text is not a line of a script.

use std::alloc::Global;

/// The moment of all calls, in milliseconds, unless a script says another.
pub const MOMENT: i64 = 1_700_000_000_000;

/// A line of a script, with its text.
#[derive(Drop)]
pub struct Said<'s> {
    /// The line.
    pub line: &'s str,
    /// The text of the lines after it that begin with `| `, without that mark.
    pub text: String,
}

/// Appends a line and the end of the line.
fn put(whole: &mut String, line: &str) -> Option<()> {
    whole.push_str(line).ok()?;
    whole.push_str("\n").ok()
}

/// Appends a line as often as its first word says, with the number of the copy in place of `#` and
/// ends of lines in place of `%`.
fn put_often(alloc: Global, whole: &mut String, line: &str) -> Option<()> {
    let (times, line) = parted(line);
    let lines = line.replace(alloc, '%', "\n").ok()?;
    for i in 0..number(times)? {
        let digits = format!(in alloc; "{i:03}").ok()?;
        let line = lines.replace(alloc, '#', digits.as_str()).ok()?;
        put(whole, line.as_str())?;
    }
    Some(())
}

/// Returns the number of these digits.
fn number(digits: &str) -> Option<usize> {
    digits.parse::<usize>().ok()
}

/// Appends the lines of a text, those that begin with `*` as often as they say.
fn put_lines(alloc: Global, whole: &mut String, text: &str) -> Option<()> {
    for line in text.lines() {
        match line.strip_prefix("*") {
            Some(often) => put_often(alloc, whole, often)?,
            None => put(whole, line)?,
        }
    }
    Some(())
}

/// Returns the text of a script's parts, one after the other.
pub fn whole(alloc: Global, parts: &[&str]) -> Option<String> {
    let mut whole = String::new(alloc);
    for text in parts {
        put_lines(alloc, &mut whole, text)?;
    }
    Some(whole)
}

/// Adds a line, or more text of the last line. Skips empty lines and comments.
fn put_line<'s>(alloc: Global, said: &mut Vec<Said<'s>>, line: &'s str) -> Option<()> {
    if line.is_empty() || line.starts_with('#') {
        return Some(());
    }
    match line.strip_prefix("| ") {
        Some(more) => {
            let last = said.last_mut()?;
            put(&mut last.text, more)
        }
        None => {
            let text = String::new(alloc);
            said.push(Said { line, text }).ok()
        }
    }
}

/// Returns the lines of a text, each with its text.
pub fn said_in<'s>(alloc: Global, text: &'s str) -> Option<Vec<Said<'s>>> {
    let mut said = Vec::new(alloc);
    for line in text.lines() {
        put_line(alloc, &mut said, line)?;
    }
    Some(said)
}

/// Returns the texts of all lines of a script's parts, one after the other.
pub fn texts_of(alloc: Global, parts: &[&str]) -> Option<String> {
    let whole = whole(alloc, parts)?;
    let mut texts = String::new(alloc);
    for said in &said_in(alloc, whole.as_str())? {
        texts.push_str(said.text.as_str()).ok()?;
    }
    Some(texts)
}

/// Splits a line at its first space; the second part is empty if there is none.
pub fn parted(line: &str) -> (&str, &str) {
    line.split_once(' ').unwrap_or((line, ""))
}

/// Returns the text in the line, or the text after it if the line has none.
fn text_of<'t>(in_line: &'t str, behind: &'t str) -> &'t str {
    if in_line.is_empty() { behind } else { in_line }
}

/// Returns the request with this method, target and body. A `GET` or `DELETE` without a body has no `Content-Length`.
fn request_text(alloc: Global, method: &str, target: &str, body: &str) -> Option<String> {
    let text = if body.is_empty() && (method == "GET" || method == "DELETE") {
        format!(in alloc; "{method} {target} HTTP/1.1\r\n\r\n")
    } else {
        format!(in alloc;
            "{method} {target} HTTP/1.1\r\nContent-Length: {}\r\n\r\n{body}",
            body.len()
        )
    };
    text.ok()
}

/// Appends the status of an action, as JSON.
fn put_action(actions: &mut String, word: &str) -> Option<()> {
    let (id, status) = word.split_once('=')?;
    if !actions.is_empty() {
        actions.push_str(",").ok()?;
    }
    let put = write!(
        actions,
        "{{\"actionId\":\"{id}\",\"actionStatus\":\"{status}\"}}"
    );
    put.ok()
}

/// Returns the request that posts the state of a line, of a vehicle that is ready.
fn state_text(alloc: Global, line: &str) -> Option<String> {
    let mut words = line.split_whitespace();
    let serial = words.next()?;
    let number = words.next()?;
    let order = words.next()?.trim_matches('-');
    let update = words.next()?;
    let node = words.next()?;
    let place = words.next()?;
    let mut actions = String::new(alloc);
    for word in words {
        put_action(&mut actions, word)?;
    }
    let body = format!(in alloc;
        "{{\"headerId\":{number},\"timestamp\":\"2023-11-14T22:13:19.50Z\",\"version\":\"2.0.0\",\
         \"manufacturer\":\"KIT\",\"serialNumber\":\"{serial}\",\"orderId\":\"{order}\",\"orderUpdateId\":{update},\
         \"lastNodeId\":\"{node}\",\"lastNodeSequenceId\":{place},\"driving\":false,\"nodeStates\":[],\
         \"edgeStates\":[],\"actionStates\":[{actions}],\
         \"batteryState\":{{\"batteryCharge\":80,\"charging\":false}},\"operatingMode\":\"AUTOMATIC\",\
         \"errors\":[],\"safetyState\":{{\"eStop\":\"NONE\",\"fieldViolation\":false}}}}"
    );
    let body = body.ok()?;
    let target = format!(in alloc; "/uagv/v2/KIT/{serial}/state").ok()?;
    request_text(alloc, "POST", target.as_str(), body.as_str())
}

/// Returns whether a line with this first word is a request.
pub fn asks(word: &str) -> bool {
    matches!(word, "GET" | "POST" | "PUT" | "DELETE" | "state")
}

/// Returns the request of a line, with its head.
pub fn request_of(alloc: Global, said: &Said<'_>) -> Option<String> {
    let (first, rest) = parted(said.line);
    if first == "state" {
        return state_text(alloc, rest);
    }
    let (target, body) = parted(rest);
    let body = text_of(body, said.text.as_str());
    request_text(alloc, first, target, body)
}

/// Returns the reason phrase of a status, or `None` if no script may have that status.
fn reason_of(status: &str) -> Option<&'static str> {
    Some(match status {
        "200" => "OK",
        "400" => "Bad Request",
        "404" => "Not Found",
        "409" => "Conflict",
        "422" => "Unprocessable Entity",
        _ => return None,
    })
}

/// Returns the content type of an answer to a request.
fn type_of(request: &str, status: &str) -> &'static str {
    if status != "200" {
        "application/json"
    } else if request.starts_with("GET /report/") {
        "text/plain"
    } else if request.starts_with("GET /export/") {
        "text/csv"
    } else {
        "application/json"
    }
}

/// Returns the answer of a line to a request, with its head.
pub fn answer_of(alloc: Global, request: &str, said: &Said<'_>) -> Option<String> {
    let (status, body) = parted(said.line);
    let body = text_of(body, said.text.as_str());
    if status == "204" {
        return String::from_str(alloc, "HTTP/1.1 204 No Content\r\n\r\n").ok();
    }
    let reason = reason_of(status)?;
    let kind = type_of(request, status);
    let len = body.len();
    let text = format!(in alloc;
        "HTTP/1.1 {status} {reason}\r\nContent-Length: {len}\r\nContent-Type: {kind}\r\n\r\n{body}"
    );
    text.ok()
}
