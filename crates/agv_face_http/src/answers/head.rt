//! The head of an answer.
ghost use Rattle.std.specs.Prelude.{◌≡◌, ◌<◌, ◌≤◌, [], ◌++◌, unwrap_or, option_map};
ghost use Rattle.http.specs.StatusCode.{reason_phrase};
ghost use Rattle.agv_face_http.specs.answers.Heads.{allow_line, connection_line, content_lines, head_text, line_end, status_line};
ghost use Rattle.agv_message_json.specs.Appending.{Appended};

use crate::answers::piece::{Piece, put_pieces};
use agv_header::{Memory, Verb};
use http::StatusCode;

/// Appends the head of an answer with this status and, if it has a body, the body's type and length.
pub fn put_head(
    out: &mut Vec<u8>,
    status: u16,
    kind: Option<&str>,
    len: usize,
    allow: Option<Verb>,
    close: bool,
) -> Result<(), Memory>
    requires low { 100 ≤ status }
    requires high { status < 1000 }
    ensures { Appended result out.old out.new
        (head_text status (option_map (λ k. k.now) kind.entry) len allow close) }
{
    put_status_line(out, status)?;
    put_content_lines(out, kind, len)?;
    put_last_lines(out, allow, close)
}

/// Appends the status line.
fn put_status_line(out: &mut Vec<u8>, status: u16) -> Result<(), Memory>
    requires low { 100 ≤ status }
    requires high { status < 1000 }
    ensures { Appended result out.old out.new (status_line status) }
{
    let pieces = [
        Piece::Text("HTTP/1.1 "),
        Piece::Number(status as u64),
        Piece::Text(" "),
        Piece::Text(reason_of(status)),
        Piece::Text("\r\n"),
    ];
    put_pieces(out, &pieces)
}

/// Returns the canonical reason phrase of the status, or an empty text if it has none.
fn reason_of(status: u16) -> &'static str
    requires low { 100 ≤ status }
    requires high { status < 1000 }
    ensures { result.now ≡ unwrap_or (reason_phrase status) [] }
{
    match StatusCode::from_u16(status) {
        Ok(code) => code.canonical_reason().unwrap_or(""),
        Err(_) => unreachable!(),
    }
}

/// Appends the header lines of the body's length and type, if there is a body.
fn put_content_lines(out: &mut Vec<u8>, kind: Option<&str>, len: usize) -> Result<(), Memory>
    ensures { Appended result out.old out.new (content_lines (option_map (λ k. k.now) kind.entry) len) }
{
    match kind {
        None => put_pieces(out, &[]),
        Some(kind) => {
            let pieces = [
                Piece::Text("Content-Length: "),
                Piece::Number(len as u64),
                Piece::Text("\r\nContent-Type: "),
                Piece::Text(kind),
                Piece::Text("\r\n"),
            ];
            put_pieces(out, &pieces)
        }
    }
}

/// Appends the last lines of the head.
fn put_last_lines(out: &mut Vec<u8>, allow: Option<Verb>, close: bool) -> Result<(), Memory>
    ensures { Appended result out.old out.new (allow_line allow ++ (connection_line close ++ line_end)) }
{
    put_allow_line(out, allow)?;
    put_end(out, close)
}

/// Appends the `Allow` line with the only method of the path, if there is one.
fn put_allow_line(out: &mut Vec<u8>, allow: Option<Verb>) -> Result<(), Memory>
    ensures { Appended result out.old out.new (allow_line allow) }
{
    match allow {
        None => put_pieces(out, &[]),
        Some(method) => {
            let pieces = [
                Piece::Text("Allow"),
                Piece::Text(": "),
                Piece::Text(method.name()),
                Piece::Text("\r\n"),
            ];
            put_pieces(out, &pieces)
        }
    }
}

/// Appends the `Connection` line, if the stream ends, and the empty line.
fn put_end(out: &mut Vec<u8>, close: bool) -> Result<(), Memory>
    ensures { Appended result out.old out.new (connection_line close ++ line_end) }
{
    let pieces = [Piece::Text(connection_text(close)), Piece::Text("\r\n")];
    put_pieces(out, &pieces)
}

/// Returns the line that says that the stream ends, or an empty text.
fn connection_text(close: bool) -> &'static str
    ensures { result.now ≡ connection_line close }
{
    if close { "Connection: close\r\n" } else { "" }
}
