//! What comes next on a stream: a request's head, by httparse, and its body.
ghost use Rattle.std.specs.Prelude.{◌≡◌, ◌≤◌, ◌<◌, All, length, take, map, IfOk, min};
ghost use Rattle.httparse.specs.Spans.{IsHeaderWithin, header_bytes, IsRequestWithin, IsRequestOf};
ghost use Rattle.agv_face_http.specs.request.Lines.{Length, absent};
ghost use Rattle.agv_face_http.specs.request.Requests.{sends_body, length_needed, body_length, is_last_head};
ghost use Rattle.agv_face_http.specs.request.Found.{found_length};
ghost use Rattle.agv_face_http.specs.request.Next.{IsNext};

use crate::request::connection::has_close;
use crate::request::lines::{FoundLength, is_there, read_length};
use agv_header::Refusal;
use httparse::Status;
use httparse::spans::{EMPTY_HEADER_SPAN, HeaderSpan, RequestSpans, parse_request};

/// The most bytes of a head.
const MAX_HEAD_BYTES: usize = 8192;

/// The most bytes of a body.
pub(crate) const MAX_BODY_BYTES: u32 = 65536;

/// A request, borrowed from the bytes in which it arrived, with its method.
#[derive(Clone, Copy)]
pub(crate) struct RawRequest<'b> {
    pub(crate) method: &'b [u8],
    pub(crate) target: &'b [u8],
    pub(crate) body: &'b [u8],
    /// Whether it is the last of its stream.
    pub(crate) close: bool,
    /// How many bytes the request has.
    pub(crate) len: usize,
}

/// What comes next on a stream.
#[derive(Clone, Copy)]
pub(crate) enum Next<'b> {
    /// More bytes are needed.
    Need,
    /// The stream has ended, and no byte is left.
    End,
    Request(RawRequest<'b>),
    /// What is left begins with no request. What follows is ignored.
    Fault(Refusal),
}

/// Returns the next request that the bytes begin with, or why there is none. `ended` says that no byte follows.
pub(crate) fn next_request(buf: &[u8], ended: bool) -> Next<'_>
    ensures { IsNext buf.now ended result }
{
    if buf.is_empty() {
        return if ended { Next::End } else { Next::Need };
    }
    let front = front_of(buf);
    let mut headers = [EMPTY_HEADER_SPAN; 32];
    match parse_request(front, &mut headers) {
        Ok(Status::Complete(head)) => with_head(buf, front, &headers, head, ended),
        Ok(Status::Partial) if ended => Next::Fault(Refusal::BadHead),
        Ok(Status::Partial) if buf.len() >= MAX_HEAD_BYTES => Next::Fault(Refusal::BadHead),
        Ok(Status::Partial) => Next::Need,
        Err(_) => Next::Fault(Refusal::BadHead),
    }
}

/// Returns the bytes in which a head has to lie.
fn front_of(buf: &[u8]) -> &[u8]
    ensures front { result.now ≡ take 8192 buf.now }
    ensures len { length result.now ≤ 8192 }
{
    &buf[..buf.len().min(MAX_HEAD_BYTES)]
}

/// Returns what comes next where the head is complete.
fn with_head<'b>(
    buf: &'b [u8],
    front: &'b [u8],
    headers: &[HeaderSpan],
    head: RequestSpans,
    ended: bool,
) -> Next<'b>
    requires front { front.now ≡ take 8192 buf.now }
    requires few_headers { length headers.now ≤ 32 }
    requires within { IsRequestWithin front.now headers.now head }
    requires reads { IsRequestOf front.now headers.now head }
    ensures { IsNext buf.now ended result }
{
    let method = head.method.of(front);
    let lines = &headers[..head.headers];
    let (_, rest) = buf.split_at(head.len);
    match needed_by(front, lines, method) {
        Err(refusal) => Next::Fault(refusal),
        Ok(n) if n <= rest.len() => Next::Request(RawRequest {
            method,
            target: head.path.of(front),
            body: &rest[..n],
            close: is_last(front, lines, head.version),
            len: head.len + n,
        }),
        Ok(_) if ended => Next::Fault(Refusal::BadHead),
        Ok(_) => Next::Need,
    }
}

/// Returns the length of the body by the header lines.
fn needed_by(buf: &[u8], headers: &[HeaderSpan], method: &[u8]) -> Result<usize, Refusal>
    requires { All (IsHeaderWithin (length buf.now)) headers.now }
    ensures needed { result ≡ body_length method.now (map (header_bytes buf.now) headers.now) }
    ensures fits { IfOk result (λ n. n ≤ 65536) }
{
    let is_coded = is_there(buf, headers, b"transfer-encoding");
    needed(is_coded, method, read_length(buf, headers))
}

/// Returns the length of the body by what the header lines give.
fn needed(is_coded: bool, method: &[u8], found: FoundLength) -> Result<usize, Refusal>
    ensures needed { (length : Length) → found ≡ found_length length → result ≡ length_needed is_coded method.now length }
    ensures fits { IfOk result (λ n. n ≤ 65536) }
{
    match found {
        FoundLength::Wrong => Err(Refusal::BadHead),
        FoundLength::Absent => needed_without_length(is_coded, method),
        FoundLength::Bytes(_) if is_coded => Err(Refusal::Coding),
        FoundLength::Bytes(n) if n > MAX_BODY_BYTES => Err(Refusal::TooLarge),
        FoundLength::Bytes(n) => Ok(n as usize),
    }
}

/// Returns the length of the body where no line gives one.
fn needed_without_length(is_coded: bool, method: &[u8]) -> Result<usize, Refusal>
    ensures needed { result ≡ length_needed is_coded method.now absent }
    ensures fits { IfOk result (λ n. n ≤ 65536) }
{
    if is_coded {
        Err(Refusal::Coding)
    } else if wants_length(method) {
        Err(Refusal::NoLength)
    } else {
        Ok(0)
    }
}

/// Returns whether a request of that method has to give the length of its body.
fn wants_length(method: &[u8]) -> bool
    ensures { result ≡ sends_body method.now }
{
    method == b"PUT".as_slice() || method == b"POST".as_slice()
}

/// Returns whether the head ends its stream: it is of HTTP/1.0, or a Connection line has `close`.
fn is_last(buf: &[u8], headers: &[HeaderSpan], minor: u8) -> bool
    requires { All (IsHeaderWithin (length buf.now)) headers.now }
    ensures { result ≡ is_last_head minor (map (header_bytes buf.now) headers.now) }
{
    minor == 0 || has_close(buf, headers)
}
