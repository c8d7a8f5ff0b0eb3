//! The Connection lines of a request.
ghost use Rattle.std.specs.Prelude.{◌≡◌, ◌==◌, ◌||◌, All, drop, length, map, reverse, codes};
ghost use Rattle.std.specs.List.{list_any, slice_split};
ghost use Rattle.httparse.specs.Grammar.{is_ows, skip_ows, trim_ows};
ghost use Rattle.httparse.specs.Spans.{IsHeaderWithin, header_bytes};
ghost use Rattle.agv_face_http.specs.request.Lines.{same_word, values_of};
ghost use Rattle.agv_face_http.specs.request.Requests.{comma, elements_of, says_close};

use crate::request::lines::is_same_word;
use httparse::spans::HeaderSpan;

/// Returns whether an element of a Connection line is `close`.
pub(crate) fn has_close(buf: &[u8], headers: &[HeaderSpan]) -> bool
    requires { All (IsHeaderWithin (length buf.now)) headers.now }
    ensures { result ≡ list_any says_close (values_of (codes "connection") (map (header_bytes buf.now) headers.now)) }
{
    for header in headers {
        if is_same_word(header.name.of(buf), b"connection") && says_close(header.value.of(buf)) {
            return true;
        }
    }
    false
}

/// Returns whether an element of the value is `close`. Elements are separated by commas.
fn says_close(value: &[u8]) -> bool
    ensures { result ≡ says_close value.now }
{
    value
        .split(|byte| *byte == b',')
        .any(|element| is_close(element))
}

/// Returns whether the element of a value is `close`.
fn is_close(element: &[u8]) -> bool
    ensures { result ≡ same_word (codes "close") (trim_ows element.now) }
{
    is_same_word(b"close", trimmed(element))
}

/// Returns the bytes without the spaces and tabs around them.
fn trimmed(bytes: &[u8]) -> &[u8]
    ensures { result.now ≡ trim_ows bytes.now }
{
    without_back(without_front(bytes))
}

/// Returns the bytes without the spaces and tabs at their end.
fn without_back(bytes: &[u8]) -> &[u8]
    ensures { result.now ≡ reverse (skip_ows (reverse bytes.now)) }
{
    let mut end = bytes.len();
    while 0 < end && is_blank(bytes[end - 1]) {
        end -= 1;
    }
    &bytes[..end]
}

/// Returns whether the byte is a space or a tab.
fn is_blank(byte: u8) -> bool
    ensures { result ≡ is_ows byte }
{
    byte == b' ' || byte == b'\t'
}

/// Returns the bytes without the spaces and tabs at their start.
fn without_front(bytes: &[u8]) -> &[u8]
    ensures { result.now ≡ skip_ows bytes.now }
{
    let mut start = 0;
    while start < bytes.len() && is_blank(bytes[start]) {
        start += 1;
    }
    &bytes[start..]
}
