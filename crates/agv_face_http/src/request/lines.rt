//! The header lines of a request.
ghost use Rattle.std.specs.Prelude.{◌≡◌, ℕ, All, List, ◌++◌, ◌∷◌, [], length, map, min, true};
ghost use Rattle.std.specs.Str.Parse.{digits_value};
ghost use Rattle.httparse.specs.Spans.{IsHeaderWithin, header_bytes};
ghost use Rattle.agv_face_http.specs.request.Lines.{same_word, values_of, has_line, is_number, length_given, content_length};
ghost use Rattle.agv_face_http.specs.request.Found.{AreFound, found_length};

use crate::request::next::MAX_BODY_BYTES;
use agv_header::are_digits;
use httparse::spans::HeaderSpan;

// What each greater length is capped at.
const MORE_THAN_MAX_BODY_BYTES: u32 = MAX_BODY_BYTES + 1;

/// The values of the header lines of one name.
#[derive(Clone, Copy)]
pub(crate) enum Values<'b> {
    Absent,
    One(&'b [u8]),
    Several,
}

/// The length of the body in bytes, by the header lines. Lengths above 65,537 are capped at 65,537.
#[derive(Clone, Copy)]
pub(crate) enum FoundLength {
    Absent,
    Bytes(u32),
    Wrong,
}

/// Returns whether there is a line of that name.
pub(crate) fn is_there(buf: &[u8], headers: &[HeaderSpan], name: &[u8]) -> bool
    requires { All (IsHeaderWithin (length buf.now)) headers.now }
    ensures { result ≡ has_line name.now (map (header_bytes buf.now) headers.now) }
{
    !matches!(values_named(buf, headers, name), Values::Absent)
}

/// Reads the length of the body from the header lines.
pub(crate) fn read_length(buf: &[u8], headers: &[HeaderSpan]) -> FoundLength
    requires { All (IsHeaderWithin (length buf.now)) headers.now }
    ensures { result ≡ found_length (content_length (map (header_bytes buf.now) headers.now)) }
{
    length_of(values_named(buf, headers, b"content-length"))
}

/// Returns the length that the values of Content-Length give.
fn length_of(values: Values<'_>) -> FoundLength
    ensures { (found : List (List ℕ)) → AreFound found values.entry → result ≡ found_length (length_given found) }
{
    match values {
        Values::Absent => FoundLength::Absent,
        Values::One(value) => {
            if spells_number(value) {
                FoundLength::Bytes(capped(value))
            } else {
                FoundLength::Wrong
            }
        }
        Values::Several => FoundLength::Wrong,
    }
}

/// Returns whether the bytes are one or more digits.
fn spells_number(bytes: &[u8]) -> bool
    ensures { result ≡ is_number bytes.now }
{
    !bytes.is_empty() && are_digits(bytes)
}

/// Returns the number that the digits give, at most 65,537.
fn capped(digits: &[u8]) -> u32
    requires { is_number digits.now ≡ true }
    ensures { result ≡ min 65537 (digits_value 10 digits.now) }
{
    let mut n: u32 = 0;
    for digit in digits {
        n = (n * 10 + (*digit - b'0') as u32).min(MORE_THAN_MAX_BODY_BYTES);
    }
    n
}

/// Returns the values of the lines of that name, in any ASCII case.
fn values_named<'b>(buf: &'b [u8], headers: &[HeaderSpan], name: &[u8]) -> Values<'b>
    requires { All (IsHeaderWithin (length buf.now)) headers.now }
    ensures { AreFound (values_of name.now (map (header_bytes buf.now) headers.now)) result }
{
    let mut values = Values::Absent;
    for header in headers {
        if is_same_word(header.name.of(buf), name) {
            values = with_value(values, header.value.of(buf));
        }
    }
    values
}

/// Adds one more value.
fn with_value<'b>(values: Values<'b>, value: &'b [u8]) -> Values<'b>
    ensures { (found : List (List ℕ)) → AreFound found values.entry → AreFound (found ++ value.now ∷ []) result }
{
    match values {
        Values::Absent => Values::One(value),
        Values::One(_) => Values::Several,
        Values::Several => Values::Several,
    }
}

/// Returns whether the two are equal but for ASCII case.
pub(crate) fn is_same_word(name: &[u8], word: &[u8]) -> bool
    ensures { result ≡ same_word name.now word.now }
{
    name.eq_ignore_ascii_case(word)
}
