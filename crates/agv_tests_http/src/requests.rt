//! Requests as their bytes arrive, with what is heard of each worked out by hand. In a line `~` is CR LF.

use crate::cases::{check_text, row, unmarked};
use agv_face_http::{Heard, RequestRef, read_request};
use std::alloc::Global;
use std::process::Abort;
use std::str;

/// Prints a request: the method and the target, the body between two marks, whether the stream ends after it, and how
/// many bytes it has.
fn request_text(rt: &impl Abort, alloc: Global, request: &RequestRef<'_>) -> String {
    let method = request.method.as_str();
    let target = str::from_utf8(request.target).expect(rt, "target");
    let body = str::from_utf8(request.body).expect(rt, "body");
    let ends = if request.close { "close" } else { "open" };
    format!(in alloc; "{method} {target} `{body}` {ends} {}", request.len).expect(rt, "memory")
}

/// Prints what is heard.
fn heard_text(rt: &impl Abort, alloc: Global, heard: &Heard<'_>) -> String {
    let said = match heard {
        Heard::Need => "need",
        Heard::End => "end",
        Heard::Request(request) => return request_text(rt, alloc, request),
        Heard::Fault(refusal) => refusal.name(),
    };
    String::from_str(alloc, said).expect(rt, "memory")
}

/// Returns what is heard of the bytes, where more may come or the input has ended.
fn heard(rt: &impl Abort, alloc: Global, bytes: &str, ended: bool) -> String {
    let heard = read_request(alloc, bytes.as_bytes(), ended).expect(rt, "memory");
    heard_text(rt, alloc, &heard)
}

/// Checks what is heard of the bytes of one line.
fn check_line(rt: &impl Abort, alloc: Global, line: &str, ended: bool) {
    let (text, wanted) = row(rt, line);
    let bytes = unmarked(rt, alloc, text, '~', "\r\n");
    check_text(
        rt,
        heard(rt, alloc, bytes.as_str(), ended).as_str(),
        wanted,
        text,
    );
}

/// Checks what is heard of the bytes of each line of a table.
fn check_rows(rt: &impl Abort, alloc: Global, table: &str, ended: bool) {
    for line in table.lines() {
        check_line(rt, alloc, line, ended);
    }
}

/// Requests of each form, one of them with a method that needs memory, and then Connection lines.
const WHOLE: &str = "\
GET /loads/L1 HTTP/1.1~~ => GET /loads/L1 `` open 26
POST /loads HTTP/1.1~Content-Length: 13~~{\"load\":\"L1\"}GET /lo => POST /loads `{\"load\":\"L1\"}` open 57
POST /loads?a=b%20 HTTP/1.1~CONTENT-length:  00000000000000000013\t~~{\"load\":\"L1\"} => POST /loads?a=b%20 `{\"load\":\"L1\"}` open 84
DELETE /jobs/J1 HTTP/1.1~Content-Length: 2~~{} => DELETE /jobs/J1 `{}` open 49
post / HTTP/1.1~~ => post / `` open 19
SIXTEEN-LETTERS- / HTTP/1.1~~ => SIXTEEN-LETTERS- / `` open 31
GET / HTTP/1.0~~ => GET / `` close 18
GET / HTTP/1.0~Connection: keep-alive~~ => GET / `` close 42
GET /loads/L1 HTTP/1.1~Connection: close~~ => GET /loads/L1 `` close 45
GET /loads/L1 HTTP/1.1~Connection: Close~~ => GET /loads/L1 `` close 45
GET /loads/L1 HTTP/1.1~Connection: keep-alive, \tCLOSE ,upgrade~~ => GET /loads/L1 `` close 67
GET /loads/L1 HTTP/1.1~Connection: ,close~~ => GET /loads/L1 `` close 46
GET /loads/L1 HTTP/1.1~Connection: close,~~ => GET /loads/L1 `` close 46
GET /loads/L1 HTTP/1.1~Connection: keep-alive~~ => GET /loads/L1 `` open 50
GET /loads/L1 HTTP/1.1~Connection: closed~~ => GET /loads/L1 `` open 46
GET /loads/L1 HTTP/1.1~Connection: clos~~ => GET /loads/L1 `` open 44
GET /loads/L1 HTTP/1.1~Connection: not close~~ => GET /loads/L1 `` open 49
GET /loads/L1 HTTP/1.1~Connection: close;~~ => GET /loads/L1 `` open 46
GET /loads/L1 HTTP/1.1~Connection: \"close\"~~ => GET /loads/L1 `` open 47
GET /loads/L1 HTTP/1.1~Connection: ~~ => GET /loads/L1 `` open 40
GET /loads/L1 HTTP/1.1~Connection: ,~~ => GET /loads/L1 `` open 41
GET /loads/L1 HTTP/1.1~connection: keep-alive~CONNECTION:close~~ => GET /loads/L1 `` close 68
GET /loads/L1 HTTP/1.1~Connection: keep-alive~Proxy-Connection: close~~ => GET /loads/L1 `` open 75
";

/// No head, a head with a wrong length, and then the faults that are found after these, in this order.
const FAULTY: &str = r#"POST /load => BadHead
GET /loads HTTP/1.1~ => BadHead
GET  /loads HTTP/1.1~~ => BadHead
GET /loads HTTP/2.0~~ => BadHead
GET /loads~~ => BadHead
~GET /loads => BadHead
POST /loads HTTP/1.1~Content-Length: 13~~{"loa => BadHead
POST / HTTP/1.1~Content-Length: 2~Content-Length: 2~~{} => BadHead
GET / HTTP/1.1~Content-Length:~~ => BadHead
GET / HTTP/1.1~Content-Length: +2~~{} => BadHead
GET / HTTP/1.1~Content-Length: 2, 2~~{} => BadHead
GET / HTTP/1.1~Content-Length: x~Transfer-Encoding: chunked~~ => BadHead
POST / HTTP/1.1~transfer-encoding: chunked~~ => Coding
POST / HTTP/1.1~Transfer-Encoding: identity~Content-Length: 65537~~ => Coding
POST / HTTP/1.1~~ => NoLength
PUT / HTTP/1.0~~ => NoLength
PUT / HTTP/1.1~Content-Length: 65537~~ => TooLarge
GET / HTTP/1.1~Content-Length: 18446744073709551617~~ => TooLarge
 => end
"#;

/// Bytes that more may follow.
const OPEN: &str = r#"POST /load => need
 => need
G => need
GET /loads HTTP/1.1~ => need
POST /loads HTTP/1.1~Content-Length: 13~~{"load":"L1" => need
POST / HTTP/1.1~Content-Length: 65536~~ => need
"#;

#[test]
fn heard_as_they_come(rt: HostRuntime) {
    check_rows(&rt, rt.alloc(), WHOLE, false);
    check_rows(&rt, rt.alloc(), WHOLE, true);
    check_rows(&rt, rt.alloc(), FAULTY, true);
    check_rows(&rt, rt.alloc(), OPEN, false);
}

/// Checks what is heard of a first part, an item repeated this many times, and a last part.
fn check_large(
    rt: &impl Abort,
    alloc: Global,
    parts: (&str, &str, &str),
    times: usize,
    wanted: &str,
) {
    let (first, item, last) = parts;
    let items = item.repeat(alloc, times).expect(rt, "memory");
    let text = format!(in alloc; "{first}{items}{last}").expect(rt, "memory");
    let found = heard(rt, alloc, text.as_str(), false);
    check_text(rt, found.as_str(), wanted, first);
}

/// Reads a head of 32 header lines and one of 33, a head of 8,192 bytes and a longer one, and the largest body.
#[test]
fn largest(rt: HostRuntime) {
    let alloc = rt.alloc();
    let lines = ("GET / HTTP/1.1\r\n", "A: b\r\n", "\r\n");
    check_large(&rt, alloc, lines, 32, "GET / `` open 210");
    check_large(&rt, alloc, lines, 33, "BadHead");
    let value = ("GET / HTTP/1.1\r\nA:", "b", "\r\n\r\n");
    check_large(&rt, alloc, value, 8170, "GET / `` open 8192");
    check_large(&rt, alloc, value, 8171, "BadHead");
    let body = " ".repeat(alloc, 65536).expect(&rt, "memory");
    let wanted = format!(in alloc; "PUT / `{body}` open 65577").expect(&rt, "memory");
    let head = ("PUT / HTTP/1.1\r\nContent-Length: 65536\r\n\r\n", " ", "");
    check_large(&rt, alloc, head, 65536, wanted.as_str());
}
