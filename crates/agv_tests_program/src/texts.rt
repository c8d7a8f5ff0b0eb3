//! Requests for the load L1, and the bytes of their answers.

use std::alloc::Global;
use std::process::Abort;

/// Registers the load L1, at the checking place.
pub(crate) const REGISTERS: &str =
    "POST /loads HTTP/1.1\r\nContent-Length: 13\r\n\r\n{\"load\":\"L1\"}";

/// Queries the load L1.
pub(crate) const ASKS: &str = "GET /loads/L1 HTTP/1.1\r\n\r\n";

/// The request is done.
pub(crate) const DONE: &str =
    "HTTP/1.1 200 OK\r\nContent-Length: 2\r\nContent-Type: application/json\r\n\r\n{}";

/// L1 is at the checking place.
pub(crate) const KNOWN: &str = concat!(
    "HTTP/1.1 200 OK\r\nContent-Length: 43\r\nContent-Type: application/json\r\n\r\n",
    "{\"job\":null,\"load\":\"L1\",\"place\":\"checking\"}",
);

/// There is no such load.
pub(crate) const UNKNOWN: &str = concat!(
    "HTTP/1.1 404 Not Found\r\nContent-Length: 30\r\nContent-Type: application/json\r\n\r\n",
    "{\"name\":\"NoLoad\",\"refusal\":23}",
);

/// Joins the texts.
pub(crate) fn joined(ends: &impl Abort, alloc: Global, texts: &[&str]) -> String {
    texts.concat(alloc).expect(ends, "memory")
}
