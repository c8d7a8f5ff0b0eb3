//! Serving a connection over the network.

use crate::ways::{Way, in_memory};
use agv_app_run::serve_next;
use agv_face::{Ended, Served};
use agv_store::Desk;
use sqlite::Alter;
use std::io::{self, Write};
use std::net::{TcpListener, TcpStream};
use std::process::Abort;

/// A query of a load, by a client that wants one answer and no more.
const REQUEST: &str = "GET /loads/L1 HTTP/1.0\r\n\r\n";

/// There is no such load; it is the last answer of its connection.
const ANSWER: &str = concat!(
    "HTTP/1.1 404 Not Found\r\nContent-Length: 30\r\nContent-Type: application/json\r\n",
    "Connection: close\r\n\r\n{\"name\":\"NoLoad\",\"refusal\":23}",
);

/// Returns a client that has connected and sent its request.
fn client_of(rt: &HostRuntime, ends: &impl Abort, listener: &TcpListener) -> TcpStream {
    let addr = listener.local_addr().expect(ends, "its address");
    let mut client = TcpStream::connect(rt, addr).expect(ends, "a connection");
    client
        .write_all(REQUEST.as_bytes())
        .expect(ends, "a request");
    client
}

/// Has the desk serve a connection on a free port.
pub(crate) fn serve_one<S: Alter + Drop>(rt: &HostRuntime, ends: &impl Abort, desk: &mut Desk<S>) {
    let mut listener = TcpListener::bind(rt, "127.0.0.1:0").expect(ends, "a port");
    let client = client_of(rt, ends, &listener);
    let served = serve_next(rt, rt.alloc(), desk, &mut listener);
    let ended = Ended::Close;
    let wanted = Served { answers: 1, ended };
    assert!(ends; served == Ok(Ok(wanted)), "the end of the connection");
    let answer = io::read_to_string(rt.alloc(), client).expect(ends, "an answer");
    assert!(ends; answer.as_str() == ANSWER, "the answer");
}

#[test]
fn a_connection_is_served(rt: HostRuntime) {
    in_memory(&rt, rt.alloc(), &Way::Connection(&rt));
}
