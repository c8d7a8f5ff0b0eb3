//! Serving connections over the network, one after another.
use crate::outcome::{NextFault, RunFault};
use agv_face::{CountingIo, Served, StreamFault, serve_stream};
use agv_header::Moment;
use agv_store::Desk;
use sqlite::Alter;
use std::alloc::Global;
use std::io::{self, Write};
use std::net::{Ipv4Addr, SocketAddr, SocketAddrV4, TcpListener, TcpStream};
use std::time::{Duration, SystemTime, UNIX_EPOCH};

/// How long a read or a write of a connection may wait for its client, in seconds.
pub const MAX_WAIT_SECONDS: u64 = 10;

/// Listens on the port of this machine, prints which it is, and serves connections by this desk.
pub(crate) fn serve<S: Alter + Drop, W: Write>(
    rt: &HostRuntime,
    alloc: Global,
    desk: &mut Desk<S>,
    port: u16,
    connections: u32,
    writer: &mut CountingIo<W>,
) -> Result<(), RunFault> {
    let mut listener = listener_at(rt, port, writer)?;
    serve_connections(rt, alloc, desk, &mut listener, connections)
}

/// Listens on the port of this machine, and prints which it is.
fn listener_at<W: Write>(
    rt: &HostRuntime,
    port: u16,
    writer: &mut CountingIo<W>,
) -> Result<TcpListener, RunFault> {
    let local = SocketAddr::V4(SocketAddrV4::new(Ipv4Addr::LOCALHOST, port));
    let Ok(listener) = TcpListener::bind(rt, local) else {
        return Err(RunFault::Net);
    };
    let Ok(bound) = listener.local_addr() else {
        return Err(RunFault::Net);
    };
    let said = writeln!(writer, "listening on 127.0.0.1:{}", bound.port());
    if said.is_err() || writer.flush().is_err() {
        return Err(RunFault::Write);
    }
    Ok(listener)
}

/// Serves this many connections, one after another. A fault of a connection ends that connection; a fault of the store
/// or in accepting a connection, or of the clock, ends the program.
fn serve_connections<S: Alter + Drop>(
    rt: &HostRuntime,
    alloc: Global,
    desk: &mut Desk<S>,
    listener: &mut TcpListener,
    connections: u32,
) -> Result<(), RunFault> {
    for _ in 0..connections {
        let _ = serve_next(rt, alloc, desk, listener)?;
        if desk.failed() {
            return Err(RunFault::Storage);
        }
    }
    Ok(())
}

/// Accepts one connection, and serves its requests at the moment at which it is accepted. The connection ends with a
/// fault if for `MAX_WAIT_SECONDS` nothing comes from its client, or the system takes nothing more of an answer.
///
/// # Errors
/// `Net` if no connection can be accepted, `Clock` if the clock is not between 1970 and 2099.
pub fn serve_next<S: Alter + Drop>(
    rt: &HostRuntime,
    alloc: Global,
    desk: &mut Desk<S>,
    listener: &mut TcpListener,
) -> Result<Result<Served, StreamFault>, NextFault> {
    let Ok((stream, _)) = listener.accept() else {
        return Err(NextFault::Net);
    };
    let Some(at) = moment_now(rt) else {
        return Err(NextFault::Clock);
    };
    Ok(serve_connection(alloc, desk, at, &stream))
}

/// Serves the requests of this connection, all at this moment.
fn serve_connection<S: Alter + Drop>(
    alloc: Global,
    desk: &mut Desk<S>,
    at: Moment,
    stream: &TcpStream,
) -> Result<Served, StreamFault> {
    if limit_waits(stream).is_err() {
        return Err(StreamFault::Read { answers: 0 });
    }
    let mut reader = CountingIo::new(stream);
    let mut writer = CountingIo::new(stream);
    serve_stream(alloc, desk, at, &mut reader, &mut writer)
}

/// Limits how long a read and a write of the connection may wait.
fn limit_waits(stream: &TcpStream) -> io::Result<()> {
    let most = Some(Duration::from_secs(MAX_WAIT_SECONDS));
    stream.set_read_timeout(most)?;
    stream.set_write_timeout(most)
}

/// Returns the current moment, if the clock is between 1970 and 2099.
fn moment_now(rt: &HostRuntime) -> Option<Moment> {
    let Ok(now) = SystemTime::now(rt) else {
        return None;
    };
    let Ok(since) = now.duration_since(UNIX_EPOCH) else {
        return None;
    };
    match i64::try_from(since.as_millis()) {
        Ok(ms) => Moment::of(ms),
        Err(_) => None,
    }
}
