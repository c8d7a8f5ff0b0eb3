//! Reading bytes from a reader, and writing bytes to a writer.
ghost use Rattle.std.specs.Prelude.{◌≡◌, ◌≤◌, ◌<◌, ◌+◌, ◌++◌, drop, length, vec_len, vec_capacity, IfOk, OnErr};
ghost use Rattle.std.specs.Io.KnownBytes.{Keeps};
ghost use Rattle.agv_face.specs.Bytes.{IsPutWhole, IsRead};
ghost use Rattle.agv_face.specs.CountingIo.{FailedOnce, HadCall, inner_of};

use crate::counting_io::CountingIo;
use std::io::{Read, Write};

/// The longest request, its head and its body together, in bytes: no more are ever buffered.
pub(crate) const LONGEST_REQUEST: usize = 73_728;

/// The most bytes that one read asks for.
const ONE_READ: usize = 4096;

/// The reader failed.
#[derive(Clone, Copy)]
pub(crate) struct NotRead;

/// Writes all the bytes, and returns whether they were written. A write that takes no byte is a failure, and so is any
/// error.
pub fn write_whole<W: Write>(writer: &mut CountingIo<W>, bytes: &[u8]) -> bool
    ensures { IsPutWhole W.contents writer.old writer.new bytes.now result }
{
    let mut done = 0;
    while done < bytes.len() {
        match writer.write(&bytes[done..]) {
            Ok(0) => return false,
            Ok(n) => done += n,
            Err(_) => return false,
        }
    }
    true
}

/// Returns the bytes after the first `n`.
pub(crate) fn behind(buf: &Vec<u8>, n: usize) -> &[u8]
    requires { n ≤ vec_len buf.now }
    ensures { result.now ≡ drop n buf.now.items }
{
    &buf[n..]
}

/// Removes the first `n` bytes.
pub(crate) fn drop_front(buf: &mut Vec<u8>, n: usize)
    requires { n ≤ vec_len buf.old }
    ensures items { buf.new.items ≡ drop n buf.old.items }
    ensures capacity { vec_capacity buf.new ≡ vec_capacity buf.old }
{
    buf.rotate_left(n);
    buf.truncate(buf.len() - n);
}

/// Reads once, and appends the bytes to a buffer that has room for more of a request. Returns `false` at the end of the
/// input.
pub(crate) fn read_some<R: Read>(
    reader: &mut CountingIo<R>,
    buf: &mut Vec<u8>,
) -> Result<bool, NotRead>
    requires some { vec_len buf.old < 73728 }
    requires capacity { 73728 ≤ vec_capacity buf.old }
    ensures read { IfOk result (IsRead R.remaining reader.old reader.new buf.old.items buf.new.items) }
    ensures failed { OnErr result (FailedOnce reader.old reader.new × Keeps (R.remaining (inner_of reader.old)) (R.remaining (inner_of reader.new))) }
    ensures unchanged { OnErr result (buf.new.items ≡ buf.old.items) }
    ensures capacity { vec_capacity buf.old ≤ vec_capacity buf.new }
    ensures calls { HadCall reader.old reader.new }
{
    let mut chunk = [0; ONE_READ];
    let most = ONE_READ.min(LONGEST_REQUEST - buf.len());
    match reader.read(&mut chunk[..most]) {
        Ok(n) => {
            put_reserved(buf, &chunk[..n]);
            Ok(n > 0)
        }
        Err(_) => Err(NotRead),
    }
}

/// Appends bytes to a buffer that has capacity for them.
fn put_reserved(buf: &mut Vec<u8>, bytes: &[u8])
    requires { vec_len buf.old + length bytes.now ≤ vec_capacity buf.old }
    ensures items { buf.new.items ≡ buf.old.items ++ bytes.now }
    ensures capacity { vec_capacity buf.old ≤ vec_capacity buf.new }
{
    match buf.extend_from_slice(bytes) {
        Ok(()) => (),
        Err(_) => unreachable!(),
    }
}
