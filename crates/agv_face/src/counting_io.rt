//! A reader or a writer whose calls and failures are counted.
ghost use Rattle.std.specs.Prelude.{◌≡◌, ◌==◌, ◌&&◌, ◌<◌, ◌⊎◌, not, length, IfOk, OnOk, OnErr, if◌then◌else◌};
ghost use Rattle.std.specs.Io.{ReadsAtMost, WritesAtMost};
ghost use Rattle.std.specs.Io.KnownBytes.{Keeps, ReadConsumes, WriteAppends};
ghost use Rattle.agv_face.specs.CountingIo.{counted};

use std::io::{self, Read, Write};

/// A reader or a writer, with the number of its calls so far and of those that failed.
///
/// A call fails where it returns an error, and a write also where it takes none of at least one byte. So a clause can
/// say that a stream ended with a fault of its reader because the reader failed. Both numbers stay at `u64::MAX` once
/// they reach it.
#[derive(Drop)]
pub struct CountingIo<T> {
    inner: T,
    calls: u64,
    failures: u64,
}

impl<T> CountingIo<T> {
    ghost use Rattle.agv_face.specs.CountingIo.{inner_of, calls_of, failures_of};

    /// Wraps a reader or a writer, with no calls yet.
    pub fn new(inner: T) -> CountingIo<T>
        ensures inner { inner_of result ≡ inner }
        ensures calls { calls_of result ≡ 0 }
        ensures failures { failures_of result ≡ 0 }
    {
        CountingIo {
            inner,
            calls: 0,
            failures: 0,
        }
    }

    /// Returns the wrapped reader or writer.
    pub fn inner(&self) -> &T
        ensures { result.now ≡ inner_of self.now }
    {
        &self.inner
    }

    /// Returns the number of its calls.
    pub fn calls(&self) -> u64
        ensures { result ≡ calls_of self.now }
    {
        self.calls
    }

    /// Returns the number of its failed calls.
    pub fn failures(&self) -> u64
        ensures { result ≡ failures_of self.now }
    {
        self.failures
    }

    /// Counts a call.
    fn count(&mut self, failed: bool)
        ensures inner { inner_of self.new ≡ inner_of self.old }
        ensures calls { calls_of self.new ≡ counted (calls_of self.old) 1 }
        ensures failures { failures_of self.new ≡ (if failed then counted (failures_of self.old) 1 else failures_of self.old) }
    {
        add_one(&mut self.calls);
        if failed {
            add_one(&mut self.failures);
        }
    }
}

impl<R: Read> Read for CountingIo<R> {
    ghost use Rattle.agv_face.specs.CountingIo.{inner_of, HadCall, FailedOnce, FailedNever};

    ghost remaining = { λ counting. R.remaining (inner_of counting) };

    fn read(&mut self, buf: &mut [u8]) -> io::Result<usize>
        ensures bound { ReadsAtMost result buf.new }
        ensures bytes { ReadConsumes (R.remaining (inner_of self.old)) (R.remaining (inner_of self.new)) result buf.new }
        ensures calls { HadCall self.old self.new }
        ensures gave { OnOk result (FailedNever self.old self.new) }
        ensures failed { OnErr result (FailedOnce self.old self.new) }
    {
        let read = self.inner.read(buf);
        self.count(read.is_err());
        read
    }
}

impl<W: Write> Write for CountingIo<W> {
    ghost use Rattle.agv_face.specs.CountingIo.{inner_of, HadCall, FailedOnce, FailedNever};

    ghost contents = { λ counting. W.contents (inner_of counting) };

    fn write(&mut self, buf: &[u8]) -> io::Result<usize>
        ensures bound { WritesAtMost result buf.now }
        ensures bytes { WriteAppends (W.contents (inner_of self.old)) (W.contents (inner_of self.new)) result buf.now }
        ensures calls { HadCall self.old self.new }
        ensures took { IfOk result (λ n. (0 < n) ⊎ (length buf.now ≡ 0) → FailedNever self.old self.new) }
        ensures took_none { IfOk result (λ n. n ≡ 0 → 0 < length buf.now → FailedOnce self.old self.new) }
        ensures failed { OnErr result (FailedOnce self.old self.new) }
    {
        let written = self.inner.write(buf);
        let failed = match &written {
            Ok(n) => took_none(*n, buf),
            Err(_) => true,
        };
        self.count(failed);
        written
    }

    fn flush(&mut self) -> io::Result<()>
        ensures bytes { Keeps (W.contents (inner_of self.old)) (W.contents (inner_of self.new)) }
        ensures calls { HadCall self.old self.new }
        ensures passed { OnOk result (FailedNever self.old self.new) }
        ensures failed { OnErr result (FailedOnce self.old self.new) }
    {
        let flushed = self.inner.flush();
        self.count(flushed.is_err());
        flushed
    }
}

/// Adds one, up to `u64::MAX`.
fn add_one(number: &mut u64)
    ensures { number.new ≡ counted number.old 1 }
{
    *number = number.saturating_add(1);
}

/// Returns whether a write that took `n` of the bytes took none of at least one byte.
fn took_none(n: usize, bytes: &[u8]) -> bool
    ensures { result ≡ (n == 0 && not (length bytes.now == 0)) }
{
    n == 0 && !bytes.is_empty()
}
