//! Serving a stream of requests, one after another.
ghost use Rattle.std.specs.Prelude.{◌≡◌, ◌<◌, ◌≤◌, [], IfOk, vec_capacity};
ghost use Rattle.agv_face.specs.StreamEnd.{EndsFailed, IsCounted, IsStreamEnd, most_reads};
ghost use Rattle.agv_face.specs.Refusals.{IsRefused};
ghost use Rattle.agv_face.specs.Replies.{IsLaterDesk};
ghost use Rattle.agv_face.specs.CountingIo.{HadCallsAtMost};
ghost use Rattle.agv_face_http.specs.answers.Sizes.{most_answer};

use crate::bytes::{LONGEST_REQUEST, behind, drop_front, read_some, write_whole};
use crate::counting_io::CountingIo;
use crate::next::{Next, serve_request};
use crate::stream_end::{Ended, Served, StreamFault};
use agv_face_http::laws::streams::{answers_in_turn, hears_how_it_goes_on};
use agv_face_http::{Routes, memory_answer, storage_answer};
use agv_header::{Memory, Moment, Refusal};
use agv_store::Desk;
use agv_store::laws::crashes_leave_before_or_after;
use agv_world_core::Fault;
use sqlite::Alter;
use std::alloc::Global;
use std::io::{Read, Write};

/// The most reads of a stream whose caller sets no limit.
const MAX_READS: u64 = 16_777_216;

/// The most reads that any stream may have, so that a `u64` can count the answers.
const READS_AT_ALL: u64 = 4_503_599_627_370_495;

/// The bytes that are reserved for an answer: enough for each answer to a call that changes something.
const LONGEST_ANSWER: usize = 131_072;

/// The memory of a stream: the table of routes, the bytes that have arrived and aren't served yet, and the bytes of the
/// next answer.
#[derive(Drop)]
struct Buffers {
    routes: Routes,
    input: Vec<u8>,
    output: Vec<u8>,
}

/// Serves a stream of requests, each at this moment, with at most 16,777,216 reads, as [`serve_stream_within`] does.
pub fn serve_stream<S: Alter + Drop, R: Read, W: Write>(
    alloc: Global,
    desk: &mut Desk<S>,
    at: Moment,
    reader: &mut CountingIo<R>,
    writer: &mut CountingIo<W>,
) -> Result<Served, StreamFault>
    ensures ends { IsStreamEnd S.Store R.remaining W.contents at 16777216 desk.old desk.new reader.old reader.new writer.old writer.new result }
    ensures counts { IsCounted S.Store R.remaining W.contents at desk.old desk.new reader.old reader.new writer.old writer.new result }
    ensures later { IsLaterDesk S.Store desk.old desk.new }
    ensures failed { EndsFailed desk.old.failed desk.new.failed result }
    ensures reads { HadCallsAtMost 16777216 reader.old reader.new }
{
    serve_stream_within(alloc, desk, at, reader, writer, MAX_READS)
}

/// Serves a stream of requests, each at this moment, with at most this many reads, and never more than
/// 4,503,599,627,370,495.
///
/// Memory for the longest request and for the answer to each call that changes something is reserved before the first
/// call. Each request is served once it has arrived completely, and its answer is written before the next one is read.
/// A call is committed before it is answered.
///
/// `IsStreamEnd` (`specs/StreamEnd.antt`) specifies for each end which input has arrived, what was written, and which
/// world the desk then knows. What was written is the output of `agv_face_http`, complete, or a prefix of it, or a
/// prefix of it and the refusal for a fault of the machine. Whether the store has failed as the stream ends follows
/// from the end (`failed`). No clause says that an answer is written before more is read; a test does.
///
/// Which requests were answered, and how many, is specified whatever the disk answers (`counts`), and so is what their
/// calls did to the desk (`specs/StreamCalls.antt`): a call is answered only by a desk that knew a lawful world, and a
/// crash leaves the rows of the world after the requests that were answered, or after a fault of the machine possibly
/// those after one more request. A request whose answer is cut short is done. At each other end, the store is open and
/// the desk knows the world afterwards if a call was answered; otherwise the desk is unchanged.
///
/// However the stream ends, the store is still open if it was open before, unless its disk had a fault meanwhile, and
/// if it is open it was open before: so another stream can go on from the world that is known (`later`, and
/// [`laws::streams_leave_the_store_open`](crate::laws::streams_leave_the_store_open)). A desk that had failed before is
/// unchanged and serves no call: the first one is answered `Storage`, and the stream ends.
///
/// # Errors
/// `Read` where a read failed, or the most reads were made and one more is needed. `Write` where a write failed or took
/// no byte. The desk can go on after both.
/// byte. The desk can go on after both.
pub fn serve_stream_within<S: Alter + Drop, R: Read, W: Write>(
    alloc: Global,
    desk: &mut Desk<S>,
    at: Moment,
    reader: &mut CountingIo<R>,
    writer: &mut CountingIo<W>,
    max_reads: u64,
) -> Result<Served, StreamFault>
    ensures ends { IsStreamEnd S.Store R.remaining W.contents at max_reads desk.old desk.new reader.old reader.new writer.old writer.new result }
    ensures counts { IsCounted S.Store R.remaining W.contents at desk.old desk.new reader.old reader.new writer.old writer.new result }
    ensures later { IsLaterDesk S.Store desk.old desk.new }
    ensures failed { EndsFailed desk.old.failed desk.new.failed result }
    ensures reads { HadCallsAtMost (most_reads max_reads) reader.old reader.new }
{
    hears_how_it_goes_on();
    answers_in_turn();
    crashes_leave_before_or_after::<S>();
    desk.knows();
    let _calls = reader.calls();
    match reserve(alloc) {
        Ok(buffers) => {
            let mut buffers = buffers;
            serve_requests(alloc, &mut buffers, desk, at, reader, writer, max_reads)
        }
        Err(_) => refuse(writer, Fault::Memory, 0),
    }
}

/// Reserves the memory that a stream needs, before its first call.
fn reserve(alloc: Global) -> Result<Buffers, Memory>
    ensures none { IfOk result (λ buffers. buffers.input.items ≡ []) }
    ensures input { IfOk result (λ buffers. 73728 ≤ vec_capacity buffers.input) }
    ensures output { IfOk result (λ buffers. most_answer ≤ vec_capacity buffers.output) }
{
    Ok(Buffers {
        routes: Routes::new(alloc)?,
        input: Vec::with_capacity(alloc, LONGEST_REQUEST)?,
        output: Vec::with_capacity(alloc, LONGEST_ANSWER)?,
    })
}

/// Serves requests, one after another, to the end of the stream.
fn serve_requests<S: Alter + Drop, R: Read, W: Write>(
    alloc: Global,
    buffers: &mut Buffers,
    desk: &mut Desk<S>,
    at: Moment,
    reader: &mut CountingIo<R>,
    writer: &mut CountingIo<W>,
    max_reads: u64,
) -> Result<Served, StreamFault>
    requires none { buffers.old.input.items ≡ [] }
    requires input { 73728 ≤ vec_capacity buffers.old.input }
    requires output { most_answer ≤ vec_capacity buffers.old.output }
    ensures ends { IsStreamEnd S.Store R.remaining W.contents at max_reads desk.old desk.new reader.old reader.new writer.old writer.new result }
    ensures counts { IsCounted S.Store R.remaining W.contents at desk.old desk.new reader.old reader.new writer.old writer.new result }
    ensures later { IsLaterDesk S.Store desk.old desk.new }
    ensures failed { EndsFailed desk.old.failed desk.new.failed result }
    ensures reads { HadCallsAtMost (most_reads max_reads) reader.old reader.new }
{
    hears_how_it_goes_on();
    answers_in_turn();
    crashes_leave_before_or_after::<S>();
    let most = max_reads.min(READS_AT_ALL);
    let mut ended = false;
    let mut reads = 0;
    let mut answers = 0;
    // The number of arrived bytes that are served; they are dropped before the next read.
    let mut served = 0;
    loop {
        let next = serve_request(
            alloc,
            &buffers.routes,
            desk,
            at,
            behind(&buffers.input, served),
            ended,
            &mut buffers.output,
        );
        desk.knows();
        match next {
            Ok(Next::End) => {
                return Ok(Served {
                    answers,
                    ended: Ended::End,
                });
            }
            Ok(Next::Need) => {
                if reads == most {
                    return Err(StreamFault::Read { answers });
                }
                reads += 1;
                drop_front(&mut buffers.input, served);
                served = 0;
                match read_some(reader, &mut buffers.input) {
                    Ok(more) => ended = !more,
                    Err(_) => return Err(StreamFault::Read { answers }),
                }
            }
            Ok(Next::Request { len, close }) => {
                if !write_whole(writer, &buffers.output) {
                    return Err(StreamFault::Write { answers });
                }
                answers += 1;
                if close {
                    return Ok(Served {
                        answers,
                        ended: Ended::Close,
                    });
                }
                served += len;
            }
            Ok(Next::Fault(why)) => {
                if !write_whole(writer, &buffers.output) {
                    return Err(StreamFault::Write { answers });
                }
                return Ok(Served {
                    answers: answers + 1,
                    ended: Ended::Refused(why),
                });
            }
            Err(fault) => return refuse(writer, fault, answers),
        }
    }
}

/// Ends a stream, after this many answers, with the refusal for a fault of the machine. It allocates nothing.
fn refuse<W: Write>(
    writer: &mut CountingIo<W>,
    fault: Fault,
    answers: u64,
) -> Result<Served, StreamFault>
    requires { answers < 18446744073709551615 }
    ensures { IsRefused W.contents writer.old writer.new fault answers result }
{
    let (bytes, why) = match fault {
        Fault::Memory => (memory_answer(), Refusal::Memory),
        Fault::Storage => (storage_answer(), Refusal::Storage),
    };
    if write_whole(writer, bytes) {
        Ok(Served {
            answers: answers + 1,
            ended: Ended::Refused(why),
        })
    } else {
        Err(StreamFault::Write { answers })
    }
}
