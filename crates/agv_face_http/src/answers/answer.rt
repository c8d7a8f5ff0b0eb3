//! Writing the bytes of an answer.
ghost use Rattle.std.specs.Prelude.{◌≡◌, ◌≤◌, ◌+◌, ◌++◌, length, IfOk, IsOk, OnOk, OnErr, vec_len, vec_capacity};
ghost use Rattle.agv_face_http.specs.answers.Answers.{answer_text};

use crate::answers::content::put_parts;
use agv_desk::Answer;
use agv_header::Memory;
use std::alloc::Global;

/// Appends the bytes of an answer. With `close` the answer says that the stream ends after it. It allocates nothing if
/// the answer fits in `out`.
///
/// `Memory` when out of memory; `out` is then unchanged.
pub fn put_answer(answer: &Answer, close: bool, out: &mut Vec<u8>) -> Result<(), Memory>
    ensures text { OnOk result (out.new.items ≡ out.old.items ++ answer_text answer.now close) }
    ensures unchanged { OnErr result (out.new.items ≡ out.old.items) }
    ensures fits { vec_len out.old + length (answer_text answer.now close) ≤ vec_capacity out.old → IsOk result }
    ensures grown { vec_capacity out.old ≤ vec_capacity out.new }
{
    let start = out.len();
    match put_parts(out, answer, close) {
        Ok(()) => Ok(()),
        Err(refused) => {
            out.truncate(start);
            Err(refused)
        }
    }
}

/// Returns the bytes of an answer. With `close` the answer says that the stream ends after it.
///
/// `Memory` when out of memory.
pub fn answer_bytes(alloc: Global, answer: &Answer, close: bool) -> Result<Vec<u8>, Memory>
    ensures { IfOk result (λ bytes. bytes.items ≡ answer_text answer.now close) }
{
    let mut bytes = Vec::new(alloc);
    put_answer(answer, close, &mut bytes)?;
    Ok(bytes)
}
