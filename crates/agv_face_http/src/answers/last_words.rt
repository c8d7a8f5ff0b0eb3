//! The answers with which the stream ends at a fault of the machine.
ghost use Rattle.std.specs.Prelude.{◌≡◌, ℕ, List, true};
ghost use Rattle.agv_desk.specs.declared.answer.Answer.TheVariants as answer;
ghost use Rattle.agv_header.specs.declared.refusal.Refusal.TheVariants as refusal;
ghost use Rattle.agv_face_http.specs.answers.Answers.{answer_text};

/// Returns the bytes of the answer when out of memory, after which the stream ends. It allocates nothing.
pub fn memory_answer() -> &'static [u8]
    ensures { result.now ≡ answer_text (answer.Refused refusal.Memory) true }
{
    b"HTTP/1.1 503 Service Unavailable\r\nContent-Length: 30\r\nContent-Type: application/json\r\nConnection: close\r\n\r\n{\"name\":\"Memory\",\"refusal\":90}"
}

/// Returns the bytes of the answer when the store has failed, after which the stream ends. It allocates nothing.
pub fn storage_answer() -> &'static [u8]
    ensures { result.now ≡ answer_text (answer.Refused refusal.Storage) true }
{
    b"HTTP/1.1 503 Service Unavailable\r\nContent-Length: 31\r\nContent-Type: application/json\r\nConnection: close\r\n\r\n{\"name\":\"Storage\",\"refusal\":91}"
}
