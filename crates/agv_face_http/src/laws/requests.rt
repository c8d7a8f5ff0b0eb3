//! Laws of how an input is cut into requests, whatever the code does. Each function except [`has_a_cut`] does nothing:
//! its clause is the law.
ghost use Rattle.std.specs.Prelude.{◌≡◌, ◌++◌, ℕ, Bool, List, Err};
ghost use Rattle.httparse.specs.Grammar.{RequestHead};
ghost use Rattle.agv_header.specs.declared.refusal.Refusal.{Refusal};
ghost use Rattle.agv_face_http.specs.declared.request.heard.Heard.{Heard};
ghost use Rattle.agv_face_http.specs.declared.request.heard.Heard.TheVariants as heard;
ghost use Rattle.agv_face_http.specs.request.Requests.{Request, IsRequest, BeginsWith, NeedsMore, body_length, lines_of};
ghost use Rattle.agv_face_http.specs.request.Cut.{Cut, Ending};
ghost use Rattle.agv_face_http.specs.request.Heard.{IsHeard, Follows};
ghost use Rattle.agv_face_http.specs.request.Starts.{Start, StartsWith, Tells};

use crate::request::next::{Next, next_request};

/// Proves that an input has one start: a request with its bytes, a fault, or no byte at all.
pub fn starts_one_way()
    ensures { (input : List ℕ) (one other : Start) → StartsWith input one → StartsWith input other → one ≡ other }
{}

/// Proves that what is heard, unless more bytes are needed, is the start of the input, whatever follows the buffer.
pub fn hears_the_start()
    ensures { (buf more : List ℕ) (ended : Bool) (told : Heard) → IsHeard buf ended told → Follows ended more
        → (told ≡ heard.Need → ⊥) → (start : Start) × StartsWith (buf ++ more) start × Tells buf told start }
{}

/// Proves that each input that fits in memory is cut into requests; the body goes from one to the next.
pub fn has_a_cut(input: &[u8])
    ensures { (requests : List Request) × (ending : Ending) × Cut input.now requests ending }
{
    let mut rest = input;
    while let Next::Request(request) = next_request(rest, true) {
        let (_, behind) = rest.split_at(request.len);
        rest = behind;
    }
}

/// Proves that an input is cut into requests in one way, and ends in one way.
pub fn is_cut_one_way()
    ensures { (input : List ℕ) (requests others : List Request) (ending other : Ending)
        → Cut input requests ending → Cut input others other → (requests ≡ others) × (ending ≡ other) }
{}

/// Proves that bytes that need more begin with no whole request, and with no head whose length is refused.
pub fn waits_for_what_is_lacking()
    ensures request { (bytes part rest : List ℕ) (request : Request)
        → NeedsMore bytes → bytes ≡ part ++ rest → IsRequest part request → ⊥ }
    ensures refusal { (bytes : List ℕ) (head : RequestHead) (rest : List ℕ) (fault : Refusal)
        → NeedsMore bytes → BeginsWith bytes head rest → body_length head.method (lines_of head) ≡ Err fault → ⊥ }
{}
