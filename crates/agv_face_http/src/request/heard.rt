//! What is heard next on a stream: a request with its method, a fault, the end, or that more bytes are needed.
ghost use Rattle.std.specs.Prelude.{◌≡◌, ◌≤◌, ◌<◌, length, IfOk, IfErr, IsOk};
ghost use Rattle.http_header.specs.Token.{IsToken};
ghost use Rattle.agv_face_http.specs.request.Heard.{IsHeard, HasLongMethod};

use crate::request::next::{Next, RawRequest, next_request};
use agv_header::{Memory, Refusal};
use http::Method;
use http::method::MethodError;
use std::alloc::Global;

/// A request, borrowed from the bytes in which it arrived.
#[derive(Drop)]
pub struct RequestRef<'b> {
    /// The token that the head begins with. It is case-sensitive.
    pub method: Method,
    /// The target, not decoded.
    pub target: &'b [u8],
    pub body: &'b [u8],
    /// Whether it is the last of its stream: HTTP/1.0, or an element `close` of a Connection line.
    pub close: bool,
    /// How many bytes the request has.
    pub len: usize,
}

/// What is heard of the next request on a stream.
#[derive(Drop)]
pub enum Heard<'b> {
    /// More bytes are needed.
    Need,
    /// The stream has ended, and no byte is left.
    End,
    Request(RequestRef<'b>),
    /// What is left begins with no request: `BadHead`, `NoLength`, `TooLarge` or `Coding`. What follows is ignored.
    Fault(Refusal),
}

/// Returns the next request that the bytes begin with, or why there is none yet, or none at all. `ended` says that no
/// byte follows.
///
/// Fewer than 73,728 bytes have arrived where more are needed. `http` keeps a method of up to 15 bytes without
/// allocating, so `Memory` comes only where a request has a longer one.
pub fn read_request(alloc: Global, buf: &[u8], ended: bool) -> Result<Heard<'_>, Memory>
    ensures heard { IfOk result (λ heard. IsHeard buf.now ended heard) }
    ensures long { IfErr result (λ _. HasLongMethod buf.now) }
{
    match next_request(buf, ended) {
        Next::Need => Ok(Heard::Need),
        Next::End => Ok(Heard::End),
        Next::Fault(refusal) => Ok(Heard::Fault(refusal)),
        Next::Request(next) => Ok(Heard::Request(with_method(alloc, &next)?)),
    }
}

/// Returns the request with its method.
fn with_method<'b>(alloc: Global, next: &RawRequest<'b>) -> Result<RequestRef<'b>, Memory>
    requires { IsToken next.now.method.now }
    ensures parts { IfOk result (λ lent. (lent.method ≡ next.now.method.now) × (lent.target.now ≡ next.now.target.now) × (lent.body.now ≡ next.now.body.now) × (lent.close ≡ next.now.close) × (lent.len ≡ next.now.len)) }
    ensures short { length next.now.method.now ≤ 15 → IsOk result }
{
    Ok(RequestRef {
        method: method_of(alloc, next.method)?,
        target: next.target,
        body: next.body,
        close: next.close,
        len: next.len,
    })
}

/// Returns the method that a token is.
fn method_of(alloc: Global, token: &[u8]) -> Result<Method, Memory>
    requires { IsToken token.now }
    ensures method { IfOk result (λ method. method ≡ token.now) }
    ensures short { length token.now ≤ 15 → IsOk result }
{
    match Method::from_bytes(alloc, token) {
        Ok(method) => Ok(method),
        Err(MethodError::OutOfMemory) => Err(Memory),
        Err(MethodError::Invalid) => unreachable!(),
    }
}
