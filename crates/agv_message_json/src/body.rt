//! Bodies: JSON values whose numbers are all whole.
ghost use Rattle.std.specs.Prelude.{◌≡◌, false, Ok, Err, IfOk, IfErr};
ghost use Rattle.std.specs.Str.{is_utf8};
ghost use Rattle.serde_json.specs.Read.{read};
ghost use Rattle.serde_json.specs.View.{view, items_view, members_view};
ghost use Rattle.serde_json.specs.Written.{has_float, items_have_float, members_have_float};
ghost use Rattle.agv_header.specs.declared.refusal.Refusal.TheVariants as refusal;
ghost use Rattle.agv_message_json.specs.Body.{body_of, whole_only, IsFaultOf};
ghost use Rattle.agv_message_json.specs.declared.body.BodyFault.TheVariants as fault;

use agv_header::{Memory, Refusal};
use serde_json::{Map, Value};
use std::alloc::Global;
use std::str;
use thiserror::Error;

/// Why a body isn't read.
#[derive(Clone, Copy, Debug, PartialEq, Eq, Error)]
pub enum BodyFault {
    /// The body is refused.
    #[error("the body is refused: {0}")]
    Refused(Refusal),
    /// An allocation was refused; the body may be good.
    #[error("out of memory")]
    Memory,
}

impl From<Memory> for BodyFault {
    ghost from_gives = { λ _ made. made ≡ fault.Memory };

    fn from(_memory: Memory) -> BodyFault {
        BodyFault::Memory
    }
}

/// Reads the JSON value of the bytes.
///
/// Returns `Refused` with `BadJson` if they are no JSON text (not UTF-8, empty, or nested deeper than
/// 127), and otherwise with `Fraction` if some number in the value is no whole number of 64 bits as
/// `serde_json` reads it (also `1e0` and `-0`). Returns `Memory` if an allocation is refused; none is
/// made for bytes that are not UTF-8.
pub fn read_body(alloc: Global, bytes: &[u8]) -> Result<Value, BodyFault>
    ensures ok { IfOk result (λ value. body_of bytes.now ≡ Ok (view value)) }
    ensures err { IfErr result (λ fault. IsFaultOf fault (body_of bytes.now)) }
    ensures no_text { is_utf8 bytes.now ≡ false → result ≡ Err (fault.Refused refusal.BadJson) }
{
    match str::from_utf8(bytes) {
        Ok(text) => read_text(alloc, text),
        Err(_) => Err(BodyFault::Refused(Refusal::BadJson)),
    }
}

/// Reads the JSON value of the text.
fn read_text(alloc: Global, text: &str) -> Result<Value, BodyFault>
    ensures ok { IfOk result (λ value. whole_only (read text.now) ≡ Ok (view value)) }
    ensures err { IfErr result (λ fault. IsFaultOf fault (whole_only (read text.now))) }
{
    match Value::from_str(alloc, text) {
        Ok(value) if has_fraction(&value) => Err(BodyFault::Refused(Refusal::Fraction)),
        Ok(value) => Ok(value),
        Err(error) if error.is_memory() => Err(BodyFault::Memory),
        Err(_) => Err(BodyFault::Refused(Refusal::BadJson)),
    }
}

/// Returns whether some number in the value is no whole number of 64 bits.
#[cycle(fraction)]
fn has_fraction(value: &Value) -> bool
    ensures { result ≡ has_float (view value.now) }
{
    match value {
        Value::Number(number) => number.is_f64(),
        Value::Array(items) => items_have_fraction(items),
        Value::Object(members) => members_have_fraction(members),
        Value::Null | Value::Bool(_) | Value::String(_) => false,
    }
}

/// Returns whether some number in the items is no whole number of 64 bits.
#[cycle(fraction)]
fn items_have_fraction(items: &Vec<Value>) -> bool
    ensures { result ≡ items_have_float (items_view items.now.items) }
{
    for item in items {
        if has_fraction(item) {
            return true;
        }
    }
    false
}

/// Returns whether some number in the members is no whole number of 64 bits.
#[cycle(fraction)]
fn members_have_fraction(members: &Map<String, Value>) -> bool
    ensures { result ≡ members_have_float (members_view members.now.entries) }
{
    for (_, member) in members.iter() {
        if has_fraction(member) {
            return true;
        }
    }
    false
}
