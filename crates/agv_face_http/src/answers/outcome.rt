//! Bounds of the parts of an answer, which follow from their types. Each function reads a few parts without a loop;
//! proofs call it for its clause.
ghost use Rattle.std.specs.Prelude.{◌<◌, ◌^◌};
ghost use Rattle.agv_header.specs.Key.{thing_name};
ghost use Rattle.agv_header.specs.Name.{IsName};
ghost use Rattle.agv_face_http.specs.answers.Sizes.{IsOfItsTypes, IsToldBriefly};

use agv_desk::Answer;
use agv_header::{Name, Refusal, Thing};

/// Proves that the parts of an answer are of their types: names, and numbers of their widths. It says nothing of the
/// unknown names of a stocktake.
pub(crate) fn is_of_its_types(answer: &Answer)
    ensures { IsOfItsTypes answer.now }
{
    match answer {
        Answer::Refused(refusal) => refusal_is_short(refusal),
        Answer::Update(n) => number_is_short(*n),
        Answer::Instructed(n) => number_is_short(*n),
        Answer::Counted { moved, .. } => size_is_short(*moved),
        _ => {}
    }
}

/// Proves that the details of a refusal are names and numbers below 2^32.
pub(crate) fn refusal_is_short(refusal: &Refusal)
    ensures { IsToldBriefly refusal.now }
{
    match refusal {
        Refusal::Held { what, by } => {
            thing_is_short(what);
            name_is_short(&by.manufacturer);
            name_is_short(&by.serial);
        }
        Refusal::WrongUpdate { sent } => number_is_short(*sent),
        _ => {}
    }
}

/// Proves that the name of a thing has 1 to 32 bytes.
fn thing_is_short(thing: &Thing)
    ensures { IsName (thing_name thing.now) }
{
    match thing {
        Thing::Node(id) => name_is_short(id),
        Thing::Edge(id) => name_is_short(id),
    }
}

/// Proves that a name has 1 to 32 bytes.
fn name_is_short(name: &Name)
    ensures { IsName name.now }
{
    let _bytes = name.as_bytes();
}

/// Proves that a `u32` is below 2^32.
fn number_is_short(n: u32)
    ensures { n < 2 ^ 32 }
{}

/// Proves that a `usize` is below 2^64.
fn size_is_short(n: usize)
    ensures { n < 2 ^ 64 }
{}
