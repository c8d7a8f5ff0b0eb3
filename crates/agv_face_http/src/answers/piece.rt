//! The pieces of a text, and appending them.
ghost use Rattle.std.specs.List.{flat_map};
ghost use Rattle.serde_json.specs.Written.{compact_text};
ghost use Rattle.agv_message_json.specs.Appending.{Appended};
ghost use Rattle.agv_face_http.specs.answers.JobBody.{maybe_key};
ghost use Rattle.agv_face_http.specs.answers.Pieces.{piece_text, maybe_number, maybe_name, maybe_kind};

use crate::answers::words::{put_key, put_names, put_phase, put_place, put_thing};
use agv_header::{Memory, Name, Thing, VehicleKey};
use agv_message_core::InstantKind;
use agv_message_json::{
    put_action_id, put_bytes, put_instant_kind, put_name, put_number, put_truth,
};
use agv_stock::{Phase, Place};

/// A piece of a text: bytes as they are, or a JSON value.
#[derive(Clone, Copy, Debug)]
pub enum Piece<'a> {
    /// These bytes.
    Text(&'a str),
    Number(u64),
    Truth(bool),
    Name(&'a Name),
    /// An array of names.
    Names(&'a [Name]),
    /// A number, or `null`.
    MaybeNumber(Option<u32>),
    /// A name, or `null`.
    MaybeName(&'a Option<Name>),
    /// The name of an instant action, or `null`.
    MaybeKind(Option<InstantKind>),
    /// `"station A"`
    Place(&'a Place),
    /// `"KIT/0001"`
    Key(&'a VehicleKey),
    /// `"KIT/0001"`, or `null`
    MaybeKey(&'a Option<VehicleKey>),
    /// `"riding"`
    Phase(Phase),
    /// `"node N2"`
    Thing(&'a Thing),
    /// `"instant-1"`
    ActionId(u32),
}

/// Appends pieces. It allocates nothing if they fit.
pub fn put_pieces(out: &mut Vec<u8>, pieces: &[Piece<'_>]) -> Result<(), Memory>
    ensures { Appended result out.old out.new (flat_map piece_text pieces.now) }
{
    for piece in pieces {
        put_piece(out, piece)?;
    }
    Ok(())
}

/// Appends a piece.
fn put_piece(out: &mut Vec<u8>, piece: &Piece<'_>) -> Result<(), Memory>
    ensures { Appended result out.old out.new (piece_text piece.now) }
{
    match piece {
        Piece::Text(text) => put_bytes(out, text.as_bytes()),
        Piece::Number(n) => put_number(out, *n),
        Piece::Truth(is_so) => put_truth(out, *is_so),
        Piece::Name(name) => put_name(out, name),
        Piece::Names(names) => put_names(out, names),
        Piece::MaybeNumber(number) => put_maybe_number(out, *number),
        Piece::MaybeName(name) => put_maybe_name(out, name),
        Piece::MaybeKind(kind) => put_maybe_kind(out, *kind),
        Piece::Place(place) => put_place(out, place),
        Piece::Key(key) => put_key(out, key),
        Piece::MaybeKey(key) => put_maybe_key(out, key),
        Piece::Phase(phase) => put_phase(out, *phase),
        Piece::Thing(thing) => put_thing(out, thing),
        Piece::ActionId(n) => put_action_id(out, *n),
    }
}

/// Appends a number, or `null`.
fn put_maybe_number(out: &mut Vec<u8>, number: Option<u32>) -> Result<(), Memory>
    ensures { Appended result out.old out.new (compact_text (maybe_number number)) }
{
    match number {
        None => put_bytes(out, b"null"),
        Some(n) => put_number(out, u64::from(n)),
    }
}

/// Appends a name, or `null`.
fn put_maybe_name(out: &mut Vec<u8>, name: &Option<Name>) -> Result<(), Memory>
    ensures { Appended result out.old out.new (compact_text (maybe_name name.now)) }
{
    match name {
        None => put_bytes(out, b"null"),
        Some(name) => put_name(out, name),
    }
}

/// Appends the name of an instant action, or `null`.
fn put_maybe_kind(out: &mut Vec<u8>, kind: Option<InstantKind>) -> Result<(), Memory>
    ensures { Appended result out.old out.new (compact_text (maybe_kind kind)) }
{
    match kind {
        None => put_bytes(out, b"null"),
        Some(kind) => put_instant_kind(out, kind),
    }
}

/// Appends `"KIT/0001"`, or `null`.
fn put_maybe_key(out: &mut Vec<u8>, key: &Option<VehicleKey>) -> Result<(), Memory>
    ensures { Appended result out.old out.new (compact_text (maybe_key key.now)) }
{
    match key {
        None => put_bytes(out, b"null"),
        Some(key) => put_key(out, key),
    }
}
