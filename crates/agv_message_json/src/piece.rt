//! The pieces of a message, and writing them.
ghost use Rattle.std.specs.Prelude.{OnOk};
ghost use Rattle.std.specs.List.{flat_map};
ghost use Rattle.agv_message_json.specs.Appending.{Appended};
ghost use Rattle.agv_message_json.specs.Pieces.{piece_text};
ghost use Rattle.agv_message_json.specs.Readable.{PieceIsReadable, PiecesAreReadable};

use crate::stamp::put_stamp;
use crate::words::{
    put_act_id, put_action_id, put_bytes, put_instant_kind, put_name, put_number, put_truth,
};
use agv_header::{Memory, Moment, Name};
use agv_message_core::InstantKind;

/// A piece of a message: bytes as they are, or a JSON value.
#[derive(Clone, Copy, Debug)]
pub enum Piece<'a> {
    /// These bytes.
    Text(&'a str),
    Number(u64),
    Truth(bool),
    Name(&'a Name),
    /// `"startPause"`
    Kind(InstantKind),
    /// `"instant-1"`
    ActionId(u32),
    /// `"O1.2"`
    ActId(&'a Name, u32),
    /// `"1991-03-11T11:40:03.12Z"`
    Stamp(Moment),
}

/// Appends pieces, one after another.
pub fn put_pieces(out: &mut Vec<u8>, pieces: &[Piece<'_>]) -> Result<(), Memory>
    ensures appended { Appended result out.old out.new (flat_map piece_text pieces.now) }
    ensures readable { OnOk result (PiecesAreReadable pieces.now) }
{
    for piece in pieces {
        put_piece(out, piece)?;
    }
    Ok(())
}

/// Appends a piece.
fn put_piece(out: &mut Vec<u8>, piece: &Piece<'_>) -> Result<(), Memory>
    ensures appended { Appended result out.old out.new (piece_text piece.now) }
    ensures readable { PieceIsReadable piece.now }
{
    match piece {
        Piece::Text(text) => put_bytes(out, text.as_bytes()),
        Piece::Number(n) => put_number(out, *n),
        Piece::Truth(is_so) => put_truth(out, *is_so),
        Piece::Name(name) => put_name(out, name),
        Piece::Kind(kind) => put_instant_kind(out, *kind),
        Piece::ActionId(n) => put_action_id(out, *n),
        Piece::ActId(order, n) => put_act_id(out, order, *n),
        Piece::Stamp(at) => put_stamp(out, *at),
    }
}
