//! Writing an instantActions message.
ghost use Rattle.std.specs.Prelude.{◌≡◌, IfOk, OnOk, Ok};
ghost use Rattle.serde_json.specs.Written.{compact_text};
ghost use Rattle.agv_message_json.specs.InstantData.{instant_data};
ghost use Rattle.agv_message_json.specs.Appending.{Appended};
ghost use Rattle.agv_message_json.specs.Body.{body_of};

use crate::piece::{Piece, put_pieces};
use agv_header::Memory;
use agv_message_core::{Header, InstantMessage};
use std::alloc::Global;

/// Appends an instantActions message: JSON without blanks, members in the order of their names' bytes. The id of its
/// one action is `instant-n`, where n is the message's number. It takes no memory if the message fits.
///
/// Returns `Memory` if an allocation is refused; some of the message may have been appended then.
pub fn put_instant<'a>(
    out: &mut Vec<u8>,
    header: &'a Header,
    instant: &'a InstantMessage,
) -> Result<(), Memory>
    ensures appended { Appended result out.old out.new (compact_text (instant_data header.now instant.now)) }
    ensures reads_back { OnOk result (body_of (compact_text (instant_data header.now instant.now)) ≡ Ok (instant_data header.now instant.now)) }
{
    let pieces = [
        Piece::Text("{\"actions\":[{\"actionId\":"),
        Piece::ActionId(header.number),
        Piece::Text(",\"actionParameters\":[],\"actionType\":"),
        Piece::Kind(instant.kind),
        Piece::Text(",\"blockingType\":\"HARD\"}],\"headerId\":"),
        Piece::Number(u64::from(header.number)),
        Piece::Text(",\"manufacturer\":"),
        Piece::Name(&header.key.manufacturer),
        Piece::Text(",\"serialNumber\":"),
        Piece::Name(&header.key.serial),
        Piece::Text(",\"timestamp\":"),
        Piece::Stamp(header.at),
        Piece::Text(",\"version\":\"2.0.0\"}"),
    ];
    put_pieces(out, &pieces)
}

/// Returns the text of an instantActions message, as [`put_instant`] appends it.
///
/// Returns `Memory` if an allocation is refused.
pub fn instant_text(
    alloc: Global,
    header: &Header,
    message: &InstantMessage,
) -> Result<Vec<u8>, Memory>
    ensures text { IfOk result (λ text. text.items ≡ compact_text (instant_data header.now message.now)) }
    ensures reads_back { IfOk result (λ text. body_of text.items ≡ Ok (instant_data header.now message.now)) }
{
    let mut text = Vec::new(alloc);
    put_instant(&mut text, header, message)?;
    Ok(text)
}
