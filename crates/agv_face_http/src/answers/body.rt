//! The bodies of answers.
ghost use Rattle.serde_json.specs.Written.{compact_text};
ghost use Rattle.agv_face_http.specs.answers.Bodies.{accepted_data, counted_data, held_data, instructed_data, load_data, plain_refusal_data, refusal_data, update_data, wrong_update_data};
ghost use Rattle.agv_message_json.specs.Appending.{Appended};

use crate::answers::piece::{Piece, put_pieces};
use agv_header::{Memory, Name, Refusal, Thing, VehicleKey};
use agv_stock::Place;

/// Appends `{"orderUpdateId":1}`.
pub fn put_update(out: &mut Vec<u8>, n: u32) -> Result<(), Memory>
    ensures { Appended result out.old out.new (compact_text (update_data n)) }
{
    let pieces = [
        Piece::Text("{\"orderUpdateId\":"),
        Piece::Number(u64::from(n)),
        Piece::Text("}"),
    ];
    put_pieces(out, &pieces)
}

/// Appends `{"actionId":"instant-1"}`.
pub fn put_instructed(out: &mut Vec<u8>, n: u32) -> Result<(), Memory>
    ensures { Appended result out.old out.new (compact_text (instructed_data n)) }
{
    let pieces = [
        Piece::Text("{\"actionId\":"),
        Piece::ActionId(n),
        Piece::Text("}"),
    ];
    put_pieces(out, &pieces)
}

/// Appends `{"accepted":true}`.
pub fn put_accepted(out: &mut Vec<u8>, accepted: bool) -> Result<(), Memory>
    ensures { Appended result out.old out.new (compact_text (accepted_data accepted)) }
{
    let pieces = [
        Piece::Text("{\"accepted\":"),
        Piece::Truth(accepted),
        Piece::Text("}"),
    ];
    put_pieces(out, &pieces)
}

/// Appends `{"moved":2,"unknown":["L7","L8"]}`.
pub fn put_counted(out: &mut Vec<u8>, moved: usize, unknown: &[Name]) -> Result<(), Memory>
    ensures { Appended result out.old out.new (compact_text (counted_data moved unknown.now)) }
{
    let pieces = [
        Piece::Text("{\"moved\":"),
        Piece::Number(moved as u64),
        Piece::Text(",\"unknown\":"),
        Piece::Names(unknown),
        Piece::Text("}"),
    ];
    put_pieces(out, &pieces)
}

/// Appends `{"job":null,"load":"L1","place":"station A"}`.
pub fn put_load<'a>(
    out: &mut Vec<u8>,
    load: &'a Name,
    place: &'a Place,
    job: &'a Option<Name>,
) -> Result<(), Memory>
    ensures { Appended result out.old out.new (compact_text (load_data load.now place.now job.now)) }
{
    let pieces = [
        Piece::Text("{\"job\":"),
        Piece::MaybeName(job),
        Piece::Text(",\"load\":"),
        Piece::Name(load),
        Piece::Text(",\"place\":"),
        Piece::Place(place),
        Piece::Text("}"),
    ];
    put_pieces(out, &pieces)
}

/// Appends the description of a refusal.
pub fn put_refusal(out: &mut Vec<u8>, refusal: &Refusal) -> Result<(), Memory>
    ensures { Appended result out.old out.new (compact_text (refusal_data refusal.now)) }
{
    match refusal {
        Refusal::Held { what, by } => put_held(out, what, by),
        Refusal::WrongUpdate { sent } => put_wrong_update(out, *sent),
        other => put_plain_refusal(out, other),
    }
}

/// Appends `{"by":"KIT/0001","name":"Held","refusal":33,"what":"edge E12"}`.
fn put_held<'a>(out: &mut Vec<u8>, what: &'a Thing, by: &'a VehicleKey) -> Result<(), Memory>
    ensures { Appended result out.old out.new (compact_text (held_data what.now by.now)) }
{
    let refusal = Refusal::Held {
        what: *what,
        by: *by,
    };
    let pieces = [
        Piece::Text("{\"by\":"),
        Piece::Key(by),
        Piece::Text(",\"name\":\"Held\",\"refusal\":"),
        Piece::Number(u64::from(refusal.number())),
        Piece::Text(",\"what\":"),
        Piece::Thing(what),
        Piece::Text("}"),
    ];
    put_pieces(out, &pieces)
}

/// Appends `{"name":"WrongUpdate","refusal":44,"sent":2}`.
fn put_wrong_update(out: &mut Vec<u8>, sent: u32) -> Result<(), Memory>
    ensures { Appended result out.old out.new (compact_text (wrong_update_data sent)) }
{
    let refusal = Refusal::WrongUpdate { sent };
    let pieces = [
        Piece::Text("{\"name\":\"WrongUpdate\",\"refusal\":"),
        Piece::Number(u64::from(refusal.number())),
        Piece::Text(",\"sent\":"),
        Piece::Number(u64::from(sent)),
        Piece::Text("}"),
    ];
    put_pieces(out, &pieces)
}

/// Appends `{"name":"NoLoad","refusal":23}`.
fn put_plain_refusal(out: &mut Vec<u8>, refusal: &Refusal) -> Result<(), Memory>
    ensures { Appended result out.old out.new (compact_text (plain_refusal_data refusal.now)) }
{
    let pieces = [
        Piece::Text("{\"name\":\""),
        Piece::Text(refusal.name()),
        Piece::Text("\",\"refusal\":"),
        Piece::Number(u64::from(refusal.number())),
        Piece::Text("}"),
    ];
    put_pieces(out, &pieces)
}
