//! Writing the actions of an order message.
ghost use Rattle.std.specs.Prelude.{◌++◌, map, All, OnOk};
ghost use Rattle.serde_json.specs.Written.{compact_text};
ghost use Rattle.agv_message_json.specs.Json.{list};
ghost use Rattle.agv_message_json.specs.OrderData.{act_data};
ghost use Rattle.agv_message_json.specs.Appending.{Appended};
ghost use Rattle.agv_message_json.specs.Pieces.{more_values};
ghost use Rattle.agv_message_json.specs.Readable.{IsReadable};

use crate::piece::{Piece, put_pieces};
use crate::words::put_bytes;
use agv_header::{Memory, Name};
use agv_message_core::OrderAct;

/// Appends an array of actions.
pub fn put_acts(out: &mut Vec<u8>, order: &Name, acts: &[OrderAct]) -> Result<(), Memory>
    ensures appended { Appended result out.old out.new (compact_text (list (map (act_data order.now) acts.now))) }
    ensures readable { OnOk result (IsReadable (list (map (act_data order.now) acts.now))) }
{
    match acts.split_first() {
        None => put_bytes(out, b"[]"),
        Some((first, more)) => {
            put_act(out, "[", order, first)?;
            put_more_acts(out, order, more)?;
            put_bytes(out, b"]")
        }
    }
}

/// Appends `before` and an action of an order.
fn put_act<'a>(
    out: &mut Vec<u8>,
    before: &'a str,
    order: &'a Name,
    act: &'a OrderAct,
) -> Result<(), Memory>
    ensures appended { Appended result out.old out.new (before.now ++ compact_text (act_data order.now act.now)) }
    ensures readable { OnOk result (IsReadable (act_data order.now act.now)) }
{
    let pieces = [
        Piece::Text(before),
        Piece::Text("{\"actionId\":"),
        Piece::ActId(order, act.n),
        Piece::Text(",\"actionParameters\":[{\"key\":\"stationType\",\"value\":\"station\"}"),
        Piece::Text(",{\"key\":\"stationName\",\"value\":"),
        Piece::Name(&act.station),
        Piece::Text("},{\"key\":\"loadType\",\"value\":\"load\"}"),
        Piece::Text(",{\"key\":\"loadId\",\"value\":"),
        Piece::Name(&act.load),
        Piece::Text("}],\"actionType\":\""),
        Piece::Text(act.kind.name()),
        Piece::Text("\",\"blockingType\":\"HARD\"}"),
    ];
    put_pieces(out, &pieces)
}

/// Appends actions, each after a comma.
fn put_more_acts(out: &mut Vec<u8>, order: &Name, acts: &[OrderAct]) -> Result<(), Memory>
    ensures appended { Appended result out.old out.new (more_values (act_data order.now) acts.now) }
    ensures readable { OnOk result (All (λ act. IsReadable (act_data order.now act)) acts.now) }
{
    for act in acts {
        put_act(out, ",", order, act)?;
    }
    Ok(())
}
