//! Writing the nodes of an order message.
ghost use Rattle.std.specs.Prelude.{◌++◌, map, All, OnOk};
ghost use Rattle.serde_json.specs.Written.{compact_text};
ghost use Rattle.agv_message_json.specs.Json.{list, text, whole};
ghost use Rattle.agv_message_json.specs.OrderData.{node_data};
ghost use Rattle.agv_message_json.specs.Appending.{Appended};
ghost use Rattle.agv_message_json.specs.Pieces.{more_values, node_front, node_end};
ghost use Rattle.agv_message_json.specs.Readable.{IsReadable};

use crate::order_act::put_acts;
use crate::piece::{Piece, put_pieces};
use crate::words::put_bytes;
use agv_header::{Memory, Name};
use agv_message_core::OrderNode;

/// Appends an array of nodes.
pub fn put_nodes(out: &mut Vec<u8>, order: &Name, nodes: &[OrderNode]) -> Result<(), Memory>
    ensures appended { Appended result out.old out.new (compact_text (list (map (node_data order.now) nodes.now))) }
    ensures readable { OnOk result (IsReadable (list (map (node_data order.now) nodes.now))) }
{
    match nodes.split_first() {
        None => put_bytes(out, b"[]"),
        Some((first, more)) => {
            put_node(out, "[", order, first)?;
            put_more_nodes(out, order, more)?;
            put_bytes(out, b"]")
        }
    }
}

/// Appends `before` and a node of an order.
fn put_node(out: &mut Vec<u8>, before: &str, order: &Name, node: &OrderNode) -> Result<(), Memory>
    ensures appended { Appended result out.old out.new (before.now ++ compact_text (node_data order.now node.now)) }
    ensures readable { OnOk result (IsReadable (node_data order.now node.now)) }
{
    put_front(out, before)?;
    put_acts(out, order, node.acts.as_slice())?;
    put_end(out, node)
}

/// Appends `before` and the beginning of a node, up to its actions.
fn put_front<'a>(out: &mut Vec<u8>, before: &'a str) -> Result<(), Memory>
    ensures { Appended result out.old out.new (node_front before.now) }
{
    let pieces = [Piece::Text(before), Piece::Text("{\"actions\":")];
    put_pieces(out, &pieces)
}

/// Appends the part of a node after its actions.
fn put_end<'a>(out: &mut Vec<u8>, node: &'a OrderNode) -> Result<(), Memory>
    ensures appended { Appended result out.old out.new (node_end node.now) }
    ensures readable { OnOk result (IsReadable (text node.now.id) × IsReadable (whole node.now.seq)) }
{
    let pieces = [
        Piece::Text(",\"nodeId\":"),
        Piece::Name(&node.id),
        Piece::Text(",\"released\":"),
        Piece::Truth(node.released),
        Piece::Text(",\"sequenceId\":"),
        Piece::Number(u64::from(node.seq)),
        Piece::Text("}"),
    ];
    put_pieces(out, &pieces)
}

/// Appends nodes, each after a comma.
fn put_more_nodes(out: &mut Vec<u8>, order: &Name, nodes: &[OrderNode]) -> Result<(), Memory>
    ensures appended { Appended result out.old out.new (more_values (node_data order.now) nodes.now) }
    ensures readable { OnOk result (All (λ node. IsReadable (node_data order.now node)) nodes.now) }
{
    for node in nodes {
        put_node(out, ",", order, node)?;
    }
    Ok(())
}
