//! Writing an order message.
ghost use Rattle.std.specs.Prelude.{◌≡◌, IfOk, OnOk, Ok, map};
ghost use Rattle.serde_json.specs.Written.{compact_text};
ghost use Rattle.agv_header.specs.Stamp.{stamp_of};
ghost use Rattle.agv_message_json.specs.OrderData.{order_data, edge_data};
ghost use Rattle.agv_message_json.specs.Appending.{Appended};
ghost use Rattle.agv_message_json.specs.Pieces.{order_front, order_middle, order_end};
ghost use Rattle.agv_message_json.specs.Json.{list, text, whole};
ghost use Rattle.agv_message_json.specs.Readable.{IsReadable};
ghost use Rattle.agv_message_json.specs.Body.{body_of};

use crate::order_edge::put_edges;
use crate::order_node::put_nodes;
use crate::piece::{Piece, put_pieces};
use crate::words::put_bytes;
use agv_header::Memory;
use agv_message_core::{Header, OrderEdge, OrderMessage};
use std::alloc::Global;

/// Appends an order message: JSON without blanks, members in the order of their names' bytes. It takes no memory if the
/// message fits.
///
/// Returns `Memory` if an allocation is refused; some of the message may have been appended then.
pub fn put_order(out: &mut Vec<u8>, header: &Header, order: &OrderMessage) -> Result<(), Memory>
    ensures appended { Appended result out.old out.new (compact_text (order_data header.now order.now)) }
    ensures reads_back { OnOk result (body_of (compact_text (order_data header.now order.now)) ≡ Ok (order_data header.now order.now)) }
{
    put_front(out, order.edges.as_slice())?;
    put_middle(out, header)?;
    put_nodes(out, &order.order, order.nodes.as_slice())?;
    put_end(out, header, order)
}

/// Appends the beginning of the message up to its edges.
fn put_front(out: &mut Vec<u8>, edges: &[OrderEdge]) -> Result<(), Memory>
    ensures appended { Appended result out.old out.new (order_front edges.now) }
    ensures readable { OnOk result (IsReadable (list (map edge_data edges.now))) }
{
    put_bytes(out, b"{\"edges\":")?;
    put_edges(out, edges)
}

/// Appends the part between the edges and the nodes.
fn put_middle<'a>(out: &mut Vec<u8>, header: &'a Header) -> Result<(), Memory>
    ensures appended { Appended result out.old out.new (order_middle header.now) }
    ensures readable { OnOk result (IsReadable (whole header.now.number) × IsReadable (text header.now.key.manufacturer)) }
{
    let pieces = [
        Piece::Text(",\"headerId\":"),
        Piece::Number(u64::from(header.number)),
        Piece::Text(",\"manufacturer\":"),
        Piece::Name(&header.key.manufacturer),
        Piece::Text(",\"nodes\":"),
    ];
    put_pieces(out, &pieces)
}

/// Appends the part after the nodes.
fn put_end<'a>(out: &mut Vec<u8>, header: &'a Header, order: &'a OrderMessage) -> Result<(), Memory>
    ensures appended { Appended result out.old out.new (order_end header.now order.now) }
    ensures readable { OnOk result (IsReadable (text order.now.order) × IsReadable (whole order.now.update) × IsReadable (text header.now.key.serial) × IsReadable (text (stamp_of header.now.at))) }
{
    let pieces = [
        Piece::Text(",\"orderId\":"),
        Piece::Name(&order.order),
        Piece::Text(",\"orderUpdateId\":"),
        Piece::Number(u64::from(order.update)),
        Piece::Text(",\"serialNumber\":"),
        Piece::Name(&header.key.serial),
        Piece::Text(",\"timestamp\":"),
        Piece::Stamp(header.at),
        Piece::Text(",\"version\":\"2.0.0\"}"),
    ];
    put_pieces(out, &pieces)
}

/// Returns the text of an order message: JSON without blanks, members in the order of their names' bytes.
///
/// Returns `Memory` if an allocation is refused.
pub fn order_text(alloc: Global, header: &Header, order: &OrderMessage) -> Result<Vec<u8>, Memory>
    ensures text { IfOk result (λ text. text.items ≡ compact_text (order_data header.now order.now)) }
    ensures reads_back { IfOk result (λ text. body_of text.items ≡ Ok (order_data header.now order.now)) }
{
    let mut text = Vec::new(alloc);
    put_order(&mut text, header, order)?;
    Ok(text)
}
