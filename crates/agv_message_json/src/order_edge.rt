//! Writing the edges of an order message.
ghost use Rattle.std.specs.Prelude.{◌++◌, map, All, OnOk};
ghost use Rattle.serde_json.specs.Written.{compact_text};
ghost use Rattle.agv_message_json.specs.Json.{list};
ghost use Rattle.agv_message_json.specs.OrderData.{edge_data};
ghost use Rattle.agv_message_json.specs.Appending.{Appended};
ghost use Rattle.agv_message_json.specs.Pieces.{more_values};
ghost use Rattle.agv_message_json.specs.Readable.{IsReadable};

use crate::piece::{Piece, put_pieces};
use crate::words::put_bytes;
use agv_header::Memory;
use agv_message_core::OrderEdge;

/// Appends an array of edges.
pub fn put_edges(out: &mut Vec<u8>, edges: &[OrderEdge]) -> Result<(), Memory>
    ensures appended { Appended result out.old out.new (compact_text (list (map edge_data edges.now))) }
    ensures readable { OnOk result (IsReadable (list (map edge_data edges.now))) }
{
    match edges.split_first() {
        None => put_bytes(out, b"[]"),
        Some((first, more)) => {
            put_edge(out, "[", first)?;
            put_more_edges(out, more)?;
            put_bytes(out, b"]")
        }
    }
}

/// Appends `before` and an edge of an order.
fn put_edge<'a>(out: &mut Vec<u8>, before: &'a str, edge: &'a OrderEdge) -> Result<(), Memory>
    ensures appended { Appended result out.old out.new (before.now ++ compact_text (edge_data edge.now)) }
    ensures readable { OnOk result (IsReadable (edge_data edge.now)) }
{
    let pieces = [
        Piece::Text(before),
        Piece::Text("{\"actions\":[],\"edgeId\":"),
        Piece::Name(&edge.id),
        Piece::Text(",\"endNodeId\":"),
        Piece::Name(&edge.finish),
        Piece::Text(",\"released\":"),
        Piece::Truth(edge.released),
        Piece::Text(",\"sequenceId\":"),
        Piece::Number(u64::from(edge.seq)),
        Piece::Text(",\"startNodeId\":"),
        Piece::Name(&edge.start),
        Piece::Text("}"),
    ];
    put_pieces(out, &pieces)
}

/// Appends edges, each after a comma.
fn put_more_edges(out: &mut Vec<u8>, edges: &[OrderEdge]) -> Result<(), Memory>
    ensures appended { Appended result out.old out.new (more_values edge_data edges.now) }
    ensures readable { OnOk result (All (λ edge. IsReadable (edge_data edge)) edges.now) }
{
    for edge in edges {
        put_edge(out, ",", edge)?;
    }
    Ok(())
}
