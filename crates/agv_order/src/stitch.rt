//! Stitching: an update is joined to the base of an order at the node where the base ends.
ghost use Rattle.std.specs.Prelude.{◌≡◌, ◌++◌, IfOk, filter};
ghost use Rattle.std.specs.Option.{option_map};
ghost use Rattle.agv_message_core.specs.declared.order.OrderEdge.{OrderEdge as Edge};
ghost use Rattle.agv_order.specs.Joins.{front_of, is_stitched, last_of, stitched};
ghost use Rattle.agv_order.specs.Stitch.{is_released, mark_of};

use agv_header::{Memory, Name};
use agv_message_core::{OrderEdge, OrderMessage, OrderNode};
use std::alloc::Global;

/// The id and the sequence number of a node.
#[derive(Clone, Copy, PartialEq, Eq)]
struct Mark {
    id: Name,
    seq: u32,
}

/// Returns whether an update begins at the last released node.
pub(crate) fn is_stitched(held: &[OrderNode], update: &[OrderNode]) -> bool
    ensures { result ≡ is_stitched (filter is_released held.now) update.now }
{
    let Some(last) = last_released(held) else {
        return false;
    };
    let Some(first) = update.first() else {
        return false;
    };
    last == mark_of(first)
}

/// Returns the last released node.
fn last_released(nodes: &[OrderNode]) -> Option<Mark>
    ensures { result ≡ option_map mark_of (last_of (filter is_released nodes.now)) }
{
    let mut last = None;
    for node in nodes {
        if node.released {
            last = Some(mark_of(node));
        }
    }
    last
}

/// Returns the id and the sequence number of a node.
fn mark_of(node: &OrderNode) -> Mark
    ensures { result ≡ mark_of node.now }
{
    Mark {
        id: node.id,
        seq: node.seq,
    }
}

/// Returns the message with the held base before it, without the base's last node.
pub(crate) fn stitched(
    alloc: Global,
    held: &OrderMessage,
    message: &OrderMessage,
) -> Result<OrderMessage, Memory>
    ensures { IfOk result (λ order. order ≡ stitched held.now message.now) }
{
    let nodes = stitched_nodes(alloc, held.nodes.as_slice(), message.nodes.as_slice())?;
    let edges = stitched_edges(alloc, held.edges.as_slice(), message.edges.as_slice())?;
    Ok(OrderMessage {
        order: message.order,
        update: message.update,
        nodes: nodes.into(),
        edges: edges.into(),
    })
}

/// Returns the nodes of the base but the last, and then those of the update.
fn stitched_nodes(
    alloc: Global,
    held: &[OrderNode],
    update: &[OrderNode],
) -> Result<Vec<OrderNode>, Memory>
    ensures { IfOk result (λ nodes. nodes.items ≡ front_of (filter is_released held.now) ++ update.now) }
{
    let base = copy_base(alloc, held)?;
    with_nodes(without_last(base), update)
}

/// Copies the released nodes.
fn copy_base(alloc: Global, nodes: &[OrderNode]) -> Result<Vec<OrderNode>, Memory>
    ensures { IfOk result (λ base. base.items ≡ filter is_released nodes.now) }
{
    let mut base = Vec::new(alloc);
    for node in nodes {
        if node.released {
            base.push(node.copy()?)?;
        }
    }
    Ok(base)
}

/// Adds copies of the nodes to the base.
fn with_nodes(base: Vec<OrderNode>, nodes: &[OrderNode]) -> Result<Vec<OrderNode>, Memory>
    ensures { IfOk result (λ all. all.items ≡ base.items ++ nodes.now) }
{
    let mut all = base;
    for node in nodes {
        all.push(node.copy()?)?;
    }
    Ok(all)
}

/// Removes the last node.
fn without_last(nodes: Vec<OrderNode>) -> Vec<OrderNode>
    ensures { result.items ≡ front_of nodes.items }
{
    let mut front = nodes;
    front.pop();
    front
}

/// Returns the released edges, and then those of the update.
fn stitched_edges(
    alloc: Global,
    held: &[OrderEdge],
    update: &[OrderEdge],
) -> Result<Vec<OrderEdge>, Memory>
    ensures { IfOk result (λ edges. edges.items ≡ filter (λ (edge : Edge). edge.released) held.now ++ update.now) }
{
    let mut edges = Vec::new(alloc);
    for edge in held {
        if edge.released {
            edges.push(*edge)?;
        }
    }
    for edge in update {
        edges.push(*edge)?;
    }
    Ok(edges)
}
