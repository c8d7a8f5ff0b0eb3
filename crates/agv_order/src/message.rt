//! The order message of a trip.
ghost use Rattle.std.specs.Prelude.{◌≡◌, ◌≤◌, IfOk, drop, length};
ghost use Rattle.agv_order.specs.Messages.{order_act, acts_at, order_node, order_edge, order_nodes, order_edges, message_of};

use crate::{Act, Trip, edge_seq, node_seq};
use agv_header::{Memory, Name};
use agv_layout::Edge;
use agv_message_core::{OrderAct, OrderEdge, OrderMessage, OrderNode};
use std::alloc::Global;

impl Trip {
    /// Returns the last message of the trip: the order itself, or the update that was sent last.
    ///
    /// It has the nodes from place `first` on and the edges between them, those of the base released, and
    /// on each node its acts in their order (VDA 5050 2.0, order). Its time is that of the edges, times
    /// the acts. Returns `Memory` only when out of memory.
    pub fn message(&self, alloc: Global) -> Result<OrderMessage, Memory>
        requires short { length self.now.edges ≤ 200 }
        requires few { length self.now.acts ≤ 8 }
        ensures { IfOk result (λ message. message ≡ message_of self.now) }
    {
        let nodes = self.sent_nodes(alloc)?;
        let edges = self.sent_edges(alloc)?;
        Ok(OrderMessage {
            order: self.order,
            update: self.sent,
            nodes: nodes.into(),
            edges: edges.into(),
        })
    }

    /// Returns the nodes of the last message.
    fn sent_nodes(&self, alloc: Global) -> Result<Vec<OrderNode>, Memory>
        requires short { length self.now.edges ≤ 200 }
        requires few { length self.now.acts ≤ 8 }
        ensures { IfOk result (λ nodes. nodes.items ≡ drop self.now.first (order_nodes self.now)) }
    {
        let mut nodes = Vec::new(alloc);
        if self.first == 0 {
            nodes.push(self.node(alloc, 0, self.start)?)?;
        }
        for (before, edge) in self.edges.as_slice().iter().enumerate() {
            let k = before as u32 + 1;
            if self.first <= k {
                nodes.push(self.node(alloc, k, edge.finish)?)?;
            }
        }
        Ok(nodes)
    }

    /// Returns the node at place `k` of the way, as the message has it.
    fn node(&self, alloc: Global, k: u32, id: Name) -> Result<OrderNode, Memory>
        requires near { k ≤ 200 }
        requires few { length self.now.acts ≤ 8 }
        ensures { IfOk result (λ node. node ≡ order_node self.now (k, id)) }
    {
        let acts = acts_at(alloc, self.acts.as_slice(), k)?;
        Ok(OrderNode {
            id,
            seq: node_seq(k),
            released: k <= self.base,
            acts: acts.into(),
        })
    }

    /// Returns the edges of the last message.
    fn sent_edges(&self, alloc: Global) -> Result<Vec<OrderEdge>, Memory>
        requires short { length self.now.edges ≤ 200 }
        ensures { IfOk result (λ edges. edges.items ≡ drop self.now.first (order_edges self.now)) }
    {
        let mut edges = Vec::new(alloc);
        for (place, edge) in self.edges.as_slice().iter().enumerate() {
            let k = place as u32;
            if self.first <= k {
                edges.push(self.edge(k, edge))?;
            }
        }
        Ok(edges)
    }

    /// Returns the edge from the node at place `k` of the way to the next, as the message has it.
    fn edge(&self, k: u32, edge: &Edge) -> OrderEdge
        requires near { k ≤ 200 }
        ensures { result ≡ order_edge self.now (k, edge.now) }
    {
        OrderEdge {
            id: edge.id,
            start: edge.start,
            finish: edge.finish,
            seq: edge_seq(k),
            released: k < self.base,
        }
    }
}

/// Returns the actions at place `k` of the way, in their order.
fn acts_at(alloc: Global, acts: &[Act], k: u32) -> Result<Vec<OrderAct>, Memory>
    requires few { length acts.now ≤ 8 }
    ensures { IfOk result (λ made. made.items ≡ acts_at acts.now k) }
{
    let mut made = Vec::new(alloc);
    for (n, act) in acts.iter().enumerate() {
        if act.place_at == k {
            made.push(order_act(n as u32, act))?;
        }
    }
    Ok(made)
}

/// Returns act `n` as an action of the message.
fn order_act(n: u32, act: &Act) -> OrderAct
    ensures { result ≡ order_act (n, act.now) }
{
    OrderAct {
        n,
        kind: act.kind,
        station: act.station,
        load: act.load,
    }
}
