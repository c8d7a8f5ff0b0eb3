//! Orders: the nodes and edges that a vehicle is to drive, and what it does on the nodes.
ghost use Rattle.std.specs.Prelude.{◌≡◌, IfOk};

use crate::Sequence;
use agv_header::{Memory, Name};

/// An order message (VDA 5050 2.0, order). In those that the desk writes, the released nodes and edges come first.
#[derive(Debug, Drop, PartialEq, Eq)]
pub struct OrderMessage {
    /// The order's name.
    pub order: Name,
    /// The number of this update, 0 for the first.
    pub update: u32,
    pub nodes: Sequence<OrderNode>,
    pub edges: Sequence<OrderEdge>,
}

/// A node of an order.
#[derive(Debug, Drop, PartialEq, Eq)]
pub struct OrderNode {
    pub id: Name,
    /// Its sequence number among all nodes and edges of the order.
    pub seq: u32,
    /// Whether the vehicle may drive there.
    pub released: bool,
    /// The actions that the vehicle carries out there, in this order.
    pub acts: Sequence<OrderAct>,
}

impl OrderMessage {
    /// Returns a message equal to this one.
    ///
    /// Returns `Memory` if an allocation is refused.
    pub fn copy(&self) -> Result<OrderMessage, Memory>
        ensures { IfOk result (λ copy. copy ≡ self.now) }
    {
        Ok(OrderMessage {
            order: self.order,
            update: self.update,
            nodes: copy_nodes(&self.nodes)?,
            edges: self.edges.copy()?,
        })
    }
}

impl OrderNode {
    /// Returns a node equal to this one.
    ///
    /// Returns `Memory` if an allocation is refused.
    pub fn copy(&self) -> Result<OrderNode, Memory>
        ensures { IfOk result (λ copy. copy ≡ self.now) }
    {
        Ok(OrderNode {
            id: self.id,
            seq: self.seq,
            released: self.released,
            acts: self.acts.copy()?,
        })
    }
}

/// An edge of an order.
#[derive(Clone, Copy, Debug, PartialEq, Eq)]
pub struct OrderEdge {
    pub id: Name,
    /// The node at which it begins.
    pub start: Name,
    /// The node at which it ends.
    pub finish: Name,
    /// Its sequence number among all nodes and edges of the order.
    pub seq: u32,
    /// Whether the vehicle may drive it.
    pub released: bool,
}

/// An action on a node: picking or dropping a load at a station.
#[derive(Clone, Copy, Debug, PartialEq, Eq)]
pub struct OrderAct {
    /// The action's number in its order: its id in the order `O` is `O.n`.
    pub n: u32,
    pub kind: ActKind,
    pub station: Name,
    pub load: Name,
}

/// What an action does with its load.
#[derive(Clone, Copy, Debug, PartialEq, Eq)]
pub enum ActKind {
    Pick,
    Drop,
}

impl ActKind {
    ghost use Rattle.agv_message_core.specs.Order.{act_name};

    /// Returns its name in VDA 5050: `pick` or `drop`.
    pub fn name(self) -> &'static str
        ensures { result.now ≡ act_name self }
    {
        match self {
            ActKind::Pick => "pick",
            ActKind::Drop => "drop",
        }
    }
}

/// Copies the nodes.
fn copy_nodes(nodes: &Sequence<OrderNode>) -> Result<Sequence<OrderNode>, Memory>
    ensures { IfOk result (λ copy. copy ≡ nodes.now) }
{
    let mut copy = Vec::new(nodes.allocator());
    for node in nodes.as_slice() {
        copy.push(node.copy()?)?;
    }
    Ok(copy.into())
}
