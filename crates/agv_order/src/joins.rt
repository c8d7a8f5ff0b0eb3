//! How a vehicle joins an order message to the order that it holds.
ghost use Rattle.std.specs.Option.{option_copied};
ghost use Rattle.agv_order.specs.Joins.{update_of, join_of, IsAnswer};

use crate::stitch::{is_stitched, stitched};
use agv_header::Memory;
use agv_message_core::OrderMessage;
use std::alloc::Global;
use thiserror::Error;

/// What a vehicle does with a message that it accepts.
#[derive(Debug, Drop)]
pub enum Joined {
    /// The order that it holds from now on.
    Taken(OrderMessage),
    /// It has this update already, and discards the message.
    Same,
}

/// Why a vehicle refuses a message.
#[derive(Clone, Copy, Debug, PartialEq, Eq, Error)]
pub enum JoinRefusal {
    /// It holds no order, and the message is an update.
    #[error("the vehicle holds no order, and the message is an update")]
    NotFirst,
    /// It holds another order.
    #[error("the vehicle holds another order")]
    OtherOrder,
    /// It has a later update already.
    #[error("the vehicle has a later update")]
    Lower,
    /// The message does not begin at the last node of the base that it holds.
    #[error("the message doesn't begin at the last node of the base")]
    NotStitched,
    /// Out of memory; the message may be good.
    #[error("out of memory")]
    Memory,
}

impl From<Memory> for JoinRefusal {
    ghost use Rattle.std.specs.Prelude.{◌≡◌};
    ghost use Rattle.agv_order.specs.declared.joins.JoinRefusal.TheVariants as refusal;

    ghost from_gives = { λ _ made. made ≡ refusal.Memory };

    fn from(_memory: Memory) -> JoinRefusal {
        JoinRefusal::Memory
    }
}

/// Returns what a vehicle that holds an order, or none, does with an order message (VDA 5050 2.0, order updates).
///
/// - Without an order it takes update 0 as it is, and refuses any other (`NotFirst`).
/// - It refuses a message of another order (`OtherOrder`), discards the update that it has (`Same`), and
///   refuses an earlier one (`Lower`).
/// - It takes a later one that begins at the last node of its base: then it holds its base, and from that
///   node on the message. It refuses any other (`NotStitched`).
/// - `Memory` is returned only when out of memory, and only if an order is taken: the other answers take none.
pub fn join(
    alloc: Global,
    held: Option<&OrderMessage>,
    message: &OrderMessage,
) -> Result<Joined, JoinRefusal>
    ensures { IsAnswer (join_of (option_copied held.entry) message.now) result }
{
    let Some(held) = held else {
        if message.update != 0 {
            return Err(JoinRefusal::NotFirst);
        }
        return Ok(Joined::Taken(message.copy()?));
    };
    if held.order != message.order {
        return Err(JoinRefusal::OtherOrder);
    }
    update(alloc, held, message)
}

/// Returns what a vehicle does with a message of the order that it holds.
fn update(alloc: Global, held: &OrderMessage, message: &OrderMessage) -> Result<Joined, JoinRefusal>
    ensures { IsAnswer (update_of held.now message.now) result }
{
    if held.update == message.update {
        return Ok(Joined::Same);
    }
    if message.update < held.update {
        return Err(JoinRefusal::Lower);
    }
    if !is_stitched(held.nodes.as_slice(), message.nodes.as_slice()) {
        return Err(JoinRefusal::NotStitched);
    }
    Ok(Joined::Taken(stitched(alloc, held, message)?))
}
