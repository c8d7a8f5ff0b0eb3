//! Which loads a decision moves.
ghost use Rattle.std.specs.Prelude.{◌≡◌, IfOk};
ghost use Rattle.agv_desk.specs.Moves.{moves_in};

use crate::Decision;
use agv_header::{Memory, Name};
use agv_stock::Place;
use agv_world_core::Change;
use std::alloc::Global;

/// Returns the loads that a decision moves, each with its new place, in the order of the decision's changes.
///
/// Returns `Memory` if an allocation was refused.
pub fn moves_of(alloc: Global, decision: &Decision) -> Result<Vec<(Name, Place)>, Memory>
    ensures { IfOk result (λ moves. moves.items ≡ moves_in decision.now.changes) }
{
    let mut moves = Vec::new(alloc);
    for change in decision.changes.as_slice() {
        if let Change::Load(load, place) = change {
            moves.push((*load, *place))?;
        }
    }
    Ok(moves)
}
