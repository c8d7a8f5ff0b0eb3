//! Judging a state of a vehicle without a trip.
ghost use Rattle.std.specs.Prelude.{◌≡◌};
ghost use Rattle.agv_track.specs.Idle.{may_stand, idle_refusals, judged_idle};

use crate::Pending;
use crate::reports::{has_pending_twice, is_pending_over};
use agv_header::{Name, Refusal};
use agv_message_core::StateMessage;

/// Judges a state of a vehicle that has no open order, or has not accepted it yet and reports an earlier
/// one: returns whether the pending action is over, finished or failed. It takes no memory.
///
/// `node` is where the desk has the vehicle. The refusals, in this order:
///
/// - `ActionTwice`: the id of the pending action is listed twice or more.
/// - `NotThere`: the last node is neither that node nor empty.
#[tactic(auto, unfolding(crate::specs::Idle::idle_refusals, crate::specs::Idle::judged_idle))]
pub fn judge_idle(
    node: Name,
    pending: Option<Pending>,
    state: &StateMessage,
) -> Result<bool, Refusal>
    ensures { result ≡ judged_idle node pending state.now }
{
    if has_pending_twice(pending, state) {
        return Err(Refusal::ActionTwice);
    }
    if !may_stand(node, state.last_node.as_str()) {
        return Err(Refusal::NotThere);
    }
    Ok(is_pending_over(pending, state))
}

/// Returns whether the last node is the one where the desk has the vehicle, or none is reported.
fn may_stand(node: Name, last_node: &str) -> bool
    ensures { result ≡ may_stand node last_node.now }
{
    last_node.is_empty() || node.as_str() == last_node
}
