//! States with a position of the vehicle.
ghost use Rattle.std.specs.Prelude.{◌≡◌};
ghost use Rattle.std.specs.List.{list_any};
ghost use Rattle.serde_json.specs.View.{view};
ghost use Rattle.agv_message_json.specs.Members.{has as has_member};
ghost use Rattle.agv_message_json.specs.Position.{some_item_has, has_position as holds_position};

use crate::members::{has, items};
use serde_json::Value;

/// Returns whether the state has a position, a velocity or a trajectory, whatever else it has.
#[tactic(auto, unfolding(crate::specs::Position::has_position))]
pub fn has_position(state: &Value) -> bool
    ensures { result ≡ holds_position (view state.now) }
{
    has(state, "agvPosition")
        || has(state, "velocity")
        || some_item_has(state, "nodeStates", "nodePosition")
        || some_item_has(state, "edgeStates", "trajectory")
}

/// Returns whether some item of the member `list` has a member `name`.
fn some_item_has(state: &Value, list: &str, name: &str) -> bool
    ensures { result ≡ some_item_has list.now name.now (view state.now) }
{
    match items(state, list) {
        Some(items) => any_has(items, name),
        None => false,
    }
}

/// Returns whether some item has a member `name`.
fn any_has(items: &[Value], name: &str) -> bool
    ensures { result ≡ list_any (λ item. has_member name.now (view item)) items.now }
{
    items.iter().any(|item| has(item, name))
}
