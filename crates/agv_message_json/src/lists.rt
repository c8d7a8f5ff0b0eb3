//! The lists of a state: the nodes still to be traversed, and the actions.
ghost use Rattle.std.specs.Prelude.{◌≡◌, IfOk, codes, map};
ghost use Rattle.serde_json.specs.View.{view};
ghost use Rattle.agv_header.specs.Each.{each};
ghost use Rattle.agv_message_json.specs.Members.{whole_at};
ghost use Rattle.agv_message_json.specs.State.{action_at, actions_at, node_seqs_at, status_at};

use crate::members::{items, text, whole};
use agv_header::Memory;
use agv_message_core::{Sequence, Status, Text};
use serde_json::Value;
use std::alloc::Global;

/// Reads the sequence numbers of the nodes still to be traversed, if the state has such a list.
#[tactic(auto, unfolding(crate::specs::State::node_seqs_at))]
pub fn node_seqs(alloc: Global, state: &Value) -> Result<Option<Sequence<u32>>, Memory>
    ensures { IfOk result (λ read. read ≡ node_seqs_at (view state.now)) }
{
    match items(state, "nodeStates") {
        Some(nodes) => sequence_ids(alloc, nodes),
        None => Ok(None),
    }
}

/// Reads the sequence number of each node, if every one has it.
fn sequence_ids(alloc: Global, nodes: &[Value]) -> Result<Option<Sequence<u32>>, Memory>
    ensures { IfOk result
        (λ read. read ≡ each (whole_at (codes "sequenceId")) (map view nodes.now)) }
{
    let mut ids = Vec::new(alloc);
    for node in nodes {
        let Some(id) = whole(node, "sequenceId") else {
            return Ok(None);
        };
        ids.push(id)?;
    }
    Ok(Some(ids.into()))
}

/// Reads the actions that are reported, if the state has such a list.
#[tactic(auto, unfolding(crate::specs::State::actions_at))]
pub fn actions(alloc: Global, state: &Value) -> Result<Option<Sequence<(Text, Status)>>, Memory>
    ensures { IfOk result (λ read. read ≡ actions_at (view state.now)) }
{
    match items(state, "actionStates") {
        Some(actions) => reports(alloc, actions),
        None => Ok(None),
    }
}

/// Reads the id and the status of each action, if every one has them.
fn reports(alloc: Global, actions: &[Value]) -> Result<Option<Sequence<(Text, Status)>>, Memory>
    ensures { IfOk result (λ read. read ≡ each action_at (map view actions.now)) }
{
    let mut reports = Vec::new(alloc);
    for entry in actions {
        let Some(report) = action(alloc, entry)? else {
            return Ok(None);
        };
        reports.push(report)?;
    }
    Ok(Some(reports.into()))
}

/// Reads an action's id and status, if it has them.
#[tactic(auto, unfolding(crate::specs::State::action_at))]
fn action(alloc: Global, action: &Value) -> Result<Option<(Text, Status)>, Memory>
    ensures { IfOk result (λ read. read ≡ action_at (view action.now)) }
{
    match (text(action, "actionId"), status(action)) {
        (Some(id), Some(status)) => Ok(Some((Text::copy_of(alloc, id)?, status))),
        _ => Ok(None),
    }
}

/// Reads an action's status, if it has one.
#[tactic(auto, unfolding(crate::specs::State::status_at))]
fn status(action: &Value) -> Option<Status>
    ensures { result ≡ status_at (view action.now) }
{
    Status::of(text(action, "actionStatus")?)
}
