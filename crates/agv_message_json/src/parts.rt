//! The members of a state that the desk reads.
ghost use Rattle.std.specs.Prelude.{◌≡◌, ℕ, true, false, None, Ok, IfNone, IfOk, IfSome, codes};
ghost use Rattle.serde_json.specs.View.{view};
ghost use Rattle.agv_message_json.specs.Parts.{message_from, message_with, texts_of};
ghost use Rattle.agv_message_json.specs.State.{is_bad, lacks_members, state_message, text};

use crate::condition::Condition;
use crate::lists;
use crate::opening::{Opening, Progress};
use agv_header::{Memory, Moment};
use agv_message_core::{Sequence, StateMessage, Status, Text};
use serde_json::Value;
use std::alloc::Global;

/// The parts of a state. Its timestamp is still a text.
#[derive(Drop)]
pub struct Parts<'a> {
    pub opening: Opening<'a>,
    pub progress: Progress<'a>,
    pub condition: Condition,
    pub node_seqs: Sequence<u32>,
    pub actions: Sequence<(Text, Status)>,
}

/// Copies of the texts in a state's parts.
#[derive(Drop)]
struct Texts {
    manufacturer: Text,
    serial: Text,
    order_id: Text,
    last_node: Text,
}

impl<'a> Parts<'a> {
    /// Reads the parts of the state, or returns `None` if a member is missing or of the wrong kind.
    #[tactic(auto, unfolding(crate::specs::State::is_bad))]
    pub fn of(alloc: Global, state: &'a Value) -> Result<Option<Parts<'a>>, Memory>
        ensures lacking { lacks_members (view state.now) ≡ true → result ≡ Ok None }
        ensures bad { IfOk result (λ parts. IfNone parts (is_bad (view state.now) ≡ true)) }
        ensures good { IfOk result (λ parts. IfSome parts (λ _. is_bad (view state.now) ≡ false)) }
        ensures timestamp { IfOk result (λ parts. IfSome parts
            (λ p. p.opening.timestamp.now ≡ text (codes "timestamp") (view state.now))) }
        ensures version { IfOk result (λ parts. IfSome parts
            (λ p. p.opening.version.now ≡ text (codes "version") (view state.now))) }
        ensures message { IfOk result (λ parts. IfSome parts
            (λ p. (at : ℕ) → state_message at (view state.now) ≡ message_from at p)) }
    {
        let Some(opening) = Opening::of(state) else {
            return Ok(None);
        };
        let Some(progress) = Progress::of(state) else {
            return Ok(None);
        };
        let Some(condition) = Condition::of(state) else {
            return Ok(None);
        };
        let Some(node_seqs) = lists::node_seqs(alloc, state)? else {
            return Ok(None);
        };
        let Some(actions) = lists::actions(alloc, state)? else {
            return Ok(None);
        };
        Ok(Some(Parts {
            opening,
            progress,
            condition,
            node_seqs,
            actions,
        }))
    }

    /// Makes the message of the parts, with its moment.
    pub fn message(self, alloc: Global, at: Moment) -> Result<StateMessage, Memory>
        ensures { IfOk result (λ message. message ≡ message_from at self.entry) }
    {
        let texts = self.texts(alloc)?;
        Ok(self.with_texts(texts, at))
    }

    /// Copies the texts of the parts.
    fn texts(&self, alloc: Global) -> Result<Texts, Memory>
        ensures { IfOk result (λ texts. texts ≡ texts_of self.now) }
    {
        let (manufacturer, serial) = copies(alloc, self.opening.manufacturer, self.opening.serial)?;
        let (order_id, last_node) = copies(alloc, self.progress.order, self.progress.last_node)?;
        Ok(Texts {
            manufacturer,
            serial,
            order_id,
            last_node,
        })
    }

    /// Makes the message of the parts, with copies of their texts.
    fn with_texts(self, texts: Texts, at: Moment) -> StateMessage
        ensures { result ≡ message_with at self.entry texts }
    {
        StateMessage {
            header_id: self.opening.number,
            at,
            manufacturer: texts.manufacturer,
            serial: texts.serial,
            order_id: texts.order_id,
            update: self.progress.update,
            last_node: texts.last_node,
            last_seq: self.progress.last_seq,
            node_seqs: self.node_seqs,
            actions: self.actions,
            ready: self.condition.ready,
            paused: self.condition.paused,
        }
    }
}

/// Copies two texts.
fn copies(alloc: Global, first: &str, second: &str) -> Result<(Text, Text), Memory>
    ensures { IfOk result (λ copies. copies ≡ (first.now, second.now)) }
{
    let first = Text::copy_of(alloc, first)?;
    let second = Text::copy_of(alloc, second)?;
    Ok((first, second))
}
