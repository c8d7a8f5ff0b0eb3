//! The messages of `agv_message_core` as JSON, and the JSON of other bodies.
//!
//! Reading. A body is read in two steps, and each returns exactly what `specs/` says of the bytes,
//! or [`BodyFault::Memory`]:
//! - [`read_body`] returns the JSON value, in which every number is whole.
//! - [`read_state`] returns the state message that the value holds, or the first of its refusals: a
//!   position, a member that is absent or of the wrong kind, another version, a bad timestamp. A
//!   member that is null counts as absent, of two members with one name the last counts, and no
//!   other member is read.
//! - [`member`], [`has`], [`whole`] and [`items`] read members of other bodies in this way.
//!
//! Writing. [`put_order`] and [`put_instant`] append the exact bytes of an order or instantActions
//! message to a buffer, and take no memory if they fit; [`order_text`] and [`instant_text`] return
//! them alone. [`read_body`] would read them as the value that `specs/` builds from the message.
//! [`put_bytes`] and its like append the words that other JSON texts are made of.
#![tactic(auto)]

mod body;
mod condition;
mod instant_message;
mod lists;
mod members;
mod opening;
mod order_act;
mod order_edge;
mod order_message;
mod order_node;
mod parts;
mod piece;
mod position;
mod read;
mod stamp;
mod words;

pub use body::{BodyFault, read_body};
pub use instant_message::{instant_text, put_instant};
pub use members::{below_2_32, has, items, member, whole};
pub use order_message::{order_text, put_order};
pub use read::read_state;
pub use words::{
    put_action_id, put_bytes, put_instant_kind, put_name, put_name_after, put_number, put_truth,
    put_words,
};
