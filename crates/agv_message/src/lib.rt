//! The messages of VDA 5050 2.0 between a vehicle's gateway and the desk, and their JSON.
//!
//! - `agv_message_core` has the messages: [`StateMessage`], [`OrderMessage`], [`InstantMessage`] and their parts.
//! - `agv_message_json` reads and writes them: [`read_body`] and [`read_state`], [`order_text`] and [`instant_text`].
#![tactic(auto)]

pub use agv_message_core::{
    ActKind, Header, InstantKind, InstantMessage, OrderAct, OrderEdge, OrderMessage, OrderNode,
    Sequence, StateMessage, Status, Text,
};
pub use agv_message_json::{BodyFault, instant_text, order_text, read_body, read_state};
