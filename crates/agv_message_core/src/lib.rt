//! The messages between a vehicle's gateway and the desk, of VDA 5050 2.0. `agv_message_json` reads and writes them.
//!
//! - [`StateMessage`] is a vehicle's report of itself. [`Status`] is the status of one of its actions.
//! - [`OrderMessage`] has the nodes and edges that a vehicle is to drive, and its actions on the nodes.
//! - [`InstantMessage`] has an action that a vehicle carries out at once.
//! - [`Header`] is the header of every message that the desk writes.
//!
//! [`Sequence`] is a list and [`Text`] a text in a message. In clauses, the one is the list of its items and the
//! other the list of its bytes, so a message is a plain record there. Messages can be compared, and orders copied.
#![tactic(auto)]

mod header;
mod instant;
mod order;
mod sequence;
mod state;
mod status;
mod text;

pub use header::Header;
pub use instant::{InstantKind, InstantMessage};
pub use order::{ActKind, OrderAct, OrderEdge, OrderMessage, OrderNode};
pub use sequence::Sequence;
pub use state::StateMessage;
pub use status::Status;
pub use text::Text;
