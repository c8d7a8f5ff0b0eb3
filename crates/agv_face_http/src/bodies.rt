//! The bodies of requests: `body_calls` gives the call that a route and a body make (`specs/bodies/BodyCalls.antt`).
//! `commands` and `order_body` read JSON by its `members`, `state_body` reads a state message, and `csv_bodies` CSV.

pub(crate) mod body_calls;
pub(crate) mod commands;
pub(crate) mod csv_bodies;
pub(crate) mod members;
pub(crate) mod order_body;
pub(crate) mod state_body;
