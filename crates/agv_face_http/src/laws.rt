//! Laws of the definitions that the contracts of this crate cite, whatever the code does. Each function except
//! [`requests::has_a_cut`] does nothing: its clause is the law.
//!
//! - [`requests`]: an input has one start, and what is heard in its first bytes holds for the whole input.
//! - [`output`]: each input has one output.
//! - [`routes`]: the table of routes.
//! - [`sizes`]: the lengths of answers.
//! - [`streams`]: an input that is served in parts.

pub mod output;
pub mod requests;
pub mod routes;
pub mod sizes;
pub mod streams;
