//! What `agv_tests_scripts` plays: scripts, which are requests and their answers as text, worked out by hand.
//!
//! - [`lines`] reads the text of a script.
//! - [`scripts`] has the texts, by their subjects.
//! - [`fails_at`] has a world in memory whose store fails at one of its questions.
//!
//! Nothing here may end the process: a function returns `None` if an allocation is refused, or if a text
//! is not a script.
#![tactic(auto)]

pub mod fails_at;
pub mod lines;
pub mod scripts;
