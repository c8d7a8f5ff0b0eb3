//! The bytes of answers (`specs/answers/Answers.antt`): an `answer` is its `head` and its `content`. Both are written
//! as pieces (`piece`, `words`), the bodies by `body`, `job_body` and `vehicle_body`; `last_words` has two answers as
//! constants, and `outcome` proves bounds of the parts of an answer.

pub(crate) mod answer;
pub(crate) mod body;
pub(crate) mod content;
pub(crate) mod head;
pub(crate) mod job_body;
pub(crate) mod last_words;
pub(crate) mod outcome;
pub(crate) mod piece;
pub(crate) mod vehicle_body;
pub(crate) mod words;
