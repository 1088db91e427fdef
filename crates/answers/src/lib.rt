// Answers as flat numbers, for programs in other languages.
#![tactic(auto)]

mod answers;

pub use answers::{answer_audit, answer_read, answer_write};
