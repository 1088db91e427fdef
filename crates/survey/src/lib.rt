// Judging a file: the whole of it in order, no table touched.
#![tactic(auto)]

mod file;

pub use file::{Located, locate, survey};
