// What is kept of a section that was met.
#![tactic(auto)]

mod note;

pub use note::{Met, keep, noted};
