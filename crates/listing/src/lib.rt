// The types and elements that a section may have.
#![tactic(auto)]

mod listed;

pub use listed::{fifth_listed, type_listed};
