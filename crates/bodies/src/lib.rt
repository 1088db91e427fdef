// Bodies judged and not kept.
#![tactic(auto)]

mod bodies;
mod hexes;
mod rows;
mod words;

pub use bodies::body_at;
