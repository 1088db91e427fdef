// A mesh written from its tables: judged, measured, then written.
#![tactic(auto)]

mod answer;
mod cell_rows;
mod cells;
mod face_rows;
mod faces;
mod flat;
mod front;
mod head;
mod judge;
mod node_rows;
mod nodes;
mod records;
mod rows;
mod section;
mod tables;
mod text;
mod words;
mod zones;

pub use answer::{Refusal, write_flat};
pub use zones::write;
