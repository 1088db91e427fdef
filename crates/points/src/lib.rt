// Node rows, stored as their coordinates are read. Nothing is refused: the file is known to be good, and whatever stands there is stored.
#![tactic(auto)]

mod body;
mod pair;

pub use body::{coordinates_in, put_points};
