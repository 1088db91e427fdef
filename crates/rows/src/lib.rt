// Rows of faces and cells, stored as their words are read. Nothing is refused: the file is known to be good, and whatever stands there is stored.
#![tactic(auto)]

mod body;
mod row;
mod words;

pub use body::{put_rows, put_same};
pub use row::Form;
