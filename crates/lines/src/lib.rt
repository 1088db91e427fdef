// Lines of text with decimal numbers, and a line for each record of a list.
#![tactic(auto)]

mod lines;
mod listed;
mod put;

pub use lines::put_line;
pub use listed::put_total;
