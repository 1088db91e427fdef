// The second pass: the tables that are lent, filled from a file that is judged first.
#![tactic(auto)]

mod fill;
mod flat;
mod parts;
mod tops;
mod words;

pub use flat::{Found, read_flat};
