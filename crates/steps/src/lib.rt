// One thing expected at a place of a file: the layout's steps. Each answers a refusal where the token there is another one.
#![tactic(auto)]

mod pair;
mod step;

pub use pair::pair_at;
pub use step::{left_at, number_at, right_at};
