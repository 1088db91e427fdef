// Words counted in blocks of eight bytes.
#![tactic(auto)]

mod block;

pub use block::{Block, block_of};
