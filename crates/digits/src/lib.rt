// The next eight bytes as one number, and the digits at their start, all looked at at once.
#![tactic(auto)]

mod couple;
mod group;
mod lanes;
mod quick;

pub use couple::{Couple, couple_in, end_in};
pub use group::{Base, Group, group_of, marks};
pub use lanes::{bytes_at, unlike};
pub use quick::{Hexes, hexes_in};

// The highest bit of each of eight bytes.
pub const HIGHS: u64 = 0x8080808080808080;
