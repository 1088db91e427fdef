// What a text mesh says and what reading it answers: types, definitions and theorems. No function: `numbering` has the number of a refusal.
#![tactic(auto)]

// Why a file is refused, in the order of the paper's numbers 1 to 14.
#[derive(Clone, Copy, Debug, PartialEq, Eq)]
pub enum Refusal {
    TooLong,
    Grammar,
    Number,
    Binary,
    Undeclared,
    Range,
    TableRoom,
    Overlap,
    Type,
    Dimension,
    ZoneRoom,
    Depth,
    Missing,
    Untiled,
}

// What an accepted file says: its dimension, its totals, and how many zone records it has.
#[derive(Clone, Copy, Debug, PartialEq, Eq)]
pub struct Accepted {
    pub dim: u32,
    pub nodes: u32,
    pub faces: u32,
    pub cells: u32,
    pub zones: u32,
}

// Why a file is refused, in which section, and at which byte.
#[derive(Clone, Copy, Debug, PartialEq, Eq)]
pub struct Refused {
    pub why: Refusal,
    pub section: u32,
    pub offset: usize,
}
