// What is written: the rows that are lent, and what is declared of them.

// Three pairs a node, two words a cell, eight words a face.
#[derive(Clone, Copy)]
pub(crate) struct Tables<'a> {
    pub mantissas: &'a [i64],
    pub exponents: &'a [i32],
    pub faces: &'a [u32],
    pub cells: &'a [u32],
}

// How many rows of each kind there are, and how many coordinates a node has.
#[derive(Clone, Copy)]
pub(crate) struct Totals {
    pub dimension: u32,
    pub nodes: u32,
    pub faces: u32,
    pub cells: u32,
}
