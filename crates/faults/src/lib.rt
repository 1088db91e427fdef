// What a fault is, and the faults of one cell, found on values. Nothing is written here.
#![tactic(auto)]

mod bits;
mod cells;

pub use bits::bit_if;
pub use cells::{any_cell_fault, cell_marks};

// Dimension and totals that faults are judged by.
#[derive(Clone, Copy)]
pub struct Frame {
    pub dim: u32,
    pub nodes: u32,
    pub cells: u32,
}
