// What several crates share and the toolchain's library lacks: a type, definitions and laws. No function.
#![tactic(auto)]

// What was read at a place of some bytes, and the place behind it.
#[derive(Clone, Copy, Debug, PartialEq, Eq)]
pub struct Taken<T> {
    pub value: T,
    pub next: usize,
}
