// Words as coordinates: exact decimals. Each answer is a function of the bytes alone, and nothing is
// copied aside.
#![tactic(auto)]

mod finish;
mod leads;
mod mild;
mod power;
mod scan;
mod sign;
mod signed;
mod word;

pub use leads::lead;
pub use mild::mild_in;
pub use word::coordinate;
