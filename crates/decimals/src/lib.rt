// Coordinates as exact decimals: what is kept of one, and what its bytes mean. The functions that
// read them stand in a crate above, so that what they mean is checked apart from them.
#![tactic(auto)]

mod decimal;
mod signed;

pub use decimal::{Cut, Decimal};
pub use signed::magnitude;
