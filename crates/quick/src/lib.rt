// The usual whole numbers in one look at their bytes. Nothing is refused: whatever else stands there is left to the steps that take the token apart.
#![tactic(auto)]

mod words;

pub use words::{digit_hex, known_hex, quick_hex};
