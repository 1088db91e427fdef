// Words as whole numbers to a base, and where a word that is no number goes wrong. Each answer is a
// function of the word's bytes alone, and nothing is copied aside.
#![tactic(auto)]

mod digit;
mod sort;
mod whole;

pub use digit::digit_of;
pub use sort::{Sort, bad_at};
pub use whole::{hexadecimal, power_digits, section_id};
