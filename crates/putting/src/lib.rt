// Bytes and numbers laid one behind the other. A byte past the end is counted and not kept, so that the same functions measure a text and write it. Those that write rows (`lay_`) say nothing of a text that has no room for all of it.
#![tactic(auto)]

mod number;
mod put;
mod signed;
mod worded;

pub use number::{put_decimal, put_hex};
pub use put::{put_byte, put_text};
pub use signed::lay_signed;
pub use worded::lay_word;
