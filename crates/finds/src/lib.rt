// The first parenthesis or quote, and the end of a string, looked for in eight bytes at once.
#![tactic(auto)]

mod marks;
mod quotes;
mod runs;

pub use marks::mark_from;
pub use quotes::quote_from;
