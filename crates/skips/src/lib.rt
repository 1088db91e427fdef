// Sections that are stepped over. One that does not end, or goes too deep, is refused.
#![tactic(auto)]

mod skip;

pub use skip::skip_from;
