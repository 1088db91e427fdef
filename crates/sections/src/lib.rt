// One section judged, its rows left out.
#![tactic(auto)]

mod by_lists;
mod section;

pub use by_lists::section_by_lists;
pub use section::section_at;
