// The usual coordinates in one look at their bytes. Nothing is refused: whatever else stands there is left to the step that takes the token apart.
#![tactic(auto)]

mod leads;
mod went;
mod window;

pub use leads::quick_lead;
pub use went::quick_pair;
