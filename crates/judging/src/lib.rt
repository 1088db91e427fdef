// Headers judged by what came before them.
#![tactic(auto)]

mod judge;

pub use judge::{decl_judged, ensure, part_judged, unless};
