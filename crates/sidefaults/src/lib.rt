// The faults of a face's sides, kinds 4 to 7: whether there is one, and all of them as one number.
#![tactic(auto)]

mod faces;
mod marks;
mod sound;

pub use marks::side_part;
pub use sound::any_side_fault;
