// The faults of a face's count and nodes, kinds 1 to 3: whether there is one, and all of them as one number.
#![tactic(auto)]

mod faces;
mod marks;
mod sound;

pub use marks::node_part;
pub use sound::any_node_fault;
