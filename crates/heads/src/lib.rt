// Headers, word by word. What stands there instead is refused.
#![tactic(auto)]

mod head;

pub use head::head_at;
