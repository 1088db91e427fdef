// Reading a file into lent tables and a lent list of zone records.
#![tactic(auto)]

mod lent;
mod zones;

pub use filling::{Found, read_flat};
pub use lent::read;
