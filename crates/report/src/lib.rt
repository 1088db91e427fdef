// What the report program prints, as bytes.
#![tactic(auto)]

mod printed;

pub use printed::report;
