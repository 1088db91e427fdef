// The reader, the audit, the writer and the report for programs in other languages: numbers and slices only.
#![tactic(auto)]

mod calls;

pub use calls::{ravneket_audit, ravneket_read, ravneket_report, ravneket_write};
