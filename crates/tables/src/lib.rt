// What is lent, counted in rows and words: room, the place of a section's rows, the place of its record.
#![tactic(auto)]

mod places;
mod room;

pub use places::{put_record, rows_before};
pub use room::room_for;
