// Appointments with a first and last day: memberships that are in a block on the days on which they stand.
#![tactic(auto)]

mod asking;
mod days;
mod list;
mod moving;
mod testing;

pub use crate::asking::{next_change, stands};
pub use crate::moving::moved;

// How many bytes an appointment has in a list: key, id, mask, marker, the first date's year, month and day, the term in months, zero.
pub const APPOINTMENT: usize = 12;

// How many a list may have.
pub const MOST: usize = 256;
