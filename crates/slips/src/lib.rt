// Slips: the chains and the grant that a right rests on, found for a user and an object, or checked.
#![tactic(auto)]

mod checking;
mod finding;
mod records;
mod right;
mod starts;
mod testing;
mod trails;

pub use crate::checking::check_slip;
pub use crate::finding::find_slip;

// A chain has at most so many names: one more than it has records.
pub const CHAIN: usize = rights::LIMIT + 1;

// A slip that is found: how many names are on the user's chain, and on the object's.
#[derive(Clone, Copy)]
pub struct Slip {
    pub users: u8,
    pub objects: u8,
}
