// The rights: the walk and the two questions.
#![tactic(auto)]

mod filter;
mod grants;
mod groups;
mod letting;
mod limited;
mod lookup;
mod members;
mod near;
mod question;
mod questions;
mod room;
mod source;
mod walk;

pub use crate::grants::Reach;
pub use crate::letting::let_through;
pub use crate::limited::rights_to;
pub use crate::near::is_near;
pub use crate::questions::{ask_refusal, may, may_by, rights_by, rights_of};

// A chain has at most so many records.
pub const LIMIT: usize = 32;

// The greatest limit that may be asked for, which is the full question's.
pub(crate) const LAST_LIMIT: u64 = LIMIT as u64;

// Denials that win: in the strict profile a right that is barred is not held.
#[derive(Clone, Copy)]
pub enum Profile {
    Ordinary,
    Strict,
}
