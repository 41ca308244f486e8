// A plain second engine, which the desk can follow with a finger: no marks, no lists. Each function says what it asks.
#![tactic(auto)]

mod asking;
mod filters;
mod grants;
mod groups;
mod reaching;
mod records;
mod right;

pub use crate::asking::rights_within;

// The greatest limit that the engine takes.
pub const LIMIT: u64 = 8;

// It takes a block with at most so many M records.
pub const MOST: u16 = 64;
