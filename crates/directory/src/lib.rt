// The directory of keys: where each key's records begin, part by part; and the calls by a directory.
#![tactic(auto)]

mod calls;
mod doors;
mod making;
mod testing;

pub use crate::calls::{message_by, read_by, wide_by, write_by};
pub use crate::doors::{part_of, record_by};
pub use crate::making::make_directory;
pub use crate::testing::tested_by;

// How many entries a part of a directory has: one for each key, and one for the part's end.
pub const PART: usize = index::NAMES + 1;

// How many entries a directory has: those of three parts.
pub const LENGTH: usize = 3 * PART;

// Numbers that follow each other: the first, and the one after the last.
#[derive(Clone, Copy)]
pub struct Span {
    pub from: usize,
    pub end: usize,
}
