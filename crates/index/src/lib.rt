// The index block: what it holds, the messages that change it, and its sets as text.

#![tactic(auto)]

mod block;
mod messages;
mod refusals;
mod text;

pub use crate::block::checks::{good_block, tested};
pub use crate::block::doors::{
    capitals_of, count_of, counts_x, denials_of, id_of, key_of, marks_of, net_of, pair_of, size_of,
};
pub use crate::block::good::GoodBlock;
pub use crate::block::kinds::kind_of;
pub use crate::block::making::make;
pub use crate::messages::lists::carry_out;
pub use crate::messages::plain::message;
pub use crate::messages::run::pack;
pub use crate::messages::wide::wide;
pub use crate::refusals::{ReadError, Refusal};
pub use crate::text::sets::{read_set, write_set};

// How many bytes the header has, and a record.
pub const HEADER: usize = 16;

pub const RECORD: usize = 24;

// How many letters there are, the two markers among them.
pub const LETTER_COUNT: usize = 10;

// The markers, which follow the eight letters.
pub const MARKER_X: usize = 8;

pub const MARKER_N: usize = 9;

// No record has more letters than so many: a permission may have the most.
pub const MOST_LETTERS: usize = 8;

// How many rights there are: they are the first letters.
pub const RIGHTS: usize = 4;

// The mask of all of them.
pub const ALL: u8 = 15;

// Names are the numbers below this one.
pub const NAMES: usize = 1024;

// The greatest name.
pub const GREATEST_NAME: usize = 1023;

// The greatest count.
pub const GREATEST_COUNT: usize = 65535;

// Keys and ids are numbers below this one. As a pair they are the key, plus this many times the id.
pub const PAIR: usize = 65536;

// The greatest length of a block, and how many records there is room for in it.
pub const GREATEST: usize = HEADER + RECORD * ROOM;

pub const ROOM: usize = 2048;

// How many bytes a plain message has: kind, flags, and two halves.
pub const MESSAGE: usize = 12;

// What a record says. Membership: the key is a member of the group id. Permission: id is granted or denied rights on
// key. Filter: the filter named id bounds key.
#[derive(Clone, Copy)]
pub enum Kind {
    Membership,
    Permission,
    Filter,
}
