// A record that the block has all of, lent to be read: its key, its id and its counts.

ghost use Rattle.std.specs.Prelude.{◌≡◌, ◌+◌, ◌*◌, ◌<◌, ◌≤◌, length};
ghost use Rattle.index.specs.Letters.{letter_count};
ghost use Rattle.index.specs.Block.{place, key, id, count_at};
ghost use Rattle.index.specs.work.Bytes.{Num, Pair};
ghost use Rattle.index.specs.work.Places.{spot};

use crate::block::numbers::{number_at, pair_at};
use crate::{HEADER, NAMES, RECORD};

// Record i of a block that has all of it.
#[derive(Clone, Copy)]
pub(crate) struct Record<'a> {
    pub(crate) block: &'a [u8],
    pub(crate) i: usize,
    ghost whole: { place (i + 1) ≤ length block.now },
}

impl Record<'_> {
    // The key of the record.
    pub(crate) fn key(self) -> usize
        ensures { Num (key self.entry.block.now self.entry.i) result }
    {
        number_at(self.block, HEADER + RECORD * self.i)
    }

    // The id of the record.
    pub(crate) fn id(self) -> usize
        ensures { Num (id self.entry.block.now self.entry.i) result }
    {
        number_at(self.block, HEADER + RECORD * self.i + 2)
    }

    // The count of letter k in the record.
    pub(crate) fn count(self, k: usize) -> usize
        requires { k < letter_count }
        ensures { Num (count_at self.entry.block.now self.entry.i k) result }
    {
        number_at(self.block, HEADER + RECORD * self.i + 4 + 2 * k)
    }

    // Key and id of the record as one number, the key in the low half: the four bytes are looked at in one go.
    pub(crate) fn pair(self) -> u32
        ensures { Pair (key self.entry.block.now self.entry.i) (id self.entry.block.now self.entry.i) result }
    {
        pair_at(self.block, HEADER + RECORD * self.i)
    }

    // Key and id of the record as one number: records of a part rise by it.
    pub(crate) fn spot(self) -> usize
        ensures { (result ≡ spot self.entry.block.now self.entry.i) × (result < 67174400) }
    {
        NAMES * self.key() + self.id()
    }
}
