// What a record says of one right.

ghost use Rattle.std.specs.Prelude.{◌<◌};
ghost use Rattle.index.specs.Block.{records, NetAt};
ghost use Rattle.index.specs.work.Checks.{Says};
ghost use Rattle.rights.specs.Held.{Net};

use crate::right::Right;
use index::{GoodBlock, Kind, PAIR};

// The small letter of a right is so many places on from the capital one.
const SMALL: u8 = index::RIGHTS as u8;

// The right is in the net mask of record i.
pub(crate) fn has_right(block: GoodBlock<'_>, i: usize, right: Right) -> bool
    requires { i < records block.bytes.now }
    ensures { Says (NetAt block.entry.bytes.now i right.place) result }
{
    if index::count_of(block.bytes, i as u16, right.place) == 0 {
        return false;
    }
    index::count_of(block.bytes, i as u16, right.place + SMALL) == 0
}

// The record of the kind with the key x and the id y has the right in its net mask.
pub(crate) fn has_net(block: GoodBlock<'_>, kind: Kind, x: u16, y: u16, right: Right) -> bool
    ensures { Says (Net block.entry.bytes.now kind x y right.place) result }
{
    let part = directory::part_of(block.bytes, kind);
    let pair = (x as usize) + PAIR * (y as usize);
    for i in part.from..part.end {
        if index::pair_of(block.bytes, i) == pair {
            return has_right(block, i, right);
        }
    }
    false
}
