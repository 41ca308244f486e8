// Where the M records of each name begin.

ghost use Rattle.slips.specs.work.Trails.{Begins};

use index::{GoodBlock, Kind, NAMES, PAIR};

// Stands for the first M record of a name that has none: no block has a record of this number.
pub(crate) const NONE: u16 = 65535;

// The number of the first M record of each name, noted from the last record to the first.
pub(crate) fn note_starts(block: GoodBlock<'_>, firsts: &mut [u16; NAMES])
    ensures { Begins block.entry.bytes.now firsts.new 0 }
{
    let end = index::size_of(block.bytes, Kind::Membership) as usize;
    for i in (0..end).rev() {
        firsts[index::pair_of(block.bytes, i) % PAIR] = i as u16;
    }
}
