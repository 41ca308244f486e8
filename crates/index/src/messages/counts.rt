// The counts of one record, and the letters that go down or up in it.

ghost use Rattle.std.specs.Prelude.{◌≡◌, ℕ, ◌+◌, ◌<◌, ◌≤◌, length, get_or};
ghost use Rattle.index.specs.Letters.{letter_count};
ghost use Rattle.index.specs.Block.{place};
ghost use Rattle.index.specs.work.Checks.{Says};
ghost use Rattle.index.specs.work.Edits.{bit, Allows, Left, Recounted};

use crate::LETTER_COUNT;
use crate::block::numbers::NUMBERS;
use crate::block::record::Record;
use crate::block::records::put_count;

// 1 where letter k is in the mask, else 0.
fn bit_of(mask: usize, k: usize) -> usize
    requires { k < letter_count }
    ensures { (result ≡ bit mask k) × (result < 2) }
{
    (mask >> k) % 2
}

// The counts of a new record: 1 for each letter of the mask.
pub(crate) fn once(mask: usize) -> [usize; LETTER_COUNT]
    ensures { (length result ≡ letter_count) × ((k : ℕ) → k < letter_count → get_or result k 0 ≡ bit mask k) }
{
    let mut counts = [0usize; LETTER_COUNT];
    for k in 0..LETTER_COUNT {
        counts[k] = bit_of(mask, k);
    }
    counts
}

impl Record<'_> {
    // Each count of the record can do without one for each letter of `less` and with one for each letter of `more`. What a count then is, and
    // 65,536 with it, has bit 16 just where the count is 0 to 65,535, so that one look at all of them, joined, tells.
    pub(crate) fn allows(self, less: usize, more: usize) -> bool
        ensures { Says (Allows self.entry.block.now self.entry.i less more) result }
    {
        let mut all = NUMBERS;
        for k in 0..LETTER_COUNT {
            let n = NUMBERS + (self.count(k) as u32) + (bit_of(more, k) as u32);
            all &= n - (bit_of(less, k) as u32);
        }
        0 < (all / NUMBERS) % 2
    }

    // A count of the record is above zero without one for each letter of the mask.
    pub(crate) fn left_over(self, mask: usize) -> bool
        ensures { Says (Left self.entry.block.now self.entry.i mask) result }
    {
        (0..LETTER_COUNT).any(|k| bit_of(mask, k) < self.count(k))
    }
}

// In record i each letter of `less` goes down by one, and each letter of `more` up.
pub(crate) fn recount(b: &mut [u8], i: usize, less: usize, more: usize)
    requires { (place (i + 1) ≤ length b.old) × Allows b.old i less more }
    ensures { Recounted i less more b.old b.new }
{
    for k in 0..LETTER_COUNT {
        let count = Record { block: b, i }.count(k) + bit_of(more, k);
        put_count(b, i, k, count - bit_of(less, k));
    }
}
