// A record in a block is written: its key, its id and its counts, each a number.

ghost use Rattle.std.specs.Prelude.{◌≡◌, ℕ, ◌+◌, ◌*◌, ◌<◌, ◌≤◌, length, get_or};
ghost use Rattle.index.specs.Letters.{letter_count};
ghost use Rattle.index.specs.Block.{place};
ghost use Rattle.index.specs.work.Bytes.{Put};
ghost use Rattle.index.specs.work.Written.{Entered};

use crate::block::numbers::put_number;
use crate::{HEADER, LETTER_COUNT, RECORD};

// Write n as the count of letter k in record i.
pub(crate) fn put_count(b: &mut [u8], i: usize, k: usize, n: usize)
    requires { (place (i + 1) ≤ length b.old) × (k < letter_count) × (n < 65536) }
    ensures { Put (place i + 4 + 2 * k) n b.old b.new }
{
    put_number(b, HEADER + RECORD * i + 4 + 2 * k, n)
}

// Writes record i of a block.
pub(crate) fn put_entry(
    b: &mut [u8],
    i: usize,
    key: usize,
    name: usize,
    counts: &[usize; LETTER_COUNT],
)
    requires key_bound { (key < 65536) × (name < 65536) × (place (i + 1) ≤ length b.old) }
    requires counts_len { (length counts.now ≡ letter_count) × ((k : ℕ) → get_or counts.now k 0 ≤ 65535) }
    ensures { Entered key i (record { id = name; counts = counts.now }) b.old b.new }
{
    let at = HEADER + RECORD * i;
    put_number(b, at, key);
    put_number(b, at + 2, name);
    for (k, count) in counts.iter().enumerate() {
        put_number(b, at + 4 + 2 * k, *count);
    }
}
