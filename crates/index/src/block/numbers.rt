// 16-bit numbers in a block, low byte first, one by one or two as one.

ghost use Rattle.std.specs.Prelude.{◌+◌, ◌<◌, ◌≤◌, length};
ghost use Rattle.index.specs.Block.{number};
ghost use Rattle.index.specs.work.Bytes.{Put, Num, Pair};

// The numbers in a block are below this one.
pub(crate) const NUMBERS: u32 = 65536;

// The number at byte i.
pub(crate) fn number_at(b: &[u8], i: usize) -> usize
    requires { i + 1 < length b.now }
    ensures { Num (number b.now i) result }
{
    u16::from_le_bytes([b[i], b[i + 1]]) as usize
}

// The numbers at bytes i and i + 2 as one: the four bytes are looked at in one go.
pub(crate) fn pair_at(b: &[u8], i: usize) -> u32
    requires { i + 4 ≤ length b.now }
    ensures { Pair (number b.now i) (number b.now (i + 2)) result }
{
    u32::from_le_bytes([b[i], b[i + 1], b[i + 2], b[i + 3]])
}

// Write n at byte i.
pub(crate) fn put_number(b: &mut [u8], i: usize, n: usize)
    requires { (i + 1 < length b.old) × (n < 65536) }
    ensures { Put i n b.old b.new }
{
    let [low, high] = (n as u16).to_le_bytes();
    b[i] = low;
    b[i + 1] = high;
}
