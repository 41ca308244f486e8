// Is a block good?

ghost use Rattle.std.specs.Prelude.{◌≡◌, ◌+◌, ◌≤◌, length, IfOk};
ghost use Rattle.index.specs.Letters.{letter_count};
ghost use Rattle.index.specs.Block.{header_length, place, key, id, from, size, records, Good};
ghost use Rattle.index.specs.work.Bytes.{Pair};
ghost use Rattle.index.specs.work.Edits.{four_at, two_at, small_at, markers_at, barred_at};
ghost use Rattle.index.specs.work.Checks.{Says, Header, Counted, Part, Zero};
ghost use Rattle.index.specs.work.Sights.{Follows, SeesMore, Fair};
ghost use Rattle.index.specs.Calls.{block_needs};
ghost use Rattle.index.specs.Numbers.{number_of, Answers};

use crate::block::good::GoodBlock;
use crate::block::headed::HeadedBlock;
use crate::block::letters::may_have;
use crate::block::numbers::{NUMBERS, number_at, pair_at};
use crate::block::record::Record;
use crate::{GREATEST, HEADER, Kind, MARKER_X, NAMES, RECORD, RIGHTS, Refusal};

// Two numbers of a block, put together to one, are below this one.
const PAIRS: usize = 4294967296;

// What was seen of the records of a part, up to one of them: the least key and id, as one number, that the next may have; all keys and
// ids, joined, the keys in the high half; and all counts that the records may not have, joined.
#[derive(Clone, Copy)]
struct Sight {
    least: usize,
    names: u32,
    barred: usize,
}

impl Record<'_> {
    // The counts of the four letters from k on, as one number: the eight bytes are looked at in one go.
    fn four(self, k: usize) -> usize
        requires { k + 4 ≤ letter_count }
        ensures { result ≡ four_at self.entry.block.now self.entry.i k }
    {
        let at = HEADER + RECORD * self.i + 4 + 2 * k;
        (pair_at(self.block, at) as usize) + PAIRS * (pair_at(self.block, at + 4) as usize)
    }

    // The counts of the two markers, as one number.
    pub(crate) fn two(self) -> usize
        ensures { result ≡ two_at self.entry.block.now self.entry.i }
    {
        pair_at(self.block, HEADER + RECORD * self.i + 4 + 2 * MARKER_X) as usize
    }

    // The counts of the small letters, where the record may not have them as one of the kind, or none.
    fn small(self, kind: Kind) -> usize
        ensures { result ≡ small_at self.entry.block.now kind self.entry.i }
    {
        if may_have(kind, RIGHTS) {
            0
        } else {
            self.four(RIGHTS)
        }
    }

    // The counts of the markers, where the record may not have them as one of the kind, or none.
    fn markers(self, kind: Kind) -> usize
        ensures { result ≡ markers_at self.entry.block.now kind self.entry.i }
    {
        if may_have(kind, MARKER_X) {
            0
        } else {
            self.two()
        }
    }

    // The counts that the record may not have as one of the kind, joined.
    fn barred(self, kind: Kind) -> usize
        ensures { result ≡ barred_at self.entry.block.now kind self.entry.i }
    {
        self.small(kind) | self.markers(kind)
    }

    // The record has a count above zero. Mostly it has a capital letter.
    fn has_count(self) -> bool
        ensures { Says (Counted self.entry.block.now self.entry.i) result }
    {
        if self.four(0) != 0 {
            return true;
        }
        if self.four(RIGHTS) != 0 {
            return true;
        }
        0 < self.two()
    }

    // Key and id of the record as one number, the key in the high half: records rise by it, whatever their keys and ids are.
    fn rank(self) -> u32
        ensures { Pair (id self.entry.block.now self.entry.i) (key self.entry.block.now self.entry.i) result }
    {
        let pair = self.pair();
        NUMBERS * (pair % NUMBERS) + pair / NUMBERS
    }

    // The record has the least key and id or higher ones, and a count above zero.
    fn follows(self, least: usize) -> bool
        ensures { Says (Follows self.entry.block.now self.entry.i least) result }
    {
        least <= self.rank() as usize && self.has_count()
    }

    // What was seen, and the record of the kind.
    fn look(self, kind: Kind, sight: Sight) -> Sight
        ensures { SeesMore self.entry.block.now kind self.entry.i sight result }
    {
        let rank = self.rank();
        Sight {
            least: (rank as usize) + 1,
            names: sight.names | rank,
            barred: sight.barred | self.barred(kind),
        }
    }
}

// All keys and ids that were seen are names, and no record has a count that it may not have: one look at what was joined tells.
fn fair(sight: Sight) -> bool
    ensures { Says (Fair sight) result }
{
    sight.barred == 0
        && sight.names / NUMBERS < (NAMES as u32)
        && sight.names % NUMBERS < (NAMES as u32)
}

// The records numbered i to j - 1, as ones of the kind. They are looked at two at a time, which is faster than one at a time, and the last by
// itself where it has no other.
fn part_good(b: &[u8], kind: Kind, i: usize, j: usize) -> bool
    requires { (place j ≤ length b.now) × (i ≤ j) }
    ensures { Says (Part b.now kind i j) result }
{
    let mut n = i;
    let mut sight = Sight {
        least: 0,
        names: 0u32,
        barred: 0,
    };
    while n + 1 < j {
        let one = Record { block: b, i: n };
        if !one.follows(sight.least) {
            return false;
        }
        sight = one.look(kind, sight);
        let other = Record { block: b, i: n + 1 };
        if !other.follows(sight.least) {
            return false;
        }
        sight = other.look(kind, sight);
        n += 2;
    }
    if n < j {
        let last = Record { block: b, i: n };
        if !last.follows(sight.least) {
            return false;
        }
        sight = last.look(kind, sight);
    }
    fair(sight)
}

// Every byte from j on is zero.
fn zero_from(b: &[u8], j: usize) -> bool
    ensures { Says (Zero b.now j) result }
{
    let mut seen = 0u8;
    for t in j..b.len() {
        seen |= b[t];
    }
    seen == 0
}

impl HeadedBlock<'_> {
    // The header agrees with the parts, and the parts fit in the block.
    fn header_good(self) -> bool
        ensures { Says (Header self.entry.bytes.now) result }
    {
        let b = self.bytes;
        let m = number_at(b, 0);
        let p = number_at(b, 2);
        let f = number_at(b, 4);
        let zero = number_at(b, 6);
        let m_offset = number_at(b, 8);
        let p_offset = number_at(b, 10);
        let f_offset = number_at(b, 12);
        let end = number_at(b, 14);
        zero == 0
            && m_offset == HEADER
            && p_offset == HEADER + RECORD * m
            && f_offset == HEADER + RECORD * (m + p)
            && end == HEADER + RECORD * (m + p + f)
            && end <= b.len()
    }

    // The records of the kind.
    fn kind_good(self, kind: Kind) -> bool
        requires { place (records self.bytes.now) ≤ length self.bytes.now }
        ensures { Says (Part self.entry.bytes.now kind (from self.entry.bytes.now kind)
            (from self.entry.bytes.now kind + size self.entry.bytes.now kind)) result }
    {
        part_good(self.bytes, kind, self.first(kind), self.end(kind))
    }
}

// The block is good.
fn good(b: &[u8]) -> bool
    requires { header_length ≤ length b.now }
    ensures { Says (Good b.now) result }
{
    let block = HeadedBlock { bytes: b };
    if !block.header_good() {
        return false;
    }
    if !block.kind_good(Kind::Membership) {
        return false;
    }
    if !block.kind_good(Kind::Permission) {
        return false;
    }
    if !block.kind_good(Kind::Filter) {
        return false;
    }
    zero_from(b, number_at(b, 14))
}

// A block that is not 16 to 49,168 bytes long is refused, and then one that is not good.
pub fn tested(b: &[u8]) -> Result<(), Refusal>
    ensures { Answers (block_needs b.now) (number_of result) }
{
    if b.len() < HEADER {
        return Err(Refusal::Length);
    }
    if b.len() > GREATEST {
        return Err(Refusal::Length);
    }
    if !good(b) {
        return Err(Refusal::NotGood);
    }
    Ok(())
}

// The block as a good one, or its refusal.
pub fn good_block(b: &[u8]) -> Result<GoodBlock<'_>, Refusal>
    ensures number { Answers (block_needs b.now) (number_of result) }
    ensures same { IfOk result (λ block. block.bytes.now ≡ b.now) }
{
    tested(b)?;
    Ok(GoodBlock { bytes: b })
}
