// What a crate above reads of a block. Every door answers for every input: bytes past the end count as 0; `pair_of`, `net_of`, `capitals_of`,
// `denials_of` and `marks_of` give 0 for a record that the block has not all of.

ghost use Rattle.std.specs.Prelude.{◌≡◌, true, ◌↔◌, ℕ, ◌+◌, ◌^◌, ◌<◌, ◌≤◌};
ghost use Rattle.index.specs.declared.Kind.TheVariants.{Membership};
ghost use Rattle.index.specs.Letters.{letter_count, right_count, Mask};
ghost use Rattle.index.specs.Block.{number, size, key, id, count_at, Of, NetAt, Has};
ghost use Rattle.index.specs.work.Checks.{Says};
ghost use Rattle.index.specs.Calls.{PairOf, NetOf, CapitalsOf, DenialsOf, MarksOf, CountsX};

use crate::block::letters::{
    CAPITAL_M, CAPITAL_P, CAPITAL_R, CAPITAL_U, SMALL_M, SMALL_P, SMALL_R, SMALL_U, mask_of,
};
use crate::block::record::Record;
use crate::{HEADER, Kind, LETTER_COUNT, MARKER_X, RECORD, RIGHTS};

// The 16-bit number at a byte.
fn number_of(b: &[u8], at: usize) -> u16
    requires { at < 2 ^ 32 }
    ensures { result ≡ number b.now at }
{
    if at + 1 < b.len() {
        return u16::from_le_bytes([b[at], b[at + 1]]);
    }
    if at < b.len() {
        return b[at] as u16;
    }
    0
}

// How many records of the kind there are.
pub fn size_of(b: &[u8], kind: Kind) -> u16
    ensures { result ≡ size b.now kind }
{
    match kind {
        Kind::Membership => number_of(b, 0),
        Kind::Permission => number_of(b, 2),
        Kind::Filter => number_of(b, 4),
    }
}

// The key of record i.
pub fn key_of(b: &[u8], i: u16) -> u16
    ensures { result ≡ key b.now i }
{
    number_of(b, HEADER + RECORD * (i as usize))
}

// The id of record i.
pub fn id_of(b: &[u8], i: u16) -> u16
    ensures { result ≡ id b.now i }
{
    number_of(b, HEADER + RECORD * (i as usize) + 2)
}

// The count of letter k in record i.
pub fn count_of(b: &[u8], i: u16, k: u8) -> u16
    ensures { result ≡ count_at b.now i k }
{
    let letter = k as usize;
    if letter < LETTER_COUNT {
        return number_of(b, HEADER + RECORD * (i as usize) + 4 + 2 * letter);
    }
    0
}

// How many records the block has all of.
fn whole_records(b: &[u8]) -> usize
    ensures { (i : ℕ) → (i < result) ↔ Has b.now i }
{
    b.len().saturating_sub(HEADER) / RECORD
}

// The block has all of record i.
fn whole(b: &[u8], i: usize) -> bool
    ensures { Says (Has b.now i) result }
{
    i < whole_records(b)
}

// Key and id of record i, as one number; 0 where the block has not all of it.
pub fn pair_of(b: &[u8], i: usize) -> usize
    ensures { PairOf b.now i result }
{
    if whole(b, i) {
        Record { block: b, i }.pair() as usize
    } else {
        0
    }
}

impl Record<'_> {
    // Letter k has a count above zero in the record.
    fn above_zero(self, k: u8) -> bool
        requires { k < letter_count }
        ensures { Says (0 < count_at self.entry.block.now self.entry.i k) result }
    {
        0 < self.count(k as usize)
    }

    // The net mask of the record: "its capital letters with a count above zero, less those whose small letter has a count above zero".
    // M-104: "Write it out as four plain decisions, one a right, as 01's sentence has it." Both counts are looked at (`&`, not `&&`),
    // which leaves the processor nothing to guess.
    fn net(self) -> u8
        ensures { Mask result (NetAt self.entry.block.now self.entry.i) }
    {
        let mut net: u8 = 0;
        if self.above_zero(CAPITAL_M) & !self.above_zero(SMALL_M) {
            net = net | mask_of(CAPITAL_M);
        }
        if self.above_zero(CAPITAL_R) & !self.above_zero(SMALL_R) {
            net = net | mask_of(CAPITAL_R);
        }
        if self.above_zero(CAPITAL_U) & !self.above_zero(SMALL_U) {
            net = net | mask_of(CAPITAL_U);
        }
        if self.above_zero(CAPITAL_P) & !self.above_zero(SMALL_P) {
            net = net | mask_of(CAPITAL_P);
        }
        net
    }

    // Which of the four letters from `first` on the record counts, as a mask of rights: the capital letters, or the small ones.
    fn counted(self, first: u8) -> u8
        requires { first ≤ right_count }
        ensures { Mask result (λ k. 0 < count_at self.entry.block.now self.entry.i (k + first)) }
    {
        let mut mask: u8 = 0;
        for k in 0..RIGHTS as u8 {
            if self.above_zero(k + first) {
                mask = mask | mask_of(k);
            }
        }
        mask
    }
}

// The net mask of record i; 0 where the block has not all of it.
pub fn net_of(b: &[u8], i: usize) -> u8
    ensures { NetOf b.now i result }
{
    if whole(b, i) {
        Record { block: b, i }.net()
    } else {
        0
    }
}

// The capital letters that record i counts, as a mask; 0 where the block has not all of it.
pub fn capitals_of(b: &[u8], i: usize) -> u8
    ensures { CapitalsOf b.now i result }
{
    if whole(b, i) {
        Record { block: b, i }.counted(CAPITAL_M)
    } else {
        0
    }
}

// The rights whose small letter record i counts, as a mask; 0 where the block has not all of it.
pub fn denials_of(b: &[u8], i: usize) -> u8
    ensures { DenialsOf b.now i result }
{
    if whole(b, i) {
        Record { block: b, i }.counted(SMALL_M)
    } else {
        0
    }
}

// The counts of X and N in record i, as one number; 0 where the block has not all of it.
pub fn marks_of(b: &[u8], i: usize) -> usize
    ensures { MarksOf b.now i result }
{
    if whole(b, i) {
        Record { block: b, i }.two()
    } else {
        0
    }
}

// How many M records the block has all of.
fn whole_members(b: &[u8]) -> usize
    ensures { (i : ℕ) → (i < result) ↔ (Of b.now Membership i × Has b.now i) }
{
    whole_records(b).min(size_of(b, Kind::Membership) as usize)
}

// Some M record counts X. All their counts of X are joined, and one look at the end tells.
pub fn counts_x(b: &[u8]) -> bool
    ensures { (result ≡ true) ↔ CountsX b.now }
{
    let end = whole_members(b);
    let mut seen = 0;
    for i in 0..end {
        seen |= Record { block: b, i }.count(MARKER_X);
    }
    0 < seen
}
