// What one record says.

ghost use Rattle.std.specs.Prelude.{◌<◌, ◌≡◌};
ghost use Rattle.index.specs.Letters.{marker_n};
ghost use Rattle.index.specs.Block.{count_at, NetAt};
ghost use Rattle.index.specs.work.Checks.{Says};
ghost use Rattle.plain.specs.work.Steps.{MemberAt, ClosesAt};

use crate::right::Right;

// The small letter of a right is so many places on from the capital one.
const SMALL: u8 = index::RIGHTS as u8;

// The markers, which come after the eight letters.
const X: u8 = index::MARKER_X as u8;

const N: u8 = index::MARKER_N as u8;

// Does record i count the letter?
fn counts(block: &[u8], i: u16, letter: u8) -> bool
    ensures { Says (0 < count_at block.now i letter) result }
{
    0 < index::count_of(block, i, letter)
}

// Is the right in the net mask of record i? It counts the capital letter, and does not count the small one.
pub(crate) fn has_right(block: &[u8], i: u16, right: Right) -> bool
    ensures { Says (NetAt block.now i right.place) result }
{
    counts(block, i, right.place) & !counts(block, i, right.place + SMALL)
}

// Is M record i a membership? It counts one of the eight letters.
pub(crate) fn is_member(block: &[u8], i: u16) -> bool
    ensures { Says (MemberAt block.now i) result }
{
    for letter in 0..X {
        if counts(block, i, letter) {
            return true;
        }
    }
    false
}

// Is it one that does not count N?
pub(crate) fn is_without_n(block: &[u8], i: u16) -> bool
    ensures { Says (MemberAt block.now i × (count_at block.now i marker_n ≡ 0)) result }
{
    if counts(block, i, N) {
        return false;
    }
    is_member(block, i)
}

// Is it one that counts X besides, so that it can be the last of a chain to a group of hers?
pub(crate) fn closes(block: &[u8], i: u16) -> bool
    ensures { Says (ClosesAt block.now i) result }
{
    if !counts(block, i, X) {
        return false;
    }
    is_without_n(block, i)
}
