// Is a directory the block's own?

ghost use Rattle.std.specs.Prelude.{◌≡◌, List, ℕ, ◌+◌, ◌^◌, ◌<◌, ◌≤◌, length, IfErr, OnOk};
ghost use Rattle.index.specs.Numbers.{number, number_of, Answers};
ghost use Rattle.index.specs.Block.{Good, records};
ghost use Rattle.index.specs.work.Checks.{Says};
ghost use Rattle.directory.specs.Directory.{part_length, directory_length, Own};
ghost use Rattle.directory.specs.By.{directory_needs};
ghost use Rattle.directory.specs.work.Entries.{Rises, Stands, Right};

use crate::LENGTH;
use crate::doors::{part_at, part_of, place_of};
use index::{Kind, NAMES, PAIR, Refusal};

// The entries of the part from `at` on begin with `lo`, never fall, and end with `hi`. There is no way out of the loop, so that the
// compiler can have several of them compared at a time.
fn rises(directory: &[u16], at: usize, lo: usize, hi: usize) -> bool
    requires { at + part_length ≤ length directory.now }
    ensures { Says (Rises directory.now at lo hi) result }
{
    let mut fine = true;
    for x in 0..NAMES {
        fine = fine & (directory[at + x] <= directory[at + x + 1]);
    }
    if directory[at] as usize != lo {
        return false;
    }
    if directory[at + NAMES] as usize != hi {
        return false;
    }
    fine
}

// Each of the records i to end - 1 of a good block lies between the entry of its key and the next one.
fn stands(block: &[u8], directory: &[u16], at: usize, i: usize, end: usize) -> bool
    requires { (at + part_length ≤ length directory.now) × (end < 2 ^ 32) }
    ensures { Good block.now → end ≤ records block.now → Says (Stands block.now directory.now at i end) result }
{
    for j in i..end {
        let key = index::pair_of(block, j) % PAIR;
        if key >= NAMES {
            return false;
        }
        if directory[at + key] as usize > place_of(j) {
            return false;
        }
        if place_of(j + 1) > directory[at + key + 1] as usize {
            return false;
        }
    }
    true
}

// The entries of the kind are those of a good block: one pass over them, and one over the records.
fn right(block: &[u8], directory: &[u16], kind: Kind) -> bool
    requires { length directory.now ≡ directory_length }
    ensures { Good block.now → Says (Right block.now directory.now kind) result }
{
    let at = part_at(kind);
    let part = part_of(block, kind);
    if !rises(directory, at, place_of(part.from), place_of(part.end)) {
        return false;
    }
    stands(block, directory, at, part.from, part.end)
}

// The directory is the block's own, if the block is good. (Of another block the answer says nothing.)
fn own(block: &[u8], directory: &[u16]) -> bool
    ensures { Good block.now → Says (Own block.now directory.now) result }
{
    if directory.len() != LENGTH {
        return false;
    }
    if !right(block, directory, Kind::Membership) {
        return false;
    }
    if !right(block, directory, Kind::Permission) {
        return false;
    }
    right(block, directory, Kind::Filter)
}

// The refusal of a block with a directory that is not its own: the block's, or else 13.
fn refusal(block: &[u8]) -> Refusal
    ensures { (d : List ℕ) → (Good block.now → Own block.now d → ⊥) → Answers (directory_needs block.now d) (number result) }
{
    match index::tested(block) {
        Err(refusal) => refusal,
        Ok(()) => Refusal::Directory,
    }
}

// The directory is the block's own, if the block is good, or both are refused.
pub(crate) fn owned(block: &[u8], directory: &[u16]) -> Result<(), Refusal>
    ensures own { OnOk result (Good block.now → Own block.now directory.now) }
    ensures other { IfErr result (λ e. Answers (directory_needs block.now directory.now) (number e)) }
{
    if own(block, directory) {
        return Ok(());
    }
    Err(refusal(block))
}

// 1 and 2 of the block, then 13 where the directory is not the block's own.
pub fn tested_by(block: &[u8], directory: &[u16]) -> Result<(), Refusal>
    ensures { Answers (directory_needs block.now directory.now) (number_of result) }
{
    owned(block, directory)?;
    index::tested(block)
}
