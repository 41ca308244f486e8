// A directory is made.

ghost use Rattle.std.specs.Prelude.{◌≡◌, ◌≤◌, length};
ghost use Rattle.index.specs.Block.{Good};
ghost use Rattle.index.specs.Numbers.{number_of};
ghost use Rattle.directory.specs.Directory.{directory_length, Own};
ghost use Rattle.directory.specs.By.{MakesDirectory};
ghost use Rattle.directory.specs.work.Entries.{Put, Filled};

use crate::doors::{part_at, part_of, place_of};
use crate::{LENGTH, PART};
use index::{Kind, PAIR, Refusal};

// The entries from `from` up to `end` become `value`.
fn put(directory: &mut [u16], from: usize, end: usize, value: u16)
    requires { (from ≤ end) × (end ≤ length directory.old) }
    ensures { Put from end value directory.old directory.new }
{
    for at in from..end {
        directory[at] = value;
    }
}

// The entries of the kind are written, in one pass over its records. In the loop those below x are, and no record before i has a key as high
// as x.
fn fill_part(block: &[u8], directory: &mut [u16], kind: Kind)
    requires { Good block.now × (length directory.old ≡ directory_length) }
    ensures { Filled block.now kind directory.old directory.new }
{
    let at = part_at(kind);
    let part = part_of(block, kind);
    let mut x = 0;
    for i in part.from..part.end {
        let next = index::pair_of(block, i) % PAIR + 1;
        if x < next {
            put(directory, at + x, at + next, place_of(i) as u16);
            x = next;
        }
    }
    put(directory, at + x, at + PART, place_of(part.end) as u16);
}

// The directory of a good block is written.
pub(crate) fn fill(block: &[u8], directory: &mut [u16])
    requires { Good block.now × (length directory.old ≡ directory_length) }
    ensures { Own block.now directory.new }
{
    fill_part(block, directory, Kind::Membership);
    fill_part(block, directory, Kind::Permission);
    fill_part(block, directory, Kind::Filter);
}

// Makes the directory of a block.
pub fn make_directory(block: &[u8], directory: &mut [u16]) -> Result<(), Refusal>
    ensures { MakesDirectory block.now directory.old (number_of result, directory.new) }
{
    index::tested(block)?;
    if directory.len() != LENGTH {
        return Err(Refusal::Directory);
    }
    fill(block, directory);
    Ok(())
}
