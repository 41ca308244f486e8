// What the P records grant.

ghost use Rattle.std.specs.Prelude.{◌≡◌, ◌⊎◌};
ghost use Rattle.index.specs.work.Checks.{Says};
ghost use Rattle.rights.specs.Chain.{Chain};
ghost use Rattle.rights.specs.Held.{Carries};
ghost use Rattle.plain.specs.work.Steps.{GrantsAt, Granted};

use crate::reaching::{Link, reached};
use crate::records::has_right;
use crate::right::Right;
use index::{GoodBlock, Kind};

// Does what is granted on the name count for the object? The name is 0, or it is reached from the object.
fn counts_for(block: GoodBlock<'_>, object: u16, name: u16, right: Right, limit: u8) -> bool
    ensures { Says (Chain (Carries block.entry.bytes.now right.place) limit object name ⊎ (name ≡ 0)) result }
{
    if name == 0 {
        return true;
    }
    reached(block, Link::Right(right), object, name, limit)
}

// Does P record i grant the right? It has it in its net mask, its id is reached from the user, and its key counts for the object.
fn grants(block: GoodBlock<'_>, user: u16, object: u16, right: Right, limit: u8, i: u16) -> bool
    ensures { Says (GrantsAt block.entry.bytes.now user object right.place limit i) result }
{
    if !has_right(block.bytes, i, right) {
        return false;
    }
    if !reached(
        block,
        Link::Right(right),
        user,
        index::id_of(block.bytes, i),
        limit,
    ) {
        return false;
    }
    counts_for(block, object, index::key_of(block.bytes, i), right, limit)
}

// Does some P record?
pub(crate) fn granted(block: GoodBlock<'_>, user: u16, object: u16, right: Right, limit: u8) -> bool
    ensures { Says (Granted block.entry.bytes.now user object right.place limit) result }
{
    let first = index::size_of(block.bytes, Kind::Membership);
    let end = first + index::size_of(block.bytes, Kind::Permission);
    for i in first..end {
        if grants(block, user, object, right, limit, i) {
            return true;
        }
    }
    false
}
