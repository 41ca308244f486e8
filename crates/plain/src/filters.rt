// What the filters let through. No chain has a part in it, and so no limit.

ghost use Rattle.index.specs.declared.Kind.TheVariants.{Membership};
ghost use Rattle.index.specs.Block.{Of};
ghost use Rattle.index.specs.work.Checks.{Says};
ghost use Rattle.rights.specs.Groups.{Member};
ghost use Rattle.rights.specs.Held.{Looked, Passes};
ghost use Rattle.plain.specs.work.Steps.{NamesAt};

use crate::reaching::{Link, leads};
use crate::records::has_right;
use crate::right::Right;
use index::{GoodBlock, Kind};

// Does M record i name the group for the object? The object is its key, it is a membership, and the group is its id.
fn names(block: GoodBlock<'_>, object: u16, group: u16, i: u16) -> bool
    requires { Of block.bytes.now Membership i }
    ensures { Says (NamesAt block.entry.bytes.now object group i) result }
{
    if index::id_of(block.bytes, i) != group {
        return false;
    }
    leads(block, Link::Member, object, i)
}

// Do the object's M records name the group?
fn is_in(block: GoodBlock<'_>, object: u16, group: u16) -> bool
    ensures { Says (Member block.entry.bytes.now object group) result }
{
    let end = index::size_of(block.bytes, Kind::Membership);
    for i in 0..end {
        if names(block, object, group, i) {
            return true;
        }
    }
    false
}

// Are the F records of the name looked at for the object? It is the object, or a group that its M records name.
fn is_looked_at(block: GoodBlock<'_>, object: u16, name: u16) -> bool
    ensures { Says (Looked block.entry.bytes.now object name) result }
{
    if name == object {
        return true;
    }
    is_in(block, object, name)
}

// Does every F record that is looked at for the object have the right in its net mask?
pub(crate) fn passes(block: GoodBlock<'_>, object: u16, right: Right) -> bool
    ensures { Says (Passes block.entry.bytes.now object right.place) result }
{
    let first = index::size_of(block.bytes, Kind::Membership)
        + index::size_of(block.bytes, Kind::Permission);
    let end = first + index::size_of(block.bytes, Kind::Filter);
    for i in first..end {
        if !has_right(block.bytes, i, right) {
            if is_looked_at(block, object, index::key_of(block.bytes, i)) {
                return false;
            }
        }
    }
    true
}
