// What an M record says, masks disregarded: whether it is a membership, and which markers it counts.

ghost use Rattle.index.specs.declared.Kind.TheVariants.{Membership};
ghost use Rattle.index.specs.Block.{Of, key, id};
ghost use Rattle.index.specs.work.Checks.{Says};
ghost use Rattle.rights.specs.Groups.{Member, WithoutN, Closes};
ghost use Rattle.rights.specs.work.Marks.{Leads};

use index::{GoodBlock, PAIR};

// M record i is a membership. It has no small letters, so that a letter which it counts is a capital one.
pub(crate) fn is_member(block: GoodBlock<'_>, i: usize) -> bool
    requires { Of block.bytes.now Membership i }
    ensures { Says (Member block.entry.bytes.now (key block.entry.bytes.now i) (id block.entry.bytes.now i)) result }
{
    0 < index::capitals_of(block.bytes, i)
}

// M record i is a membership, and does not count N.
fn is_without_n(block: GoodBlock<'_>, i: usize) -> bool
    requires { Of block.bytes.now Membership i }
    ensures { Says (WithoutN block.entry.bytes.now (key block.entry.bytes.now i) (id block.entry.bytes.now i)) result }
{
    if index::marks_of(block.bytes, i) >= PAIR {
        return false;
    }
    is_member(block, i)
}

// M record i can be the last of a chain to a group that is hers.
fn closes(block: GoodBlock<'_>, i: usize) -> bool
    requires { Of block.bytes.now Membership i }
    ensures { Says (Closes block.entry.bytes.now (key block.entry.bytes.now i) (id block.entry.bytes.now i)) result }
{
    if index::marks_of(block.bytes, i) % PAIR == 0 {
        return false;
    }
    is_without_n(block, i)
}

// M record i can be one of a chain to a group that is hers: the last of it, or one before.
pub(crate) fn leads(block: GoodBlock<'_>, i: usize, last: bool) -> bool
    requires { Of block.bytes.now Membership i }
    ensures { Says (Leads block.entry.bytes.now last (key block.entry.bytes.now i) (id block.entry.bytes.now i)) result }
{
    if last {
        return closes(block, i);
    }
    is_without_n(block, i)
}
