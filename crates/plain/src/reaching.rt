// The two questions that ask each other: is a name reached, and is it reached through the records of a name?

ghost use Rattle.std.specs.Prelude.{◌<◌, ◌≤◌, ◌-◌, ◌≡◌};
ghost use Rattle.index.specs.declared.Kind.TheVariants.{Membership};
ghost use Rattle.index.specs.Block.{Of, size, key, id};
ghost use Rattle.index.specs.work.Checks.{Says};
ghost use Rattle.rights.specs.Chain.{Chain};
ghost use Rattle.plain.specs.work.Steps.{Linked, Onward};

use crate::records::{has_right, is_member, is_without_n};
use crate::right::Right;
use index::{GoodBlock, Kind};

// What each record of a chain must have: the right in its net mask; or, masks disregarded, it is a membership and does not count N, or just a
// membership.
#[derive(Clone, Copy)]
pub(crate) enum Link {
    Right(Right),
    WithoutN,
    Member,
}

// Can M record i be one of such a chain?
fn links(block: GoodBlock<'_>, link: Link, i: u16) -> bool
    requires { Of block.bytes.now Membership i }
    ensures { Says (Linked block.entry.bytes.now link (key block.entry.bytes.now i) (id block.entry.bytes.now i)) result }
{
    match link {
        Link::Right(right) => has_right(block.bytes, i, right),
        Link::WithoutN => is_without_n(block.bytes, i),
        Link::Member => is_member(block.bytes, i),
    }
}

// Does M record i lead on from the name? The name is its key, and it can be one of such a chain.
pub(crate) fn leads(block: GoodBlock<'_>, link: Link, name: u16, i: u16) -> bool
    requires { Of block.bytes.now Membership i }
    ensures { Says ((key block.entry.bytes.now i ≡ name) × Linked block.entry.bytes.now link name (id block.entry.bytes.now i)) result }
{
    if index::key_of(block.bytes, i) != name {
        return false;
    }
    links(block, link, i)
}

// Is `to` reached from `from` with so many records left?
#[cycle(reached_through)]
pub(crate) fn reached(block: GoodBlock<'_>, link: Link, from: u16, to: u16, left: u8) -> bool
    ensures { Says (Chain (Linked block.entry.bytes.now link) left from to) result }
{
    if from == to {
        return true;
    }
    if left == 0 {
        return false;
    }
    through(
        block,
        link,
        from,
        to,
        left,
        index::size_of(block.bytes, Kind::Membership),
    )
}

// Is it reached through one of the first n M records? The last of them, if it leads on from the name, asks the same of its id, with one record
// fewer; then come those before it.
#[cycle(reached_through)]
fn through(block: GoodBlock<'_>, link: Link, from: u16, to: u16, left: u8, n: u16) -> bool
    requires { (0 < left) × (n ≤ size block.bytes.now Membership) }
    ensures { Says (Onward block.entry.bytes.now link (left - 1) from to n) result }
{
    if n == 0 {
        return false;
    }
    let i = n - 1;
    if leads(block, link, from, i) {
        if reached(block, link, index::id_of(block.bytes, i), to, left - 1) {
            return true;
        }
    }
    through(block, link, from, to, left, i)
}
