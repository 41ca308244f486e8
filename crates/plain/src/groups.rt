// Exclusive groups: is the object open to the user?

ghost use Rattle.index.specs.declared.Kind.TheVariants.{Membership};
ghost use Rattle.index.specs.Block.{Of};
ghost use Rattle.index.specs.work.Checks.{Says};
ghost use Rattle.rights.specs.Groups.{Bound, InNoGroup, InHers, Open};
ghost use Rattle.plain.specs.work.Steps.{HersAt};

use crate::reaching::{Link, leads, reached};
use crate::records::closes;
use index::{GoodBlock, Kind};

// Is the object in no group at all? None of its M records is a membership.
fn in_no_group(block: GoodBlock<'_>, object: u16) -> bool
    ensures { Says (InNoGroup block.entry.bytes.now object) result }
{
    let end = index::size_of(block.bytes, Kind::Membership);
    for i in 0..end {
        if leads(block, Link::Member, object, i) {
            return false;
        }
    }
    true
}

// Does M record i make its id a group of hers? It can be the last of a chain to one, and its key is reached from the user with one record
// fewer, none of them counting N.
fn makes_hers(block: GoodBlock<'_>, user: u16, limit: u8, i: u16) -> bool
    requires { Of block.bytes.now Membership i }
    ensures { Says (HersAt block.entry.bytes.now user limit i) result }
{
    if limit == 0 {
        return false;
    }
    if !closes(block.bytes, i) {
        return false;
    }
    reached(
        block,
        Link::WithoutN,
        user,
        index::key_of(block.bytes, i),
        limit - 1,
    )
}

// Is the user bound? Some M record makes a group hers.
fn is_bound(block: GoodBlock<'_>, user: u16, limit: u8) -> bool
    ensures { Says (Bound limit block.entry.bytes.now user) result }
{
    let end = index::size_of(block.bytes, Kind::Membership);
    for i in 0..end {
        if makes_hers(block, user, limit, i) {
            return true;
        }
    }
    false
}

// Is one of her groups reached from the object?
fn in_hers(block: GoodBlock<'_>, user: u16, object: u16, limit: u8) -> bool
    ensures { Says (InHers limit block.entry.bytes.now user object) result }
{
    let end = index::size_of(block.bytes, Kind::Membership);
    for i in 0..end {
        if makes_hers(block, user, limit, i) {
            if reached(
                block,
                Link::Member,
                object,
                index::id_of(block.bytes, i),
                limit,
            ) {
                return true;
            }
        }
    }
    false
}

// Is the object open to the user? If she is bound, it is in no group at all, or one of her groups is reached from it.
pub(crate) fn is_open(block: GoodBlock<'_>, user: u16, object: u16, limit: u8) -> bool
    ensures { Says (Open limit block.entry.bytes.now user object) result }
{
    if !is_bound(block, user, limit) {
        return true;
    }
    if in_no_group(block, object) {
        return true;
    }
    in_hers(block, user, object, limit)
}
