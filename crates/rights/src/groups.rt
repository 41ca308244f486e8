// Exclusive groups: whether an object is open to a user.

ghost use Rattle.std.specs.Prelude.{◌<◌, ◌≤◌, get_or};
ghost use Rattle.index.specs.declared.Kind.TheVariants.{Membership};
ghost use Rattle.index.specs.Block.{IsName, Of, key, id};
ghost use Rattle.index.specs.work.Checks.{Says};
ghost use Rattle.rights.specs.Held.{chain_limit};
ghost use Rattle.rights.specs.Groups.{Closes, Bound, InNoGroup, InHers, Open};
ghost use Rattle.rights.specs.work.Marks.{Meets};

use crate::lookup::records_of;
use crate::members::{is_member, leads};
use crate::room::Room;
use crate::source::Source;
use crate::walk::{Carry, side};
use index::{ALL, GoodBlock, Kind, NAMES, PAIR};

// The object is in no group: none of its M records is a membership.
fn in_no_group(source: &Source<'_>, object: usize) -> bool
    requires { IsName object }
    ensures { Says (InNoGroup source.now.block.bytes.now object) result }
{
    let groups = records_of(source, Kind::Membership, object);
    for i in groups.from..groups.end {
        if is_member(source.block, i) {
            return false;
        }
    }
    true
}

// M record i can be the last of a chain to her group, its key has a mark in `users`, and its id has one in `objects`.
fn meets_at(block: GoodBlock<'_>, users: &[u8; NAMES], objects: &[u8; NAMES], i: usize) -> bool
    requires { Of block.bytes.now Membership i }
    ensures { Says (Closes block.entry.bytes.now (key block.entry.bytes.now i) (id block.entry.bytes.now i) × (0 < get_or users.now (key block.entry.bytes.now i) 0) × (0 < get_or objects.now (id block.entry.bytes.now i) 0)) result }
{
    let pair = index::pair_of(block.bytes, i);
    if users[pair % PAIR] == 0 {
        return false;
    }
    if objects[pair / PAIR] == 0 {
        return false;
    }
    leads(block, i, true)
}

// Some M record is so.
fn meets(block: GoodBlock<'_>, users: &[u8; NAMES], objects: &[u8; NAMES]) -> bool
    ensures { Says (Meets block.entry.bytes.now users.now objects.now) result }
{
    let end = index::size_of(block.bytes, Kind::Membership) as usize;
    for i in 0..end {
        if meets_at(block, users, objects, i) {
            return true;
        }
    }
    false
}

// If the user is bound, a chain leads from the object to one of her groups. Both chains are walked as the rights are; the last record of a
// chain to her group is looked at by itself: with a limit of no records there is none.
fn in_hers(source: &Source<'_>, user: usize, object: usize, limit: usize) -> bool
    requires { IsName user × (IsName object × (limit ≤ chain_limit)) }
    ensures { Says (Bound limit source.now.block.bytes.now user → InHers limit source.now.block.bytes.now user object) result }
{
    if limit == 0 {
        return true;
    }
    let mut users = [0u8; NAMES];
    let mut objects = [0u8; NAMES];
    let mut room = Room::new();
    side(
        source,
        Carry::WithoutN,
        user,
        limit - 1,
        &mut users,
        &mut room,
    );
    let everyone = [ALL; NAMES];
    if !meets(source.block, &users, &everyone) {
        return true;
    }
    side(
        source,
        Carry::Member,
        object,
        limit,
        &mut objects,
        &mut room,
    );
    meets(source.block, &users, &objects)
}

// The object is open to the user: where no record counts X nobody is bound.
pub(crate) fn is_open(source: &Source<'_>, user: usize, object: usize, limit: usize) -> bool
    requires { IsName user × (IsName object × (limit ≤ chain_limit)) }
    ensures { Says (Open limit source.now.block.bytes.now user object) result }
{
    if !index::counts_x(source.block.bytes) {
        return true;
    }
    if in_no_group(source, object) {
        return true;
    }
    in_hers(source, user, object, limit)
}
