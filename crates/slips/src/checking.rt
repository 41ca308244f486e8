// The check of a slip.

ghost use Rattle.std.specs.Prelude.{◌⊎◌};
ghost use Rattle.index.specs.work.Checks.{Says};
ghost use Rattle.rights.specs.Held.{Carries};
ghost use Rattle.slips.specs.Slip.{Names, ZeroAlone};
ghost use Rattle.slips.specs.Calls.{IsChain, CheckAnswers};
ghost use Rattle.slips.specs.work.Tested.{Grants, RestsOn};

use crate::records::has_net;
use crate::right::Right;
use crate::testing::{chains_tested, names_tested, right_of};
use index::{GoodBlock, Kind, Refusal};

// The names are those on a chain from `start` that carries the right.
fn leads(block: GoodBlock<'_>, right: Right, start: u64, names: &[u16]) -> bool
    requires { IsChain names.now }
    ensures { Says (Names (Carries block.entry.bytes.now right.place) start names.now) result }
{
    if names[0] as u64 != start {
        return false;
    }
    for i in 1..names.len() {
        if !has_net(block, Kind::Membership, names[i - 1], names[i], right) {
            return false;
        }
    }
    true
}

// The list is 0 by itself.
fn is_zero_alone(names: &[u16]) -> bool
    ensures { Says (ZeroAlone names.now) result }
{
    names.len() == 1 && names[0] == 0
}

// The names are those of the object's side: on a chain from the object, or 0 by itself.
fn leads_object(block: GoodBlock<'_>, right: Right, object: u64, names: &[u16]) -> bool
    requires { IsChain names.now }
    ensures { Says (Names (Carries block.entry.bytes.now right.place) object names.now ⊎ ZeroAlone names.now) result }
{
    is_zero_alone(names) || leads(block, right, object, names)
}

// The two lists end at a P record that has the right in its net mask.
fn grants(block: GoodBlock<'_>, right: Right, users: &[u16], objects: &[u16]) -> bool
    requires { IsChain users.now × IsChain objects.now }
    ensures { Says (Grants block.entry.bytes.now right.place users.now objects.now) result }
{
    let g = objects[objects.len() - 1];
    let s = users[users.len() - 1];
    has_net(block, Kind::Permission, g, s, right)
}

// The right rests on the two lists: on their chains, and on the grant that they end at.
fn rests_on(
    block: GoodBlock<'_>,
    right: Right,
    user: u64,
    object: u64,
    users: &[u16],
    objects: &[u16],
) -> bool
    requires { IsChain users.now × IsChain objects.now }
    ensures { Says (RestsOn block.entry.bytes.now user object right.place users.now objects.now) result }
{
    leads(block, right, user, users)
        && leads_object(block, right, object, objects)
        && grants(block, right, users, objects)
}

// Whether the two lists are a slip for the user, the object and the right.
pub fn check_slip(
    block: &[u8],
    user: u64,
    object: u64,
    right: u64,
    users: &[u16],
    objects: &[u16],
) -> Result<bool, Refusal>
    ensures { CheckAnswers block.now user object right users.now objects.now result }
{
    let mask = rights::let_through(block, user, object)?;
    names_tested(users, objects)?;
    let Some(named) = right_of(right) else {
        return Err(Refusal::Mask);
    };
    chains_tested(users, objects)?;
    if mask & (right as u8) == 0 {
        return Ok(false);
    }
    let block = GoodBlock { bytes: block };
    Ok(rests_on(block, named, user, object, users, objects))
}
