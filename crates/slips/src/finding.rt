// The finder of a slip.

ghost use Rattle.std.specs.Prelude.{◌≡◌, ◌⊎◌, ◌+◌, ◌^◌, ◌≤◌, length};
ghost use Rattle.index.specs.declared.Kind.TheVariants.{Permission};
ghost use Rattle.index.specs.Block.{IsName, Of};
ghost use Rattle.rights.specs.Groups.{Open};
ghost use Rattle.rights.specs.Held.{Passes, chain_limit};
ghost use Rattle.slips.specs.Slip.{most_names};
ghost use Rattle.slips.specs.Calls.{Found, NoneFound, SlipMeans, FindAnswers};
ghost use Rattle.slips.specs.work.Trails.{Short, at_object, Nearest, Granted, Backs, ObjectTraced};

use crate::Slip;
use crate::records::has_right;
use crate::right::Right;
use crate::starts::{NONE, note_starts};
use crate::testing::{places_tested, right_of};
use crate::trails::{FAR, Trail};
use index::{GoodBlock, Kind, NAMES, PAIR, Refusal};

// The steps to a name of the object's side: name 0 is there by itself.
fn steps_to(objects: &[u8; NAMES], g: usize) -> u8
    requires { IsName g }
    ensures { result ≡ at_object objects.now g }
{
    if g == 0 {
        return 0;
    }
    objects[g]
}

// The fewest steps found so far, and the P record that they are to.
#[derive(Clone, Copy)]
pub struct Best {
    pub steps: u8,
    pub at: usize,
}

// P record i beside the best before it: it is better if it grants the right with fewer steps to its two names.
fn better(
    block: GoodBlock<'_>,
    right: Right,
    users: &[u8; NAMES],
    objects: &[u8; NAMES],
    best: Best,
    i: usize,
) -> Best
    requires of { Short users.now × (Short objects.now × Of block.bytes.now Permission i) }
    requires nearest { Nearest block.bytes.now right.place users.now objects.now i best }
    ensures { Nearest block.entry.bytes.now right.place users.now objects.now (i + 1) result }
{
    let pair = index::pair_of(block.bytes, i);
    let steps = users[pair / PAIR] + steps_to(objects, pair % PAIR);
    if steps >= best.steps {
        return best;
    }
    if !has_right(block, i, right) {
        return best;
    }
    Best { steps, at: i }
}

// Of the P records that grant the right and whose names are reached on both sides, the one with the fewest steps.
fn nearest(
    block: GoodBlock<'_>,
    right: Right,
    users: &[u8; NAMES],
    objects: &[u8; NAMES],
) -> Option<usize>
    requires { Short users.now × Short objects.now }
    ensures { Granted block.entry.bytes.now right.place users.now objects.now result }
{
    let part = directory::part_of(block.bytes, Kind::Permission);
    let mut best = Best { steps: FAR, at: 0 };
    for i in part.from..part.end {
        best = better(block, right, users, objects, best, i);
    }
    if best.steps < FAR {
        return Some(best.at);
    }
    None
}

// The names of the object's side are written: those on the chain to a name that is reached, or 0 by itself. The result is how many they are.
fn trace_object(trail: &Trail, g: usize, names: &mut [u16]) -> u8
    requires { Backs trail.now.steps trail.now.before × (IsName g × ((at_object trail.now.steps g ≤ chain_limit) × (most_names ≤ length names.old))) }
    ensures { ObjectTraced trail.now.steps trail.now.before g names.old names.new × (result ≡ at_object trail.now.steps g + 1) }
{
    if g == 0 {
        names[0] = 0;
        return 1;
    }
    trail.trace(g, names)
}

// A slip for a right that the filters and exclusive groups let through.
fn sought(
    block: GoodBlock<'_>,
    user: usize,
    object: usize,
    right: Right,
    users: &mut [u16],
    objects: &mut [u16],
) -> Option<Slip>
    requires passes { IsName user × (IsName object × (Passes block.bytes.now object right.place × Open chain_limit block.bytes.now user object)) }
    requires most_names_in_bounds { (most_names ≤ length users.old) × (most_names ≤ length objects.old) }
    ensures { SlipMeans (λ x y. Found block.entry.bytes.now user object (2 ^ right.place) users.old objects.old (0, x, y, users.new, objects.new) ⊎ NoneFound block.entry.bytes.now user object (2 ^ right.place) users.old objects.old (0, x, y, users.new, objects.new)) result }
{
    let mut firsts = [NONE; NAMES];
    note_starts(block, &mut firsts);
    let mut user_trail = Trail {
        steps: [FAR; NAMES],
        before: [0; NAMES],
    };
    user_trail.walk(block, right, user, &firsts);
    let mut object_trail = Trail {
        steps: [FAR; NAMES],
        before: [0; NAMES],
    };
    object_trail.walk(block, right, object, &firsts);
    let i = nearest(block, right, &user_trail.steps, &object_trail.steps)?;
    let pair = index::pair_of(block.bytes, i);
    Some(Slip {
        users: user_trail.trace(pair / PAIR, users),
        objects: trace_object(&object_trail, pair % PAIR, objects),
    })
}

// A slip for the user, the object and the right, with the fewest names, if the right is held.
pub fn find_slip(
    block: &[u8],
    user: u64,
    object: u64,
    right: u64,
    users: &mut [u16],
    objects: &mut [u16],
) -> Result<Option<Slip>, Refusal>
    ensures { FindAnswers block.now user object right users.old objects.old result users.new objects.new }
{
    let mask = rights::let_through(block, user, object)?;
    let Some(named) = right_of(right) else {
        return Err(Refusal::Mask);
    };
    places_tested(users.len(), objects.len())?;
    if mask & (right as u8) == 0 {
        return Ok(None);
    }
    let block = GoodBlock { bytes: block };
    Ok(sought(block, user as usize, object as usize, named, users, objects))
}
