// Whether a name is reached from another, masks disregarded.

ghost use Rattle.std.specs.Prelude.{◌≤◌};
ghost use Rattle.index.specs.Block.{IsName};
ghost use Rattle.index.specs.work.Checks.{Says};
ghost use Rattle.rights.specs.Held.{chain_limit};
ghost use Rattle.rights.specs.Near.{Near, AsksNear};

use crate::LAST_LIMIT;
use crate::questions::named_in;
use crate::room::Room;
use crate::source::Source;
use crate::walk::{Carry, side};
use index::{NAMES, Refusal};

// The name is reached from the start by a chain of at most `limit` records, masks disregarded.
fn leads_to(source: &Source<'_>, start: usize, name: usize, limit: usize) -> bool
    requires { IsName start × (IsName name × (limit ≤ chain_limit)) }
    ensures { Says (Near limit source.now.block.bytes.now start name) result }
{
    let mut marks = [0u8; NAMES];
    let mut room = Room::new();
    side(source, Carry::Member, start, limit, &mut marks, &mut room);
    0 < marks[name]
}

// Whether the name is reached from the start by a chain of at most `limit` records, masks disregarded.
pub fn is_near(block: &[u8], start: u64, name: u64, limit: u64) -> Result<bool, Refusal>
    ensures { AsksNear block.now start name limit result }
{
    let source = named_in(block, start, name)?;
    if limit > LAST_LIMIT {
        return Err(Refusal::TooLarge);
    }
    Ok(leads_to(&source, start as usize, name as usize, limit as usize))
}
