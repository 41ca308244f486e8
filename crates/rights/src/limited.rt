// The main walk held to a limit of its chains.

ghost use Rattle.rights.specs.HeldTo.{AsksTo};

use crate::LAST_LIMIT;
use crate::questions::{ORDINARY, question, within};
use crate::source::alone;
use index::Refusal;

// The rights that the user holds on the object, with chains of at most `limit` records, limited to those requested: the full question's, if
// the limit is 32.
pub fn rights_to(
    block: &[u8],
    user: u64,
    object: u64,
    request: u64,
    limit: u64,
) -> Result<u8, Refusal>
    ensures { AsksTo block.now user object request limit result }
{
    let source = alone(block)?;
    let question = question(user, object, request, ORDINARY)?;
    if limit > LAST_LIMIT {
        return Err(Refusal::TooLarge);
    }
    Ok(within(&source, question, limit as usize).rights)
}
