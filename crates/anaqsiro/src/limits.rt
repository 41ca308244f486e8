// The C interface of the two engines whose chains are held to a limit.

ghost use Rattle.anaqsiro.specs.Returned.{RightsToReturns, PlainReturns};

use crate::answers::returned;

// The rights with chains of at most `limit` records, by the main walk.
#[unsafe(no_mangle)]
pub extern "C" fn anaqsiro_rights_to(
    block: &[u8],
    user: u64,
    object: u64,
    request: u64,
    limit: u64,
) -> u64
    ensures { RightsToReturns block.now user object request limit result }
{
    returned(rights::rights_to(block, user, object, request, limit))
}

// The same by the plain engine.
#[unsafe(no_mangle)]
pub extern "C" fn anaqsiro_plain(
    block: &[u8],
    user: u64,
    object: u64,
    request: u64,
    limit: u64,
) -> u64
    ensures { PlainReturns block.now user object request limit result }
{
    returned(plain::rights_within(block, user, object, request, limit))
}
