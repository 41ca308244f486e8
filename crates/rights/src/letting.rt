// What the filters and exclusive groups let through, whatever is granted.

ghost use Rattle.rights.specs.Through.{ThroughAnswers};

use crate::LIMIT;
use crate::filter::filter_of;
use crate::questions::{named_in, opened};
use index::Refusal;

// The rights that every filter of the object lets through: none, if the object is not open to the user.
pub fn let_through(block: &[u8], user: u64, object: u64) -> Result<u8, Refusal>
    ensures { ThroughAnswers block.now user object result }
{
    let source = named_in(block, user, object)?;
    let passed = filter_of(&source, object as usize);
    Ok(opened(&source, user as usize, object as usize, passed, LIMIT))
}
