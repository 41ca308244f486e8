// An empty index block is made.

ghost use Rattle.index.specs.Calls.{Makes};
ghost use Rattle.index.specs.Numbers.{number_of};

use crate::block::moves::{clear, put_header};
use crate::{GREATEST, HEADER, Refusal};

// Make an empty block, as long as it was, which has to be 16 to 49,168 bytes.
pub fn make(block: &mut [u8]) -> Result<(), Refusal>
    ensures { Makes block.old (number_of result, block.new) }
{
    let end = block.len();
    if end < HEADER {
        return Err(Refusal::Length);
    }
    if end > GREATEST {
        return Err(Refusal::Length);
    }
    clear(block, HEADER, end);
    put_header(block, 0, 0, 0);
    Ok(())
}
