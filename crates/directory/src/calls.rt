// The calls by a directory: what the call without it does, if the directory is the block's own. That is asked first, so that block and
// directory are each tested once: the call itself tests the block.

ghost use Rattle.index.specs.Numbers.{number_of};
ghost use Rattle.directory.specs.By.{MessageBy, WideBy, ReadAnswersBy, WriteAnswersBy};

use crate::making::fill;
use crate::testing::owned;
use index::{ReadError, Refusal};

// A message, which keeps the directory true.
pub fn message_by(block: &mut [u8], directory: &mut [u16], message: &[u8]) -> Result<(), Refusal>
    ensures { MessageBy block.old directory.old message.now (number_of result, 0, block.new, directory.new) }
{
    owned(block, directory)?;
    index::message(block, message)?;
    fill(block, directory);
    Ok(())
}

// A wide message, which keeps it true too.
pub fn wide_by(block: &mut [u8], directory: &mut [u16], message: &[u8]) -> Result<(), Refusal>
    ensures { WideBy block.old directory.old message.now (number_of result, 0, block.new, directory.new) }
{
    owned(block, directory)?;
    index::wide(block, message)?;
    fill(block, directory);
    Ok(())
}

// Reads a set, and keeps the directory true.
pub fn read_by(
    block: &mut [u8],
    directory: &mut [u16],
    kind: u64,
    key: u64,
    text: &[u8],
) -> Result<usize, ReadError>
    ensures { ReadAnswersBy block.old directory.old kind key text.now result block.new directory.new }
{
    owned(block, directory)?;
    let records = index::read_set(block, kind, key, text)?;
    fill(block, directory);
    Ok(records)
}

// Writes a set.
pub fn write_by(
    block: &[u8],
    directory: &[u16],
    kind: u64,
    key: u64,
    out: &mut [u8],
) -> Result<usize, Refusal>
    ensures { WriteAnswersBy block.now directory.now kind key out.old result out.new }
{
    owned(block, directory)?;
    index::write_set(block, kind, key, out)
}
