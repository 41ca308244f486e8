// A good block to be asked, and the directory of its own that is lent with it, if one is.

ghost use Rattle.std.specs.Prelude.{◌≡◌, IfOk, IfSome};
ghost use Rattle.index.specs.Numbers.{number_of, Answers};
ghost use Rattle.index.specs.Calls.{block_needs};
ghost use Rattle.directory.specs.Directory.{Own};
ghost use Rattle.directory.specs.By.{directory_needs};

use index::{GoodBlock, Refusal};

#[derive(Clone, Copy)]
pub struct Source<'a> {
    pub block: GoodBlock<'a>,
    pub directory: Option<&'a [u16]>,
    ghost own: { ∥ IfSome directory (λ d. Own block.bytes.now d.now) ∥₁ },
}

// The block alone, or its refusal.
pub(crate) fn alone(block: &[u8]) -> Result<Source<'_>, Refusal>
    ensures number { Answers (block_needs block.now) (number_of result) }
    ensures same { IfOk result (λ source. source.block.bytes.now ≡ block.now) }
{
    Ok(Source {
        block: index::good_block(block)?,
        directory: None,
    })
}

// The block with its directory, or the refusal of the two.
pub(crate) fn with_directory<'a>(
    block: &'a [u8],
    directory: &'a [u16],
) -> Result<Source<'a>, Refusal>
    ensures number { Answers (directory_needs block.now directory.now) (number_of result) }
    ensures same { IfOk result (λ source. source.block.bytes.now ≡ block.now) }
{
    directory::tested_by(block, directory)?;
    let block = GoodBlock { bytes: block };
    Ok(Source {
        block,
        directory: Some(directory),
    })
}
