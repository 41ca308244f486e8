// A good block, lent to be read.

ghost use Rattle.index.specs.Block.{Sized, Good};

// The bytes of a block that is 16 to 49,168 bytes long and good.
#[derive(Clone, Copy)]
pub struct GoodBlock<'a> {
    pub bytes: &'a [u8],
    ghost sized: { ∥ Sized bytes.now ∥₁ },
    ghost good: { ∥ Good bytes.now ∥₁ },
}
