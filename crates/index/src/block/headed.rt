// A block that has all of its header, lent to be read.

ghost use Rattle.std.specs.Prelude.{◌≤◌, length};
ghost use Rattle.index.specs.Block.{header_length};

// The bytes of a block that is as long as a header, or longer.
#[derive(Clone, Copy)]
pub(crate) struct HeadedBlock<'a> {
    pub(crate) bytes: &'a [u8],
    ghost headed: { header_length ≤ length bytes.now },
}
