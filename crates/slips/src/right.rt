// A right.

ghost use Rattle.std.specs.Prelude.{◌<◌};
ghost use Rattle.index.specs.Letters.{right_count};

// A right by its place among the four: M, R, U and P.
#[derive(Clone, Copy)]
pub(crate) struct Right {
    pub place: u8,
    ghost small: { place < right_count },
}
