// Why a call is refused.

ghost use Rattle.std.specs.Prelude.{◌≡◌};
ghost use Rattle.index.specs.Numbers.{number, FromRefusal};

// A refusal, with the number that a caller in C gets for it. 9, a text of no set, comes with a place: it is `ReadError`'s.
#[derive(Clone, Copy, Debug, PartialEq, Eq)]
pub enum Refusal {
    // The block is not 16 to 49,168 bytes long.
    Length = 1,
    // The block is not good.
    NotGood = 2,
    // A message or a change has a wrong form, or a kind is not 1 to 3.
    Form = 3,
    // A name is above 1023.
    Name = 4,
    // A mask or a request is 0, or has what it may not have.
    Mask = 5,
    // A letter to take away has count 0 or no record.
    Missing = 6,
    // A letter to add stands at 65,535.
    Full = 7,
    // The records do not fit.
    NoRoom = 8,
    // The text is longer than the output buffer.
    ShortBuffer = 10,
    // A list is no chain.
    Chain = 11,
    // A date, a day or a term is out of range.
    Date = 12,
    // The directory is not the block's own.
    Directory = 13,
    // The question is too large for the plain engine.
    TooLarge = 14,
    // The profile is none.
    Profile = 15,
}

impl Refusal {
    // Its number.
    pub fn number(self) -> u8
        ensures { result ≡ number self }
    {
        self as u8
    }
}

// Why no set is read from a text: it is of none, and this is its place; or the call is refused otherwise.
#[derive(Clone, Copy, Debug, PartialEq, Eq)]
pub enum ReadError {
    NotASet(usize),
    Refused(Refusal),
}

impl From<Refusal> for ReadError {
    ghost from_gives = { FromRefusal };

    fn from(refusal: Refusal) -> ReadError {
        ReadError::Refused(refusal)
    }
}
