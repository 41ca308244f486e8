// The numbers of the kinds.

ghost use Rattle.std.specs.Prelude.{◌≡◌};
ghost use Rattle.index.specs.Message.{kind_of, kind_number, KindFrom};

use crate::{Kind, Refusal};

impl Kind {
    // Its number.
    pub fn number(self) -> u8
        ensures { result ≡ kind_number self }
    {
        match self {
            Kind::Membership => 1,
            Kind::Permission => 2,
            Kind::Filter => 3,
        }
    }
}

impl TryFrom<u64> for Kind {
    type Error = Refusal;

    ghost try_from_gives = { KindFrom };

    fn try_from(n: u64) -> Result<Kind, Refusal> {
        match n {
            1 => Ok(Kind::Membership),
            2 => Ok(Kind::Permission),
            3 => Ok(Kind::Filter),
            _ => Err(Refusal::Form),
        }
    }
}

// The kind that the numbers 1, 2 and 3 stand for. (Any other number stands for the last here.)
pub fn kind_of(n: u64) -> Kind
    ensures { result ≡ kind_of n }
{
    match n {
        1 => Kind::Membership,
        2 => Kind::Permission,
        _ => Kind::Filter,
    }
}
