// What C gets of an answer: the refusal's number times 2^32, plus a value. On refusal the value is 0, but for 9, which comes with the
// place of the text.

ghost use Rattle.std.specs.Prelude.{ℕ, ◌≡◌, ◌<◌, IfOk};
ghost use Rattle.index.specs.Numbers.{Means, ReadMeans, yes_no};
ghost use Rattle.anaqsiro.specs.Returned.{Packed};
ghost use Rattle.anaqsiro.specs.work.Answered.{ReadFits, no_value, day_or_none, rights_value, chains_value, date_value};

use calendar::Date;
use index::{ReadError, Refusal};
use rights::Reach;
use slips::Slip;

// The number and the value as one number.
pub(crate) fn packed(number: u8, value: u64) -> u64
    requires { value < 4294967296 }
    ensures { Packed number value result }
{
    4294967296 * number as u64 + value
}

// The value of an accepted call, which fits 32 bits.
pub(crate) trait Value {
    ghost value: { Self → ℕ };

    fn value(self) -> u64
        requires { value self < 4294967296 }
        ensures { result ≡ value self };
}

// A call that answers with a number alone: the value is 0.
impl Value for () {
    ghost value = { no_value };

    fn value(self) -> u64 {
        0
    }
}

// A question with yes or no: the value is 1 for yes and 0 for no.
impl Value for bool {
    ghost value = { yes_no };

    fn value(self) -> u64 {
        u64::from(self)
    }
}

// Rights alone: their mask.
impl Value for u8 {
    ghost value = { λ n. n };

    fn value(self) -> u64 {
        self as u64
    }
}

// A length, or a number of records.
impl Value for usize {
    ghost value = { λ n. n };

    fn value(self) -> u64 {
        self as u64
    }
}

// A day.
impl Value for u64 {
    ghost value = { λ n. n };

    fn value(self) -> u64 {
        self
    }
}

// The day of the next change: the value is 0 where there is none.
impl Value for Option<u64> {
    ghost value = { day_or_none };

    fn value(self) -> u64 {
        self.unwrap_or(0)
    }
}

// A date: the day of the month, plus 2^5 times the month, plus 2^9 times the year.
impl Value for Date {
    ghost value = { date_value };

    fn value(self) -> u64 {
        self.day + 32 * self.month + 512 * self.year
    }
}

// The full question: the rights held of those requested, plus 2^4 times the number of M records examined on the user's side, plus 2^18
// times that on the object's.
impl Value for Reach {
    ghost value = { rights_value };

    fn value(self) -> u64 {
        self.rights as u64 + 16 * self.user as u64 + 262144 * self.object as u64
    }
}

// What came of looking for a slip: how many names are on the user's chain, plus 2^8 times how many are on the object's, and 0 for none.
impl Value for Option<Slip> {
    ghost value = { chains_value };

    fn value(self) -> u64 {
        match self {
            Some(slip) => slip.users as u64 + 256 * slip.objects as u64,
            None => 0,
        }
    }
}

// Any answer, but a reader's.
pub(crate) fn returned<T: Value>(answer: Result<T, Refusal>) -> u64
    requires { IfOk answer (λ a. T.value a < 4294967296) }
    ensures { Means T.value 0 (λ o. Packed o.0 o.1 result) answer }
{
    match answer {
        Ok(a) => packed(0, a.value()),
        Err(refusal) => packed(refusal.number(), 0),
    }
}

// A set read from text: the value is how many records it has, and with 9 the place of the text.
pub(crate) fn of_read(answer: Result<usize, ReadError>) -> u64
    requires { ReadFits answer }
    ensures { ReadMeans (λ o. Packed o.0 o.1 result) answer }
{
    match answer {
        Ok(records) => packed(0, records as u64),
        Err(ReadError::NotASet(place)) => packed(9, place as u64),
        Err(ReadError::Refused(refusal)) => packed(refusal.number(), 0),
    }
}
