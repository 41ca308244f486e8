// Terms of months: the anniversary, and the days from the first up to it.

ghost use Rattle.std.specs.Prelude.{◌≡◌};
ghost use Rattle.calendar.specs.Calls.{AnniversaryOf, SpanOf, DateAnswers, SpanAnswers};

use crate::dates::{is_date, number_of};
use crate::years::month_days;
use crate::{Date, LAST_YEAR, LONGEST_TERM, Span};
use index::Refusal;

// The date so many months after the first.
pub fn anniversary(first: Date, months: u64) -> Result<Date, Refusal>
    ensures { DateAnswers (AnniversaryOf first months) result }
{
    if !is_date(first) || !(1..=LONGEST_TERM).contains(&months) {
        return Err(Refusal::Date);
    }
    let n = 12 * first.year + (first.month - 1) + months;
    let year = n / 12;
    if year > LAST_YEAR {
        return Err(Refusal::Date);
    }
    let month = n % 12 + 1;
    Ok(Date {
        year,
        month,
        day: first.day.min(month_days(year, month)),
    })
}

// The first day of a term, and that of its anniversary.
pub fn span_of(first: Date, months: u64) -> Result<Span, Refusal>
    ensures { SpanAnswers (SpanOf first months) result }
{
    let end = anniversary(first, months)?;
    Ok(Span {
        from: number_of(first),
        to: number_of(end),
    })
}
