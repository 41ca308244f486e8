// Dates and their day numbers, each way.

ghost use Rattle.std.specs.Prelude.{◌≡◌, suc, ◌≤◌, ◌<◌, take};
ghost use Rattle.index.specs.work.Checks.{Says};
ghost use Rattle.calendar.specs.Dates.{months, sum, years_days, IsDate, day_number};
ghost use Rattle.calendar.specs.Calls.{DayOf, DateOf, DayAnswers, DateAnswers};

use crate::years::{month_days, months_days, years_days};
use crate::{Date, FIRST_YEAR, LAST_DAY, LAST_YEAR};
use index::Refusal;

pub(crate) fn is_date(d: Date) -> bool
    ensures { Says (IsDate d) result }
{
    (FIRST_YEAR..=LAST_YEAR).contains(&d.year) && (1..=month_days(d.year, d.month)).contains(&d.day)
}

// The day number of what is a date.
pub(crate) fn number_of(d: Date) -> u64
    requires { IsDate d }
    ensures { result ≡ day_number d }
{
    years_days(d.year - FIRST_YEAR) + months_days(d.year, d.month - 1) + (d.day - 1)
}

// The number of a date's day.
pub fn day_of(year: u64, month: u64, day: u64) -> Result<u64, Refusal>
    ensures { DayAnswers (DayOf year month day) result }
{
    let d = Date { year, month, day };
    if !is_date(d) {
        return Err(Refusal::Date);
    }
    Ok(number_of(d))
}

// The years from 1970 on that are over on day n: one for each 366 days, or one more.
fn years_over(n: u64) -> u64
    requires { n ≤ 157053 }
    ensures { (result < 430) × (years_days result ≤ n) × (n < years_days (suc result)) }
{
    let least = n / 366;
    if n < years_days(least + 1) {
        least
    } else {
        least + 1
    }
}

// The months of the year that are over on its day n, 0 being the first: one for each 31 days, or one more.
fn months_over(year: u64, n: u64) -> u64
    requires { n < sum (months year) }
    ensures { (result < 12) × (sum (take result (months year)) ≤ n) × (n < sum (take (suc result) (months year))) }
{
    let least = n / 31;
    if n < months_days(year, least + 1) {
        least
    } else {
        least + 1
    }
}

// The date of a day.
pub fn date_of(day: u64) -> Result<Date, Refusal>
    ensures { DateAnswers (DateOf day) result }
{
    if day > LAST_DAY {
        return Err(Refusal::Date);
    }
    let years = years_over(day);
    let year = FIRST_YEAR + years;
    let in_year = day - years_days(years);
    let months = months_over(year, in_year);
    let in_month = in_year - months_days(year, months);
    Ok(Date {
        year,
        month: months + 1,
        day: in_month + 1,
    })
}
