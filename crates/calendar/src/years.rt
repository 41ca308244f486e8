// Years and months laid end to end: how many days they have.

ghost use Rattle.std.specs.Prelude.{◌≡◌, ◌≤◌, take};
ghost use Rattle.calendar.specs.Dates.{leap_day, months, month_days, sum, years_days};

use crate::FIRST_YEAR;

// The leap days up to the end of 1969.
const LEAPS: u64 = 477;

fn leap_day(year: u64) -> u64
    ensures { result ≡ leap_day year }
{
    if year % 4 == 0 && (year % 100 != 0 || year % 400 == 0) {
        1
    } else {
        0
    }
}

// The days of the first n months of a year: 367 twelfths a month, less the two days that February has not, or one in a leap year.
pub(crate) fn months_days(year: u64, n: u64) -> u64
    requires { n ≤ 12 }
    ensures { result ≡ sum (take n (months year)) }
{
    let days = (367 * n + 5) / 12;
    if n < 2 {
        days
    } else {
        days - 2 + leap_day(year)
    }
}

// The days of the first n years from 1970 on.
pub(crate) fn years_days(n: u64) -> u64
    requires { n ≤ 430 }
    ensures { result ≡ years_days n }
{
    let last = FIRST_YEAR - 1 + n;
    365 * n + last / 4 + last / 400 - last / 100 - LEAPS
}

// The days of a month. What is no month has none; February has 28 or 29, and of the others each second one has 31, and August too.
pub(crate) fn month_days(year: u64, month: u64) -> u64
    ensures { result ≡ month_days year month }
{
    match month {
        2 => 28 + leap_day(year),
        1..=12 => 30 + (month + month / 8) % 2,
        _ => 0,
    }
}
