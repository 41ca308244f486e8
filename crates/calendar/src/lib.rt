// The Gregorian calendar from 1 January 1970, day 0, to 31 December 2399, and the days of a term of months.
#![tactic(auto)]

mod dates;
mod terms;
mod years;

pub use crate::dates::{date_of, day_of};
pub use crate::terms::{anniversary, span_of};

// The years of the range, and its last day, which is 31 December 2399.
pub const FIRST_YEAR: u64 = 1970;

pub const LAST_YEAR: u64 = 2399;

pub const LAST_DAY: u64 = 157053;

// The most months of a term.
pub const LONGEST_TERM: u64 = 120;

#[derive(Clone, Copy)]
pub struct Date {
    pub year: u64,
    pub month: u64,
    pub day: u64,
}

// The first day of a term, and that of its anniversary.
#[derive(Clone, Copy)]
pub struct Span {
    pub from: u64,
    pub to: u64,
}
