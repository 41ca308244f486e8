// The tests of a list of appointments, and of the days that come with it.

ghost use Rattle.std.specs.Prelude.{[], ◌∷◌, ◌++◌, ℕ, ◌<◌, ◌≡◌, true, false};
ghost use Rattle.index.specs.Numbers.{Answers, number_of};
ghost use Rattle.index.specs.work.Checks.{Says};
ghost use Rattle.index.specs.Message.{Named};
ghost use Rattle.calendar.specs.Dates.{IsDay};
ghost use Rattle.calendar.specs.Terms.{IsTerm};
ghost use Rattle.appointments.specs.Appointment.{list_size, appointment_needs, day_needs};
ghost use Rattle.appointments.specs.work.Listed.{entry, appointment_of, Formed, Lettered};

use crate::list::{Entry, count_in, entry_at};
use crate::{APPOINTMENT, MOST};
use calendar::{LAST_DAY, span_of};
use index::Refusal;

// The greatest name, the mask of all rights, and the greatest marker byte.
const NAME: u16 = index::GREATEST_NAME as u16;

const RIGHTS: u8 = index::ALL as u8;

const GREATEST_MARKER: u8 = 2;

// Its marker and its last byte.
fn is_formed(entry: Entry) -> bool
    ensures { Says (Formed entry) result }
{
    entry.marker <= GREATEST_MARKER && entry.zero == 0
}

// Its names.
fn is_named(entry: Entry) -> bool
    ensures { Says (Named (appointment_of entry).membership) result }
{
    entry.key <= NAME && entry.id <= NAME
}

// Its mask.
fn is_lettered(entry: Entry) -> bool
    ensures { Says (Lettered entry) result }
{
    (1..=RIGHTS).contains(&entry.mask)
}

// Its term.
fn has_term(entry: Entry) -> bool
    ensures { Says (IsTerm entry.first entry.term) result }
{
    span_of(entry.first, entry.term as u64).is_ok()
}

// Each appointment of the list passes the test.
fn all_pass<F: Fn(Entry) -> bool>(list: &[u8], test: F) -> bool
    requires { F.IsAlwaysCallable test }
    ensures yes { result ≡ true → (i : ℕ) → i < list_size list.now → F.post test (entry list.now i) true }
    ensures no { result ≡ false → (i : ℕ) × (i < list_size list.now) × F.post test (entry list.now i) false }
{
    for i in 0..count_in(list) {
        if !test(entry_at(list, i)) {
            return false;
        }
    }
    true
}

// The tests of the list: 3, 4, 5, 12.
fn list_refused(list: &[u8]) -> Result<(), Refusal>
    ensures { Answers (appointment_needs list.now) (number_of result) }
{
    if list.len() % APPOINTMENT != 0 {
        return Err(Refusal::Form);
    }
    if !all_pass(list, is_formed) {
        return Err(Refusal::Form);
    }
    if !all_pass(list, is_named) {
        return Err(Refusal::Name);
    }
    if !all_pass(list, is_lettered) {
        return Err(Refusal::Mask);
    }
    if count_in(list) > MOST {
        return Err(Refusal::Date);
    }
    if !all_pass(list, has_term) {
        return Err(Refusal::Date);
    }
    Ok(())
}

// The test of a day: 12.
fn range_refused(day: u64) -> Result<(), Refusal>
    ensures { Answers ((12, IsDay day) ∷ []) (number_of result) }
{
    if day > LAST_DAY {
        return Err(Refusal::Date);
    }
    Ok(())
}

// Those of the list, then the day's.
pub(crate) fn day_refused(list: &[u8], day: u64) -> Result<(), Refusal>
    ensures { Answers (day_needs list.now day) (number_of result) }
{
    list_refused(list)?;
    range_refused(day)
}

// Those of the list and of one day, then another day's.
pub(crate) fn days_refused(list: &[u8], old: u64, new: u64) -> Result<(), Refusal>
    ensures { Answers (day_needs list.now old ++ ((12, IsDay new) ∷ [])) (number_of result) }
{
    day_refused(list, old)?;
    range_refused(new)
}
