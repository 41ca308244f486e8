// On which days one appointment of a list stands.

ghost use Rattle.std.specs.Prelude.{◌≡◌};
ghost use Rattle.calendar.specs.Dates.{day_number};
ghost use Rattle.calendar.specs.Terms.{anniversary, IsTerm};
ghost use Rattle.appointments.specs.Appointment.{stands_on, only_on};
ghost use Rattle.appointments.specs.Asking.{Differs};
ghost use Rattle.appointments.specs.work.Listed.{appointment_of, FirstDay};

use crate::list::Entry;
use calendar::span_of;
use std::ops::Range;

impl Entry {
    // The days on which it stands: from its first day up to the day before the anniversary.
    fn days(self) -> Range<u64>
        requires { IsTerm self.first self.term }
        ensures { (result.start ≡ day_number self.first) × (result.end ≡ day_number (anniversary self.first self.term)) }
    {
        match span_of(self.first, self.term as u64) {
            Ok(span) => span.from..span.to,
            Err(_) => 0..0,
        }
    }

    // It stands on the day.
    pub(crate) fn stands_on(self, day: u64) -> bool
        requires { IsTerm self.first self.term }
        ensures { result ≡ stands_on day (appointment_of self) }
    {
        self.days().contains(&day)
    }

    // It stands on the day, and not on the other.
    pub(crate) fn only_on(self, day: u64, other: u64) -> bool
        requires { IsTerm self.first self.term }
        ensures { result ≡ only_on day other (appointment_of self) }
    {
        let days = self.days();
        days.contains(&day) && !days.contains(&other)
    }

    // The first day after the day on which it stands where it did not, or no longer stands.
    pub(crate) fn next_after(self, day: u64) -> Option<u64>
        requires { IsTerm self.first self.term }
        ensures { FirstDay (Differs (appointment_of self) day) day result }
    {
        let days = self.days();
        if day < days.start {
            return Some(days.start);
        }
        if day < days.end {
            return Some(days.end);
        }
        None
    }
}
