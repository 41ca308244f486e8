// What a host asks: whether an appointment stands on a day, and when another set of a list does.

ghost use Rattle.std.specs.Prelude.{◌≡◌};
ghost use Rattle.appointments.specs.Appointment.{InRange};
ghost use Rattle.appointments.specs.Asking.{Another, StandsAnswers, NextAnswers};
ghost use Rattle.appointments.specs.work.Listed.{earlier, FirstDay};

use crate::APPOINTMENT;
use crate::list::{count_in, entry_at};
use crate::testing::day_refused;
use index::Refusal;

// Whether the appointment stands on the day.
pub fn stands(appointment: &[u8], day: u64) -> Result<bool, Refusal>
    ensures { StandsAnswers appointment.now day result }
{
    if appointment.len() != APPOINTMENT {
        return Err(Refusal::Form);
    }
    day_refused(appointment, day)?;
    Ok(entry_at(appointment, 0).stands_on(day))
}

// The earlier of two days, where there are two.
fn earlier(a: Option<u64>, b: Option<u64>) -> Option<u64>
    ensures { result ≡ earlier a b }
{
    match (a, b) {
        (Some(a), Some(b)) => Some(a.min(b)),
        (Some(a), None) => Some(a),
        (None, b) => b,
    }
}

// The first day after the day on which another set of the list stands.
fn next_in(list: &[u8], day: u64) -> Option<u64>
    requires { InRange list.now }
    ensures { FirstDay (Another list.now day) day result }
{
    let mut next = None;
    for i in 0..count_in(list) {
        next = earlier(next, entry_at(list, i).next_after(day));
    }
    next
}

// The next day on which another set of the list stands, or none.
pub fn next_change(list: &[u8], day: u64) -> Result<Option<u64>, Refusal>
    ensures { NextAnswers list.now day result }
{
    day_refused(list, day)?;
    Ok(next_in(list, day))
}
