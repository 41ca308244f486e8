// Going from one day to another.

ghost use Rattle.std.specs.Prelude.{◌≡◌, ◌+◌, ◌≤◌, length};
ghost use Rattle.index.specs.Numbers.{number_of};
ghost use Rattle.index.specs.work.Pairing.{Listing};
ghost use Rattle.appointments.specs.Appointment.{InRange, standing_only};
ghost use Rattle.appointments.specs.Moves.{Moved};

use crate::MOST;
use crate::list::{count_in, entry_at};
use crate::testing::days_refused;
use index::{Refusal, carry_out, tested};

// The memberships of those that stand on the day and not on the other go into the list of changes from place `at` on. It gives the place
// after the last.
fn gather(list: &[u8], adds: bool, day: u64, other: u64, changes: &mut [u64], at: usize) -> usize
    requires { InRange list.now × (at + length (standing_only list.now day other) ≤ length changes.old) }
    ensures { (result ≡ at + length (standing_only list.now day other)) × Listing adds at result (standing_only list.now day other) changes.old changes.new }
{
    let mut place = at;
    for i in 0..count_in(list) {
        let entry = entry_at(list, i);
        if entry.only_on(day, other) {
            changes[place] = entry.change(adds);
            place += 1;
        }
    }
    place
}

// From the old day to the new: those on the old day only are taken away, then those on the new day only added, or nothing of it.
pub fn moved(block: &mut [u8], list: &[u8], old: u64, new: u64) -> Result<(), Refusal>
    ensures { Moved block.old list.now old new (number_of result, block.new) }
{
    if let Err(refusal) = days_refused(list, old, new) {
        tested(block)?;
        return Err(refusal);
    }
    let mut changes = [0u64; MOST];
    let middle = gather(list, false, old, new, &mut changes, 0);
    let end = gather(list, true, new, old, &mut changes, middle);
    carry_out(block, &changes[..end])
}
