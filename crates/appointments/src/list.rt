// The list of appointments: what its bytes say of one of them.

ghost use Rattle.std.specs.Prelude.{◌≡◌, ◌+◌, ◌<◌, length};
ghost use Rattle.index.specs.Block.{number};
ghost use Rattle.index.specs.Message.{packed_change};
ghost use Rattle.index.specs.work.Edits.{change_of};
ghost use Rattle.appointments.specs.Appointment.{list_size};
ghost use Rattle.appointments.specs.work.Listed.{entry, appointment_of};

use crate::APPOINTMENT;
use calendar::Date;
use index::pack;

// Where the bytes of an appointment stand.
const KEY: usize = 0;

const ID: usize = 2;

const MASK: usize = 4;

const MARKER: usize = 5;

const YEAR: usize = 6;

const MONTH: usize = 8;

const DAY: usize = 9;

const TERM: usize = 10;

const ZERO: usize = 11;

// The kind of a membership.
const MEMBERSHIP: u8 = 1;

// One appointment of a list, as its bytes say.
#[derive(Clone, Copy)]
pub(crate) struct Entry {
    pub key: u16,
    pub id: u16,
    pub mask: u8,
    pub marker: u8,
    pub first: Date,
    pub term: u8,
    pub zero: u8,
}

// How many appointments the list has.
#[tactic(auto, unfolding(crate::specs::Appointment::list_size))]
pub(crate) fn count_in(list: &[u8]) -> usize
    ensures { result ≡ list_size list.now }
{
    list.len() / APPOINTMENT
}

// The bytes at a place and behind it as one number.
#[tactic(auto, unfolding(index::specs::Block::number))]
fn number_at(list: &[u8], at: usize) -> u16
    requires { at + 1 < length list.now }
    ensures { result ≡ number list.now at }
{
    u16::from_le_bytes([list[at], list[at + 1]])
}

// Appointment i.
#[tactic(auto, unfolding(crate::specs::Appointment::list_size, crate::specs::work::Listed::entry))]
pub(crate) fn entry_at(list: &[u8], i: usize) -> Entry
    requires { i < list_size list.now }
    ensures { result ≡ entry list.now i }
{
    let at = APPOINTMENT * i;
    Entry {
        key: number_at(list, at + KEY),
        id: number_at(list, at + ID),
        mask: list[at + MASK],
        marker: list[at + MARKER],
        first: Date {
            year: number_at(list, at + YEAR) as u64,
            month: list[at + MONTH] as u64,
            day: list[at + DAY] as u64,
        },
        term: list[at + TERM],
        zero: list[at + ZERO],
    }
}

impl Entry {
    // Its membership as a change, to be taken away or added.
    pub(crate) fn change(self, adds: bool) -> u64
        ensures { packed_change result ≡ change_of adds (appointment_of self).membership }
    {
        let mask = self.mask as u16 + 256 * self.marker as u16;
        pack(adds, MEMBERSHIP, self.key, self.id, mask)
    }
}
