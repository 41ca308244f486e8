// The C interface: each call returns the refusal's number times 2^32, plus a value. On refusal the value is 0, but for 9,
// which comes with the place of the text. A call whose name ends in `_by` is the call of that name, by a directory.
#![tactic(auto)]

mod answers;
mod limits;

ghost use Rattle.anaqsiro.specs.Returned.{MakeReturns, MessageReturns, WideReturns, RightsReturns, MayReturns, WriteReturns, ReadReturns, FindSlipReturns, CheckSlipReturns, BearsReturns, DirectoryReturns, MessageByReturns, WideByReturns, RightsByReturns, MayByReturns, WriteByReturns, ReadByReturns, TestedReturns, SizeReturns, RecordReturns, CountReturns, DayReturns, DateReturns, MoveReturns, NextReturns, StandsReturns};

use crate::answers::{of_read, packed, returned};
pub use crate::limits::{anaqsiro_plain, anaqsiro_rights_to};
use index::{Kind, LETTER_COUNT};

// ---- the calls

// An empty block.
#[unsafe(no_mangle)]
pub extern "C" fn anaqsiro_make(block: &mut [u8]) -> u64
    ensures { MakeReturns block.old result block.new }
{
    returned(index::make(block))
}

// A message to a block.
#[unsafe(no_mangle)]
pub extern "C" fn anaqsiro_message(block: &mut [u8], message: &[u8]) -> u64
    ensures { MessageReturns block.old message.now result block.new }
{
    returned(index::message(block, message))
}

// A wide message to a block.
#[unsafe(no_mangle)]
pub extern "C" fn anaqsiro_wide(block: &mut [u8], message: &[u8]) -> u64
    ensures { WideReturns block.old message.now result block.new }
{
    returned(index::wide(block, message))
}

// The full question.
#[unsafe(no_mangle)]
pub extern "C" fn anaqsiro_rights(
    block: &[u8],
    user: u64,
    object: u64,
    request: u64,
    profile: u64,
) -> u64
    ensures { RightsReturns block.now user object request profile result }
{
    returned(rights::rights_of(block, user, object, request, profile))
}

// The short question.
#[unsafe(no_mangle)]
pub extern "C" fn anaqsiro_may(
    block: &[u8],
    user: u64,
    object: u64,
    request: u64,
    profile: u64,
) -> u64
    ensures { MayReturns block.now user object request profile result }
{
    returned(rights::may(block, user, object, request, profile))
}

// A set is written as text.
#[unsafe(no_mangle)]
pub extern "C" fn anaqsiro_write(block: &[u8], kind: u64, key: u64, out: &mut [u8]) -> u64
    ensures { WriteReturns block.now kind key out.old result out.new }
{
    returned(index::write_set(block, kind, key, out))
}

// A set is read from text.
#[unsafe(no_mangle)]
pub extern "C" fn anaqsiro_read(block: &mut [u8], kind: u64, key: u64, text: &[u8]) -> u64
    ensures { ReadReturns block.old kind key text.now result block.new }
{
    of_read(index::read_set(block, kind, key, text))
}

// ---- slips

// A slip for a user, an object and one right, if the right is held.
#[unsafe(no_mangle)]
pub extern "C" fn anaqsiro_find_slip(
    block: &[u8],
    user: u64,
    object: u64,
    right: u64,
    users: &mut [u16],
    objects: &mut [u16],
) -> u64
    ensures { FindSlipReturns block.now user object right users.old objects.old result users.new objects.new }
{
    returned(slips::find_slip(block, user, object, right, users, objects))
}

// Whether two lists of names are a slip.
#[unsafe(no_mangle)]
pub extern "C" fn anaqsiro_check_slip(
    block: &[u8],
    user: u64,
    object: u64,
    right: u64,
    users: &[u16],
    objects: &[u16],
) -> u64
    ensures { CheckSlipReturns block.now user object right users.now objects.now result }
{
    returned(slips::check_slip(block, user, object, right, users, objects))
}

// ---- what bears

// Whether the record of the kind with the key and the id bears on the rights of the user on the object.
#[unsafe(no_mangle)]
pub extern "C" fn anaqsiro_bears(
    block: &[u8],
    user: u64,
    object: u64,
    kind: u64,
    key: u64,
    id: u64,
) -> u64
    ensures { BearsReturns block.now user object kind key id result }
{
    returned(bearing::bears(block, user, object, kind, key, id))
}

// ---- by a directory

// The directory of a block.
#[unsafe(no_mangle)]
pub extern "C" fn anaqsiro_directory(block: &[u8], directory: &mut [u16]) -> u64
    ensures { DirectoryReturns block.now directory.old result directory.new }
{
    returned(directory::make_directory(block, directory))
}

#[unsafe(no_mangle)]
pub extern "C" fn anaqsiro_message_by(
    block: &mut [u8],
    directory: &mut [u16],
    message: &[u8],
) -> u64
    ensures { MessageByReturns block.old directory.old message.now result block.new directory.new }
{
    returned(directory::message_by(block, directory, message))
}

#[unsafe(no_mangle)]
pub extern "C" fn anaqsiro_wide_by(block: &mut [u8], directory: &mut [u16], message: &[u8]) -> u64
    ensures { WideByReturns block.old directory.old message.now result block.new directory.new }
{
    returned(directory::wide_by(block, directory, message))
}

#[unsafe(no_mangle)]
pub extern "C" fn anaqsiro_rights_by(
    block: &[u8],
    directory: &[u16],
    user: u64,
    object: u64,
    request: u64,
    profile: u64,
) -> u64
    ensures { RightsByReturns block.now directory.now user object request profile result }
{
    returned(rights::rights_by(block, directory, user, object, request, profile))
}

#[unsafe(no_mangle)]
pub extern "C" fn anaqsiro_may_by(
    block: &[u8],
    directory: &[u16],
    user: u64,
    object: u64,
    request: u64,
    profile: u64,
) -> u64
    ensures { MayByReturns block.now directory.now user object request profile result }
{
    returned(rights::may_by(block, directory, user, object, request, profile))
}

#[unsafe(no_mangle)]
pub extern "C" fn anaqsiro_write_by(
    block: &[u8],
    directory: &[u16],
    kind: u64,
    key: u64,
    out: &mut [u8],
) -> u64
    ensures { WriteByReturns block.now directory.now kind key out.old result out.new }
{
    returned(directory::write_by(block, directory, kind, key, out))
}

#[unsafe(no_mangle)]
pub extern "C" fn anaqsiro_read_by(
    block: &mut [u8],
    directory: &mut [u16],
    kind: u64,
    key: u64,
    text: &[u8],
) -> u64
    ensures { ReadByReturns block.old directory.old kind key text.now result block.new directory.new }
{
    of_read(directory::read_by(block, directory, kind, key, text))
}

// ---- appointments

// The number of a date's day.
#[unsafe(no_mangle)]
pub extern "C" fn anaqsiro_day(year: u64, month: u64, day: u64) -> u64
    ensures { DayReturns year month day result }
{
    returned(calendar::day_of(year, month, day))
}

// The date of a day.
#[unsafe(no_mangle)]
pub extern "C" fn anaqsiro_date(day: u64) -> u64
    ensures { DateReturns day result }
{
    returned(calendar::date_of(day))
}

// From one day to another.
#[unsafe(no_mangle)]
pub extern "C" fn anaqsiro_move(block: &mut [u8], list: &[u8], old: u64, new: u64) -> u64
    ensures { MoveReturns block.old list.now old new result block.new }
{
    returned(appointments::moved(block, list, old, new))
}

// The next day on which another set of a list stands.
#[unsafe(no_mangle)]
pub extern "C" fn anaqsiro_next_change(list: &[u8], day: u64) -> u64
    ensures { NextReturns list.now day result }
{
    returned(appointments::next_change(list, day))
}

// Whether an appointment stands on a day.
#[unsafe(no_mangle)]
pub extern "C" fn anaqsiro_stands(appointment: &[u8], day: u64) -> u64
    ensures { StandsReturns appointment.now day result }
{
    returned(appointments::stands(appointment, day))
}

// ---- a block as it stands, record by record: only the first call tests it

// Whether a block is good.
#[unsafe(no_mangle)]
pub extern "C" fn anaqsiro_tested(block: &[u8]) -> u64
    ensures { TestedReturns block.now result }
{
    returned(index::tested(block))
}

// How many records of a kind the header says there are.
#[unsafe(no_mangle)]
pub extern "C" fn anaqsiro_size(block: &[u8], kind: u64) -> u64
    ensures { SizeReturns block.now kind result }
{
    match Kind::try_from(kind) {
        Ok(kind) => packed(0, index::size_of(block, kind) as u64),
        Err(refusal) => packed(refusal.number(), 0),
    }
}

// The greatest number of a record that the doors take; no good block has one so high.
const LAST_RECORD: u64 = 65535;

// The key of a record, plus 2^16 times its id. Records are numbered from 0 on through all three parts, M, P, F.
#[unsafe(no_mangle)]
pub extern "C" fn anaqsiro_record(block: &[u8], number: u64) -> u64
    ensures { RecordReturns block.now number result }
{
    if number > LAST_RECORD {
        return packed(0, 0);
    }
    let i = number as u16;
    packed(
        0,
        index::key_of(block, i) as u64 + 65536 * (index::id_of(block, i) as u64),
    )
}

// The count of a letter in a record.
#[unsafe(no_mangle)]
pub extern "C" fn anaqsiro_count(block: &[u8], number: u64, letter: u64) -> u64
    ensures { CountReturns block.now number letter result }
{
    if number > LAST_RECORD {
        return packed(0, 0);
    }
    if letter >= LETTER_COUNT as u64 {
        return packed(0, 0);
    }
    packed(
        0,
        index::count_of(block, number as u16, letter as u8) as u64,
    )
}
