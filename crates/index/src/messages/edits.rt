// One half is taken away or put in.

ghost use Rattle.std.specs.Prelude.{◌+◌, ◌≤◌, length};
ghost use Rattle.index.specs.Block.{IsName, place, key, id, Of};
ghost use Rattle.index.specs.Message.Change.{take, add};
ghost use Rattle.index.specs.Numbers.{number_of};
ghost use Rattle.index.specs.work.Places.{Gap};
ghost use Rattle.index.specs.work.Edits.{half, Ready, NewRecord, Step};
ghost use Rattle.index.specs.work.Halves.{as_half};

use crate::block::good::GoodBlock;
use crate::block::moves::splice;
use crate::block::numbers::number_at;
use crate::block::record::Record;
use crate::block::records::put_entry;
use crate::messages::counts::{once, recount};
use crate::messages::halves::Half;
use crate::{Kind, RECORD, Refusal};

// Record i is written: key, id, and each letter of the mask once.
fn put_record(b: &mut [u8], i: usize, x: usize, y: usize, mask: usize)
    requires { (place (i + 1) ≤ length b.old) × IsName x × IsName y }
    ensures { NewRecord i x y mask b.old b.new }
{
    let counts = once(mask);
    put_entry(b, i, x, y, &counts);
}

// Each letter of the mask goes down by one in record i, of the kind, and a record with no count left is removed. It is refused
// where a letter has count 0.
fn take_at(b: &mut [u8], kind: Kind, i: usize, mask: usize) -> Result<(), Refusal>
    requires { Ready (half kind (key b.old i) (id b.old i) mask) b.old × Of b.old kind i }
    ensures { Step (take (half kind (key b.old i) (id b.old i) mask)) b.old (number_of result) b.new }
{
    let record = Record { block: b, i };
    if !record.allows(mask, 0) {
        return Err(Refusal::Missing);
    }
    if record.left_over(mask) {
        recount(b, i, mask, 0);
        return Ok(());
    }
    splice(b, kind, i, 1, 0);
    Ok(())
}

// Take the half away; it is refused where a letter of it has count 0 or no record.
pub(crate) fn take_away(b: &mut [u8], h: Half) -> Result<(), Refusal>
    requires { Ready (as_half h) b.old }
    ensures { Step (take (as_half h)) b.old (number_of result) b.new }
{
    let block = GoodBlock { bytes: b };
    match block.find(h.kind, h.key, h.id) {
        Ok(i) => take_at(b, h.kind, i, h.mask),
        Err(_) => Err(Refusal::Missing),
    }
}

// The record of the half is inserted as number i, where there is room.
fn insert_at(b: &mut [u8], i: usize, h: Half) -> Result<(), Refusal>
    requires { Ready (as_half h) b.old × Gap b.old h.kind h.key h.id i }
    ensures { Step (add (as_half h)) b.old (number_of result) b.new }
{
    if b.len() < number_at(b, 14) + RECORD {
        return Err(Refusal::NoRoom);
    }
    splice(b, h.kind, i, 0, 1);
    put_record(b, i, h.key, h.id, h.mask);
    Ok(())
}

// Put the half in; it is refused where a letter of it stands at 65,535, or its record is missing and there is no room.
pub(crate) fn put_in(b: &mut [u8], h: Half) -> Result<(), Refusal>
    requires { Ready (as_half h) b.old }
    ensures { Step (add (as_half h)) b.old (number_of result) b.new }
{
    let block = GoodBlock { bytes: b };
    match block.find(h.kind, h.key, h.id) {
        Ok(i) => {
            let record = Record { block: b, i };
            if !record.allows(0, h.mask) {
                return Err(Refusal::Full);
            }
            recount(b, i, 0, h.mask);
            Ok(())
        }
        Err(i) => insert_at(b, i, h),
    }
}
