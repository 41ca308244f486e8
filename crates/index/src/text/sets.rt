// The two calls on sets: one writes a set as text, the other reads one from text.

ghost use Rattle.std.specs.Prelude.{◌≡◌, ◌+◌, ◌≤◌, leb, IfOk};
ghost use Rattle.index.specs.Numbers.{number_of, Answers};
ghost use Rattle.index.specs.Message.{kind_of};
ghost use Rattle.index.specs.Block.{records, room};
ghost use Rattle.index.specs.Calls.{set_needs, WriteAnswers, ReadAnswers};

use crate::block::checks::good_block;
use crate::block::good::GoodBlock;
use crate::block::headed::HeadedBlock;
use crate::block::moves::splice;
use crate::text::scanning::scan_text;
use crate::text::taking::fill;
use crate::{HEADER, Kind, NAMES, RECORD, ReadError, Refusal};

// What both calls ask first: the block is tested, and then the kind and the key are read.
fn set_asked(block: &[u8], kind: u64, key: u64) -> Result<(GoodBlock<'_>, Kind, usize), Refusal>
    ensures number { Answers (set_needs block.now kind key) (number_of result) }
    ensures read { IfOk result (λ set. (set.0.bytes.now ≡ block.now) × (set.1 ≡ kind_of kind) × (set.2 ≡ key)) }
{
    let good = good_block(block)?;
    let kind = Kind::try_from(kind)?;
    if key >= NAMES as u64 {
        return Err(Refusal::Name);
    }
    Ok((good, kind, key as usize))
}

// Writes the set of this kind and key at the front of `out`, and says how long its text is.
pub fn write_set(block: &[u8], kind: u64, key: u64, out: &mut [u8]) -> Result<usize, Refusal>
    ensures { WriteAnswers block.now kind key out.old result out.new }
{
    let (good, kind, key) = set_asked(block, kind, key)?;
    let first = good.place_of(kind, NAMES * key);
    let end = good.end_of(kind, key, first);
    if !good.fits(first, end, out.len()) {
        return Err(Refusal::ShortBuffer);
    }
    Ok(good.put_set(out, first, end))
}

// There is room for n records in the place of m.
fn has_room(block: HeadedBlock<'_>, m: usize, n: usize) -> bool
    requires { (m ≤ 65536) × (n ≤ 65536) }
    ensures { result ≡ leb (records block.entry.bytes.now + n) (room block.entry.bytes.now + m) }
{
    let all = block.end(Kind::Filter);
    let room = (block.bytes.len() - HEADER) / RECORD;
    all + n <= room + m
}

// Replaces the set of this kind and key by the one that the text is of, and says how many records it has.
pub fn read_set(block: &mut [u8], kind: u64, key: u64, text: &[u8]) -> Result<usize, ReadError>
    ensures { ReadAnswers block.old kind key text.now result block.new }
{
    let (good, kind, key) = set_asked(block, kind, key)?;
    let n = match scan_text(text, kind) {
        Ok(n) => n,
        Err(place) => return Err(ReadError::NotASet(place)),
    };
    let first = good.place_of(kind, NAMES * key);
    let old = good.end_of(kind, key, first) - first;
    if !has_room(HeadedBlock { bytes: block }, old, n) {
        return Err(ReadError::Refused(Refusal::NoRoom));
    }
    splice(block, kind, first, old, n);
    fill(block, first, text, kind, key, n);
    Ok(n)
}
