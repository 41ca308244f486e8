// What a crate above reads of a block's parts and of a directory. Every door answers for every input.

ghost use Rattle.std.specs.Prelude.{◌≡◌, ◌^◌, ◌<◌};
ghost use Rattle.index.specs.Block.{place};
ghost use Rattle.directory.specs.Directory.{part_start, entry};
ghost use Rattle.directory.specs.Doors.{PartOf, record_at};

use crate::{PART, Span};
use index::{HEADER, Kind, RECORD};

// The numbers of the records of the kind.
pub fn part_of(block: &[u8], kind: Kind) -> Span
    ensures { PartOf block.now kind result }
{
    let m = index::size_of(block, Kind::Membership) as usize;
    let p = index::size_of(block, Kind::Permission) as usize;
    match kind {
        Kind::Membership => Span { from: 0, end: m },
        Kind::Permission => Span {
            from: m,
            end: m + p,
        },
        Kind::Filter => Span {
            from: m + p,
            end: m + p + (index::size_of(block, Kind::Filter) as usize),
        },
    }
}

// Where the entries of the kind begin in a directory.
pub(crate) fn part_at(kind: Kind) -> usize
    ensures { result ≡ part_start kind }
{
    match kind {
        Kind::Membership => 0,
        Kind::Permission => PART,
        Kind::Filter => 2 * PART,
    }
}

// Where record i begins.
pub(crate) fn place_of(i: usize) -> usize
    requires { i < 2 ^ 32 }
    ensures { result ≡ place i }
{
    HEADER + RECORD * i
}

// The record that begins where the directory says that those of the key x do; entries past its end count as 0.
pub fn record_by(directory: &[u16], kind: Kind, x: u16) -> usize
    ensures { result ≡ record_at (entry directory.now kind x) }
{
    let at = part_at(kind) + (x as usize);
    if at >= directory.len() {
        return 0;
    }
    let place = directory[at] as usize;
    if place < HEADER {
        return 0;
    }
    (place - HEADER) / RECORD
}
