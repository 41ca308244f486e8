// Where the records of a name are.

ghost use Rattle.std.specs.Prelude.{◌<◌, ◌≤◌, ◌≡◌};
ghost use Rattle.index.specs.Block.{IsName, records};
ghost use Rattle.directory.specs.Directory.{StartsAt};
ghost use Rattle.rights.specs.work.Lookup.{wide, KeyBefore, Keyed};

use crate::source::Source;
use directory::Span;
use index::{GoodBlock, Kind, PAIR, ROOM};

// The key of record i, if it is before `end`, or else a number that is below no name.
fn key_before(block: GoodBlock<'_>, i: usize, end: usize) -> usize
    requires { end ≤ records block.bytes.now }
    ensures { KeyBefore block.entry.bytes.now end i result }
{
    if i < end {
        return index::pair_of(block.bytes, i) % PAIR;
    }
    PAIR - 1
}

// The step, if the key is below the name, or else 0. There is no branch on the key for the processor to guess: the mask of the step is
// 65,535 for a key below the name, and 65,536 for another.
fn taken(step: usize, key: usize, name: usize) -> usize
    requires { (step < wide) × ((key < wide) × (name < wide)) }
    ensures { (key < name → result ≡ step) × (name ≤ key → result ≡ 0) }
{
    step & ((key + PAIR * PAIR - name) / PAIR)
}

// The number of the first record of the kind whose key is not below the name. In the loop every record before `low` has a key below it, and
// none after the window that begins at `low` has. No part has more records than there is room for in the longest block.
fn lowest(block: GoodBlock<'_>, kind: Kind, name: usize) -> usize
    requires { IsName name }
    ensures { StartsAt block.entry.bytes.now kind name result }
{
    let part = directory::part_of(block.bytes, kind);
    let mut low = part.from;
    let mut window = ROOM;
    while window > 1 {
        let step = window / 2;
        low = low + taken(step, key_before(block, low + step, part.end), name);
        window = window - step;
    }
    low + taken(1, key_before(block, low, part.end), name)
}

// The same, by the directory if one is lent, or else by that search.
pub(crate) fn first_of(source: &Source<'_>, kind: Kind, name: usize) -> usize
    requires { IsName name }
    ensures { StartsAt source.now.block.bytes.now kind name result }
{
    match source.directory {
        Some(directory) => directory::record_by(directory, kind, name as u16),
        None => lowest(source.block, kind, name),
    }
}

// The number after the last record of the name, of those of the part from `from` on, where the name's records start.
fn end_of(block: GoodBlock<'_>, kind: Kind, name: usize, from: usize) -> usize
    requires { IsName name × StartsAt block.bytes.now kind name from }
    ensures { Keyed block.entry.bytes.now kind name (record { from = from; end = result }) }
{
    let part = directory::part_of(block.bytes, kind);
    for end in from..part.end {
        if index::pair_of(block.bytes, end) % PAIR != name {
            return end;
        }
    }
    part.end
}

// The records of the kind whose key is the name.
pub(crate) fn records_of(source: &Source<'_>, kind: Kind, name: usize) -> Span
    requires { IsName name }
    ensures { Keyed source.now.block.bytes.now kind name result }
{
    let from = first_of(source, kind, name);
    let end = match source.directory {
        Some(directory) => directory::record_by(directory, kind, (name + 1) as u16),
        None => end_of(source.block, kind, name, from),
    };
    Span { from, end }
}
