// The four lists of names in a wide message, by their number.

ghost use Rattle.std.specs.Prelude.{◌≡◌, ◌+◌, ◌*◌, ◌<◌, ◌≤◌, length};
ghost use Rattle.index.specs.Block.{IsName};
ghost use Rattle.index.specs.Numbers.{Each};
ghost use Rattle.index.specs.Wide.{wide_header, list_count, list_length, list_offset, names_from, names, Rising, ListGood};
ghost use Rattle.index.specs.work.Checks.{Says};
ghost use Rattle.index.specs.work.Halves.{half_number};
ghost use Rattle.index.specs.work.Pairing.{InPlace};

use crate::NAMES;
use crate::block::numbers::number_at;
use crate::messages::beginning::Which;

// How many bytes the header has, and where the lengths of the lists, the masks of the halves and the offsets of the lists stand in it.
pub(crate) const FRONT: usize = 16;

const LENGTHS: usize = 2;

pub(crate) const MASKS: usize = 6;

const OFFSETS: usize = 8;

// How many lists there are, and how many names a list may have.
const LISTS: usize = 4;

pub(crate) const LONGEST: usize = 8;

// The number of the list of the half's keys, and that of its ids.
pub(crate) fn keys_of(h: Which) -> usize
    ensures { (result ≡ 2 * half_number h) × (result < list_count) }
{
    2 * h.number()
}

pub(crate) fn ids_of(h: Which) -> usize
    ensures { (result ≡ 2 * half_number h + 1) × (result < list_count) }
{
    2 * h.number() + 1
}

// The bytes of a wide message that has all of its header.
#[derive(Clone, Copy)]
pub(crate) struct WideHeader<'a> {
    pub(crate) bytes: &'a [u8],
    ghost header: { wide_header ≤ length bytes.now },
}

impl WideHeader<'_> {
    // How many names list q has.
    pub(crate) fn length_at(self, q: usize) -> usize
        requires { q < list_count }
        ensures { (result ≡ list_length self.entry.bytes.now q) × (result < 256) }
    {
        self.bytes[LENGTHS + q] as usize
    }

    // Where list q begins, as the header says.
    pub(crate) fn offset_at(self, q: usize) -> usize
        requires { q < list_count }
        ensures { (result ≡ list_offset self.entry.bytes.now q) × (result < 65536) }
    {
        number_at(self.bytes, OFFSETS + 2 * q)
    }

    // The lists follow each other without gaps, up to the end of the message.
    pub(crate) fn in_place(self) -> bool
        ensures { Says (InPlace self.entry.bytes.now) result }
    {
        let mut place = FRONT;
        for q in 0..LISTS {
            if self.offset_at(q) != place {
                return false;
            }
            place += 2 * self.length_at(q);
        }
        self.bytes.len() == place
    }
}

// The n names from byte `at` on rise strictly.
fn rises(m: &[u8], at: usize, n: usize) -> bool
    requires { at + 2 * n ≤ length m.now }
    ensures { Says (Rising (names_from m.now at n)) result }
{
    for i in 1..n {
        let name = number_at(m, at + 2 * (i - 1));
        if name >= number_at(m, at + 2 * i) {
            return false;
        }
    }
    true
}

// The bytes of a wide message whose lists follow each other up to its end.
#[derive(Clone, Copy)]
pub(crate) struct WideLists<'a> {
    pub(crate) bytes: &'a [u8],
    ghost placed: { InPlace bytes.now },
}

impl WideLists<'_> {
    // List q is not empty, not too long, and rises strictly.
    pub(crate) fn list_good(self, q: usize) -> bool
        requires { q < list_count }
        ensures { Says (ListGood self.entry.bytes.now q) result }
    {
        let header = WideHeader { bytes: self.bytes };
        let n = header.length_at(q);
        1 <= n && n <= LONGEST && rises(self.bytes, header.offset_at(q), n)
    }

    // Each name of list q is below 1024.
    pub(crate) fn all_names(self, q: usize) -> bool
        requires { q < list_count }
        ensures { Says (Each IsName (names self.entry.bytes.now q)) result }
    {
        let header = WideHeader { bytes: self.bytes };
        let at = header.offset_at(q);
        let n = header.length_at(q);
        for i in 0..n {
            if number_at(self.bytes, at + 2 * i) >= NAMES {
                return false;
            }
        }
        true
    }
}
