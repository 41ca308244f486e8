// The pairs of a wide message as a list of changes.

ghost use Rattle.std.specs.Prelude.{◌≡◌, map, ◌+◌, ◌*◌, ◌<◌, ◌≤◌, eqb, length};
ghost use Rattle.index.specs.Numbers.{number_of};
ghost use Rattle.index.specs.Message.{kind_of, kind_in, mask_with, changes, Carried};
ghost use Rattle.index.specs.Wide.{mask_in, names_from, wide_halves, WideFormed, previous_of, new_of};
ghost use Rattle.index.specs.Wide.Sent.{wide};
ghost use Rattle.index.specs.work.Edits.{half, Tested};
ghost use Rattle.index.specs.work.Halves.{half_number, as_half};
ghost use Rattle.index.specs.work.Pairing.{most_pairs, Listing};

use crate::Refusal;
use crate::block::kinds::kind_of;
use crate::block::numbers::number_at;
use crate::messages::beginning::{HeadedMessage, Which};
use crate::messages::halves::Half;
use crate::messages::names::{LONGEST, MASKS, WideHeader, ids_of, keys_of};
use crate::messages::run::{pack, run};

// How many changes a wide message may have at most: every pair of two lists, taken away, and every pair of two more, added.
const MOST: usize = 2 * LONGEST * LONGEST;

impl WideHeader<'_> {
    // The pair of the half with this key and this id.
    pub(crate) fn pair_with(self, h: Which, key: usize, id: usize) -> Half
        ensures half { as_half result
            ≡ half (kind_of (kind_in self.entry.bytes.now)) key id
            (mask_with self.entry.bytes.now (half_number h) (mask_in self.entry.bytes.now (half_number h))) }
        ensures small { result.mask < 1024 }
    {
        let message = HeadedMessage { bytes: self.bytes };
        Half {
            kind: kind_of(message.kind_in()),
            key,
            id,
            mask: message.mask_with(h, self.bytes[MASKS + h.number()]),
        }
    }
}

// The pairs of the half's key with n ids, which stand from byte `ids` of the message on, go into the list from place `at` on.
fn put_row(list: &mut [u64], at: usize, adds: bool, c: Half, m: &[u8], ids: usize, n: usize)
    requires { (at + n ≤ length list.old) × (ids + 2 * n ≤ length m.now) × (c.key < 65536) × (c.mask < 1024) }
    ensures { Listing adds at (at + n) (map (λ y. half c.kind c.key y c.mask) (names_from m.now ids n)) list.old list.new }
{
    let kind = c.kind.number();
    let key = c.key as u16;
    let mask = c.mask as u16;
    for i in 0..n {
        let name = number_at(m, ids + 2 * i) as u16;
        list[at + i] = pack(adds, kind, key, name, mask);
    }
}

// The bytes of a wide message whose header, length and lists are right.
#[derive(Clone, Copy)]
pub(crate) struct FormedWide<'a> {
    pub(crate) bytes: &'a [u8],
    ghost formed: { ∥ WideFormed bytes.now ∥₁ },
}

impl FormedWide<'_> {
    // Every pair of the half goes into the list from place `at` on. It gives the place after the last.
    fn put_half(self, list: &mut [u64], at: usize, h: Which) -> usize
        requires { at + most_pairs ≤ length list.old }
        ensures { (result ≤ at + most_pairs)
            × Listing (eqb (half_number h) 1) at result (wide_halves self.entry.bytes.now (half_number h)) list.old list.new }
    {
        let first = keys_of(h);
        let second = ids_of(h);
        let header = WideHeader { bytes: self.bytes };
        let keys = header.offset_at(first);
        let count = header.length_at(first);
        let ids = header.offset_at(second);
        let n = header.length_at(second);
        let mut place = at;
        for i in 0..count {
            let pair = header.pair_with(h, number_at(self.bytes, keys + 2 * i), 0);
            put_row(list, place, h.is_new(), pair, self.bytes, ids, n);
            place += n;
        }
        place
    }
}

// The pairs of a wide message whose tests have passed.
pub(crate) fn carry_pairs(b: &mut [u8], m: &[u8]) -> Result<(), Refusal>
    requires { Tested b.old (wide m.now) }
    ensures { Carried b.old (changes (previous_of (wide m.now)) (new_of (wide m.now))) b.old (number_of result, b.new) }
{
    let mut list = [0u64; MOST];
    let message = FormedWide { bytes: m };
    let middle = message.put_half(&mut list, 0, Which::Previous);
    let end = message.put_half(&mut list, middle, Which::New);
    run(b, &list[..end])
}
