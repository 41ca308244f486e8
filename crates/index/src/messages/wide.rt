// A wide message: its tests, and what it does.

ghost use Rattle.index.specs.Numbers.{number_of, Each};
ghost use Rattle.index.specs.Message.{Named, Masked};
ghost use Rattle.index.specs.Wide.{WideFormed, wide_halves};
ghost use Rattle.index.specs.Wide.Sent.{wide};
ghost use Rattle.index.specs.Calls.{Wide as SendsWide};
ghost use Rattle.index.specs.work.Checks.{Says};
ghost use Rattle.index.specs.work.Halves.{half_number};
ghost use Rattle.index.specs.work.Pairing.{HalfFormed};

use crate::Refusal;
use crate::messages::beginning::{HeadedMessage, Which};
use crate::messages::halves::is_masked;
use crate::messages::names::{FRONT, MASKS, WideHeader, WideLists, ids_of, keys_of};
use crate::messages::pairs::{FormedWide, carry_pairs};
use crate::messages::sending::{Message, send};

impl WideLists<'_> {
    // The half has good lists, or it is absent, and its lengths and its mask are zero.
    fn half_formed(self, h: Which) -> bool
        ensures { Says (HalfFormed self.entry.bytes.now (half_number h)) result }
    {
        let keys = keys_of(h);
        let ids = ids_of(h);
        let message = HeadedMessage { bytes: self.bytes };
        if message.is_present(h) {
            if !self.list_good(keys) {
                return false;
            }
            return self.list_good(ids);
        }
        let header = WideHeader { bytes: self.bytes };
        if header.length_at(keys) != 0 {
            return false;
        }
        if header.length_at(ids) != 0 {
            return false;
        }
        self.bytes[MASKS + h.number()] == 0
    }
}

// The header, the length and the lists are right.
fn wide_formed(m: &[u8]) -> bool
    ensures { Says (WideFormed m.now) result }
{
    if m.len() < FRONT {
        return false;
    }
    let message = HeadedMessage { bytes: m };
    if !message.begun() {
        return false;
    }
    let header = WideHeader { bytes: m };
    if !header.in_place() {
        return false;
    }
    let lists = WideLists { bytes: m };
    if !lists.half_formed(Which::Previous) {
        return false;
    }
    lists.half_formed(Which::New)
}

impl FormedWide<'_> {
    // The half has its names below 1024.
    fn names_good(self, h: Which) -> bool
        ensures { Says (Each Named (wide_halves self.entry.bytes.now (half_number h))) result }
    {
        let lists = WideLists { bytes: self.bytes };
        if !lists.all_names(keys_of(h)) {
            return false;
        }
        lists.all_names(ids_of(h))
    }

    // The half has a good mask, if it is present: each of its pairs has the same.
    fn mask_good(self, h: Which) -> bool
        ensures { Says (Each Masked (wide_halves self.entry.bytes.now (half_number h))) result }
    {
        let message = HeadedMessage { bytes: self.bytes };
        if !message.is_present(h) {
            return true;
        }
        let header = WideHeader { bytes: self.bytes };
        is_masked(header.pair_with(h, 0, 0))
    }
}

// The bytes of a wide message.
#[derive(Clone, Copy)]
struct WideMessage<'a> {
    bytes: &'a [u8],
}

impl Message for WideMessage<'_> {
    ghost sent = { λ m. wide m.bytes.now };

    fn is_formed(&self) -> bool {
        wide_formed(self.bytes)
    }

    fn is_named(&self, h: Which) -> bool {
        FormedWide { bytes: self.bytes }.names_good(h)
    }

    fn is_masked(&self, h: Which) -> bool {
        FormedWide { bytes: self.bytes }.mask_good(h)
    }

    fn carry(&self, b: &mut [u8]) -> Result<(), Refusal> {
        carry_pairs(b, self.bytes)
    }
}

// The wide message to the block.
pub fn wide(block: &mut [u8], message: &[u8]) -> Result<(), Refusal>
    ensures { SendsWide block.old message.now (number_of result, block.new) }
{
    send(block, &WideMessage { bytes: message })
}
