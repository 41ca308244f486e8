// A plain message: its tests, and what it does.

ghost use Rattle.std.specs.Prelude.{◌≡◌, false};
ghost use Rattle.index.specs.Numbers.{number_of, Each};
ghost use Rattle.index.specs.Message.{present, halves, Blank, WellFormed, Named, Masked};
ghost use Rattle.index.specs.Wide.Sent.{plain};
ghost use Rattle.index.specs.Calls.{Message as Messages};
ghost use Rattle.index.specs.work.Checks.{Says};
ghost use Rattle.index.specs.work.Halves.{half_number};

use crate::messages::beginning::{HeadedMessage, Which};
use crate::messages::carry::carry;
use crate::messages::halves::{FIRST, HALF, TwelveBytes, is_masked, is_named};
use crate::messages::sending::{Message, send};
use crate::{MESSAGE, Refusal};

impl TwelveBytes<'_> {
    // The half is five zero bytes, unless it is present.
    fn blank(self, h: Which) -> bool
        ensures { Says (present self.entry.bytes.now (half_number h) ≡ false → Blank self.entry.bytes.now (half_number h)) result }
    {
        if self.is_present(h) {
            return true;
        }
        let i = FIRST + HALF * h.number();
        for j in 0..HALF {
            if self.bytes[i + j] != 0 {
                return false;
            }
        }
        true
    }

    // The half has its names below 1024, if it is present.
    fn names_good(self, h: Which) -> bool
        ensures { Says (Each Named (halves self.entry.bytes.now (half_number h))) result }
    {
        if !self.is_present(h) {
            return true;
        }
        is_named(self.half_at(h))
    }

    // The half has a good mask, if it is present.
    fn mask_good(self, h: Which) -> bool
        ensures { Says (Each Masked (halves self.entry.bytes.now (half_number h))) result }
    {
        if !self.is_present(h) {
            return true;
        }
        is_masked(self.half_at(h))
    }
}

// The message is 12 bytes; kind, flags, markers and an absent half are right.
fn well_formed(m: &[u8]) -> bool
    ensures { Says (WellFormed m.now) result }
{
    if m.len() != MESSAGE {
        return false;
    }
    let headed = HeadedMessage { bytes: m };
    if !headed.begun() {
        return false;
    }
    let message = TwelveBytes { bytes: m };
    if !message.blank(Which::Previous) {
        return false;
    }
    message.blank(Which::New)
}

// The bytes of a plain message.
#[derive(Clone, Copy)]
struct PlainMessage<'a> {
    bytes: &'a [u8],
}

impl Message for PlainMessage<'_> {
    ghost sent = { λ m. plain m.bytes.now };

    fn is_formed(&self) -> bool {
        well_formed(self.bytes)
    }

    fn is_named(&self, h: Which) -> bool {
        TwelveBytes { bytes: self.bytes }.names_good(h)
    }

    fn is_masked(&self, h: Which) -> bool {
        TwelveBytes { bytes: self.bytes }.mask_good(h)
    }

    fn carry(&self, b: &mut [u8]) -> Result<(), Refusal> {
        carry(b, self.bytes)
    }
}

// The message to the block.
pub fn message(block: &mut [u8], message: &[u8]) -> Result<(), Refusal>
    ensures { Messages block.old message.now (number_of result, block.new) }
{
    send(block, &PlainMessage { bytes: message })
}
