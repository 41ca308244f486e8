// The halves of a plain message are carried out: one by itself, both as two changes.

ghost use Rattle.std.specs.Prelude.{◌≡◌, eqb};
ghost use Rattle.index.specs.Numbers.{number_of};
ghost use Rattle.index.specs.Message.{half_at, previous, new, changes, Carried, packed_change};
ghost use Rattle.index.specs.Wide.Sent.{plain};
ghost use Rattle.index.specs.work.Edits.{change_of, Tested};
ghost use Rattle.index.specs.work.Halves.{half_number};

use crate::Refusal;
use crate::messages::beginning::Which;
use crate::messages::edits::{put_in, take_away};
use crate::messages::halves::TwelveBytes;
use crate::messages::run::{pack, run_both};

impl TwelveBytes<'_> {
    // The half as a change of a list: the previous half is taken away, the new one added.
    fn change_at(self, h: Which) -> u64
        ensures { packed_change result ≡ change_of (eqb (half_number h) 1) (half_at self.entry.bytes.now (half_number h)) }
    {
        let half = self.half_at(h);
        pack(
            h.is_new(),
            half.kind.number(),
            half.key as u16,
            half.id as u16,
            half.mask as u16,
        )
    }
}

// The halves that are present of a message whose tests have passed.
pub(crate) fn carry(b: &mut [u8], m: &[u8]) -> Result<(), Refusal>
    requires { Tested b.old (plain m.now) }
    ensures { Carried b.old (changes (previous m.now) (new m.now)) b.old (number_of result, b.new) }
{
    let message = TwelveBytes { bytes: m };
    if !message.is_present(Which::New) {
        return take_away(b, message.half_at(Which::Previous));
    }
    if !message.is_present(Which::Previous) {
        return put_in(b, message.half_at(Which::New));
    }
    run_both(
        b,
        message.change_at(Which::Previous),
        message.change_at(Which::New),
    )
}
