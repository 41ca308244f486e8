// The two halves of a plain message; the parts of a half, and its tests.

ghost use Rattle.std.specs.Prelude.{◌≡◌, ◌<◌, ◌/◌, length};
ghost use Rattle.index.specs.Message.{message_length, present, marker_mask, mask_with, half_at, Named, Masked};
ghost use Rattle.index.specs.work.Checks.{Says};
ghost use Rattle.index.specs.work.Halves.{half_number, as_half};

use crate::block::kinds::kind_of;
use crate::block::letters::may_have_all;
use crate::block::numbers::number_at;
use crate::messages::beginning::{HeadedMessage, Which};
use crate::{Kind, MARKER_X, NAMES};

// Where the first half begins, and how many bytes a half has: key, id, mask.
pub(crate) const FIRST: usize = 2;

pub(crate) const HALF: usize = 5;

// The mask of the first marker: a half's markers stand in its mask so many times.
const MARKER: usize = 1 << MARKER_X;

// A half; its markers are in its mask.
#[derive(Clone, Copy)]
pub(crate) struct Half {
    pub(crate) kind: Kind,
    pub(crate) key: usize,
    pub(crate) id: usize,
    pub(crate) mask: usize,
}

impl HeadedMessage<'_> {
    // The mask of the half: its mask byte, with its markers.
    pub(crate) fn mask_with(self, h: Which, byte: u8) -> usize
        ensures { (result ≡ mask_with self.entry.bytes.now (half_number h) byte) × (result < 1024) }
    {
        (byte as usize) + MARKER * self.markers_of(h)
    }
}

// The bytes of a plain message that has all twelve.
#[derive(Clone, Copy)]
pub(crate) struct TwelveBytes<'a> {
    pub(crate) bytes: &'a [u8],
    ghost twelve: { length bytes.now ≡ message_length },
}

impl TwelveBytes<'_> {
    // The half is present.
    pub(crate) fn is_present(self, h: Which) -> bool
        ensures { result ≡ present self.entry.bytes.now (half_number h) }
    {
        HeadedMessage { bytes: self.bytes }.is_present(h)
    }

    // The half, as its bytes have it.
    pub(crate) fn half_at(self, h: Which) -> Half
        ensures half { as_half result ≡ half_at self.entry.bytes.now (half_number h) }
        ensures small { (result.key < 65536) × (result.id < 65536) × (result.mask < 1024) }
    {
        let i = FIRST + HALF * h.number();
        let message = HeadedMessage { bytes: self.bytes };
        Half {
            kind: kind_of(message.kind_in()),
            key: number_at(self.bytes, i),
            id: number_at(self.bytes, i + 2),
            mask: message.mask_with(h, self.bytes[i + 4]),
        }
    }
}

// Its key and its id are names.
pub(crate) fn is_named(h: Half) -> bool
    ensures { Says (Named (as_half h)) result }
{
    if h.key >= NAMES {
        return false;
    }
    h.id < NAMES
}

// The markers in the mask of a half.
pub(crate) fn markers_in(h: Half) -> usize
    ensures { result ≡ h.mask / marker_mask }
{
    h.mask / MARKER
}

// Its mask is not 0 without the markers, and its kind may have each letter of it.
pub(crate) fn is_masked(h: Half) -> bool
    ensures { Says (Masked (as_half h)) result }
{
    if h.mask % MARKER == 0 {
        return false;
    }
    may_have_all(h.kind, h.mask)
}
