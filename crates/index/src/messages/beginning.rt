// The first two bytes of a message, plain or wide: its kind, which halves are present, and their markers.

ghost use Rattle.std.specs.Prelude.{◌≡◌, ◌<◌, eqb, length};
ghost use Rattle.index.specs.Message.{kind_of, half_count, kind_in, present, markers, Marked, Begun};
ghost use Rattle.index.specs.work.Checks.{Says};
ghost use Rattle.index.specs.work.Halves.{half_number};

use crate::Kind;

// One of the two halves of a message.
#[derive(Clone, Copy)]
pub(crate) enum Which {
    Previous,
    New,
}

impl Which {
    // Its number.
    pub(crate) fn number(self) -> usize
        ensures { (result ≡ half_number self) × (result < half_count) }
    {
        self as usize
    }

    // It is the new half, which is added; the previous one is taken away.
    pub(crate) fn is_new(self) -> bool
        ensures { result ≡ eqb (half_number self) 1 }
    {
        matches!(self, Which::New)
    }
}

// A half of this kind may have these markers: none, or one if it is present and of kind 1.
pub(crate) fn is_marked(markers: usize, kind: u64, there: bool) -> bool
    ensures { Says (Marked markers (kind_of kind) there) result }
{
    if markers == 0 {
        return true;
    }
    if markers > 2 {
        return false;
    }
    if kind != 1 {
        return false;
    }
    there
}

// The bytes of a message, plain or wide, that has its first two.
#[derive(Clone, Copy)]
pub(crate) struct HeadedMessage<'a> {
    pub(crate) bytes: &'a [u8],
    ghost headed: { 1 < length bytes.now },
}

impl HeadedMessage<'_> {
    // The half is present.
    pub(crate) fn is_present(self, h: Which) -> bool
        ensures { result ≡ present self.entry.bytes.now (half_number h) }
    {
        (self.bytes[1] >> h.number()) % 2 == 1
    }

    // The number of the message's kind: the low four bits of the kind byte.
    pub(crate) fn kind_in(self) -> u64
        ensures { (result ≡ kind_in self.entry.bytes.now) × (result < 16) }
    {
        (self.bytes[0] % 16) as u64
    }

    // The markers of the half: 0 for none, 1 for X, 2 for N, 3 for both.
    pub(crate) fn markers_of(self, h: Which) -> usize
        ensures { (result ≡ markers self.entry.bytes.now (half_number h)) × (result < 4) }
    {
        ((self.bytes[0] >> (6 - 2 * h.number())) % 4) as usize
    }

    // The half may have its markers.
    fn markers_good(self, h: Which) -> bool
        ensures { Says
            (Marked (markers self.entry.bytes.now (half_number h)) (kind_of (kind_in self.entry.bytes.now))
            (present self.entry.bytes.now (half_number h)))
            result }
    {
        is_marked(self.markers_of(h), self.kind_in(), self.is_present(h))
    }

    // Kind, flags and markers are right.
    pub(crate) fn begun(self) -> bool
        ensures { Says (Begun self.entry.bytes.now) result }
    {
        if Kind::try_from(self.kind_in()).is_err() {
            return false;
        }
        let flags = self.bytes[1];
        if flags < 1 {
            return false;
        }
        if flags > 3 {
            return false;
        }
        if !self.markers_good(Which::Previous) {
            return false;
        }
        self.markers_good(Which::New)
    }
}
