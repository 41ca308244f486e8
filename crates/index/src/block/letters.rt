// The table of the letters and the markers, used by writer, reader and net mask.

ghost use Rattle.std.specs.Prelude.{◌≡◌, true, ℕ, ◌<◌, ◌^◌, length, get_or};
ghost use Rattle.index.specs.Letters.{letter_count, right_count, letters, In, may_have};
ghost use Rattle.index.specs.work.Checks.{Says};
ghost use Rattle.index.specs.work.Edits.{Letters};
ghost use Rattle.index.specs.work.Reading.{byte_of, BytesOf};
ghost use Rattle.index.specs.work.Written.{TableBytes};

use crate::{Kind, LETTER_COUNT, MARKER_N, MARKER_X, RIGHTS};

// A letter of a set's text, with the mask of what it stands for.
#[derive(Clone, Copy)]
pub struct Letter {
    pub mask: u16,
    pub byte: u8,
}

pub const LETTERS: [Letter; LETTER_COUNT] = [
    Letter {
        mask: 1,
        byte: b'M',
    },
    Letter {
        mask: 2,
        byte: b'R',
    },
    Letter {
        mask: 4,
        byte: b'U',
    },
    Letter {
        mask: 8,
        byte: b'P',
    },
    Letter {
        mask: 16,
        byte: b'm',
    },
    Letter {
        mask: 32,
        byte: b'r',
    },
    Letter {
        mask: 64,
        byte: b'u',
    },
    Letter {
        mask: 128,
        byte: b'p',
    },
    Letter {
        mask: 256,
        byte: b'X',
    },
    Letter {
        mask: 512,
        byte: b'N',
    },
];

// The place of each letter in the table: the capital letters, which are the rights, then the small letters, which deny them.
pub(crate) const CAPITAL_M: u8 = 0;

pub(crate) const CAPITAL_R: u8 = 1;

pub(crate) const CAPITAL_U: u8 = 2;

pub(crate) const CAPITAL_P: u8 = 3;

pub(crate) const SMALL_M: u8 = 4;

pub(crate) const SMALL_R: u8 = 5;

pub(crate) const SMALL_U: u8 = 6;

pub(crate) const SMALL_P: u8 = 7;

// Letter k, in letter order.
pub(crate) fn letter_at(k: usize) -> Letter
    requires { k < letter_count }
    ensures { (result.mask ≡ 2 ^ k) × (result.byte ≡ get_or letters k 0) }
{
    LETTERS[k]
}

// The mask of right k.
pub(crate) fn mask_of(k: u8) -> u8
    requires { k < right_count }
    ensures { result ≡ 2 ^ k }
{
    letter_at(k as usize).mask as u8
}

// The mask of the capital letters, of all eight letters, and of the capital letters with the two markers.
const CAPITALS: usize = (1 << RIGHTS) - 1;

const EIGHT: usize = (1 << MARKER_X) - 1;

const MARKED: usize = CAPITALS + (1 << MARKER_X) + (1 << MARKER_N);

// The mask of the letters that a record of the kind may have. Nothing else in the code says which they are.
pub(crate) fn letters_of(kind: Kind) -> usize
    ensures { Letters kind result }
{
    match kind {
        Kind::Membership => MARKED,
        Kind::Permission => EIGHT,
        Kind::Filter => CAPITALS,
    }
}

// It may have letter k.
pub(crate) fn may_have(kind: Kind, k: usize) -> bool
    requires { k < letter_count }
    ensures { result ≡ may_have kind k }
{
    (letters_of(kind) >> k) % 2 == 1
}

// It may have each letter of the mask.
pub(crate) fn may_have_all(kind: Kind, mask: usize) -> bool
    ensures { Says ((k : ℕ) → In k mask → may_have kind k ≡ true) result }
{
    mask & letters_of(kind) == mask
}

// The bytes of all letters. A writer takes them from the table once for a set, since taking an entry copies the table.
pub(crate) fn table_bytes() -> [u8; LETTER_COUNT]
    ensures { TableBytes result }
{
    let mut bytes = [0u8; LETTER_COUNT];
    for k in 0..LETTER_COUNT {
        bytes[k] = letter_at(k).byte;
    }
    bytes
}

// The byte of letter k, if a record of the kind may have it.
fn byte_of(kind: Kind, k: usize) -> Option<u8>
    requires { k < letter_count }
    ensures { result ≡ byte_of kind k }
{
    if may_have(kind, k) {
        Some(letter_at(k).byte)
    } else {
        None
    }
}

// The bytes of all letters, as a record of the kind may have them. A reader takes them from the table once for a text.
pub(crate) fn letter_bytes(kind: Kind) -> [Option<u8>; LETTER_COUNT]
    ensures { (length result ≡ letter_count) × BytesOf kind result }
{
    let mut bytes = [None; LETTER_COUNT];
    for k in 0..LETTER_COUNT {
        bytes[k] = byte_of(kind, k);
    }
    bytes
}
