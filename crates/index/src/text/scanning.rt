// Reading a text through, to know whether it is of a set.

ghost use Rattle.std.specs.Prelude.{◌≡◌, ◌-◌, length, drop};
ghost use Rattle.index.specs.work.Pieces.{place_in, Scanned};

use crate::block::letters::letter_bytes;
use crate::text::entries::read_record;
use crate::text::reading::{Cursor, Piece, mark};
use crate::{GREATEST_NAME, Kind, LETTER_COUNT};

// The place that a piece has.
fn place_in(piece: Piece) -> usize
    ensures { result ≡ place_in piece }
{
    match piece {
        Piece::Number(_, c) => c.at,
        Piece::Mark(c) => c.at,
        Piece::Letters(c) => c.at,
        Piece::Wrong(c) => c.at,
    }
}

// The place of a text that has a wrong piece.
fn place_of(text: &[u8], piece: Piece) -> usize
    ensures { result ≡ length text.now - length (drop (place_in piece) text.now) }
{
    let place = place_in(piece);
    if text.len() < place {
        return text.len();
    }
    place
}

// Reads a text through, and changes nothing: how many records it is of, or the place of one that is of no set.
pub(crate) fn scan_text(text: &[u8], kind: Kind) -> Result<usize, usize>
    ensures { Scanned kind text.now result }
{
    if text.len() == 0 {
        return Ok(0);
    }
    let bytes = letter_bytes(kind);
    let mut out = [0usize; LETTER_COUNT];
    let mut here = Cursor { at: 0 };
    let mut least = 0;
    let mut n = 0;
    loop {
        let entry = read_record(text, here, kind, &bytes, least, &mut out);
        let Piece::Number(name, next) = entry else {
            return Err(place_of(text, entry));
        };
        n += 1;
        let at = next.at;
        if text.len() <= at {
            return Ok(n);
        }
        if name == GREATEST_NAME {
            return Err(at); // no id is left for another record
        }
        let Piece::Mark(start) = mark(text, next) else {
            return Err(at);
        };
        here = start;
        least = name + 1;
    }
}
