// Readers of the records of a set's text.

ghost use Rattle.std.specs.Prelude.{◌≡◌, ℕ, ◌<◌, Bool, true, cond, Some, None, List, ◌∷◌, ltb, length, drop};
ghost use Rattle.index.specs.Block.{IsName};
ghost use Rattle.index.specs.Letters.{letter_count, letters};
ghost use Rattle.index.specs.Text.{Entry, IsSet};
ghost use Rattle.index.specs.work.Reading.{BytesOf, read_letter, read_counts, total, read_record};
ghost use Rattle.index.specs.work.Reading.Parsed.{got};
ghost use Rattle.index.specs.work.Pieces.{SeesNumber, SeesLetters, SeesEntry, rest};

use crate::text::reading::{Cursor, Piece, count, mark, number};
use crate::{GREATEST_NAME, Kind, LETTER_COUNT};

// The count of the letter with this byte at the cursor, or of one that may not stand there, which has none; 0 where it does not stand there.
fn counted(text: &[u8], c: Cursor, byte: Option<u8>) -> Piece
    ensures { (may : Bool) (l : ℕ) → byte ≡ cond may (Some l) None → SeesNumber text.now result (read_letter may l (drop c.at text.now)) }
{
    let at = c.at;
    if at < text.len() && byte == Some(text[at]) {
        count(text, Cursor { at: at + 1 })
    } else {
        Piece::Number(0, c)
    }
}

// The counts of the letters at the cursor, into `out`. `bytes` are those that a record of the kind may have.
fn counts(
    text: &[u8],
    c: Cursor,
    kind: Kind,
    bytes: &[Option<u8>; LETTER_COUNT],
    out: &mut [usize; LETTER_COUNT],
) -> Piece
    requires out_len { length out.old ≡ letter_count }
    requires bytes_len { (length bytes.now ≡ letter_count) × BytesOf kind bytes.now }
    ensures out_len_2 { length out.new ≡ letter_count }
    ensures sees_letters { SeesLetters text.now result out.new (read_counts kind 0 letters (drop c.at text.now)) }
{
    let mut here = c;
    for (k, byte) in bytes.iter().enumerate() {
        let piece = counted(text, here, *byte);
        let Piece::Number(n, next) = piece else {
            return piece;
        };
        out[k] = n;
        here = next;
    }
    Piece::Letters(here)
}

// Some letter is counted.
fn is_counted(counts: &[usize; LETTER_COUNT]) -> bool
    requires { length counts.now ≡ letter_count }
    ensures { result ≡ ltb 0 (total counts.now) }
{
    counts.iter().any(|count| 0 < *count)
}

// The record at the cursor, whose id is at least `least`: its counts go into `out`, and the answer's number is its id.
pub(crate) fn read_record(
    text: &[u8],
    c: Cursor,
    kind: Kind,
    bytes: &[Option<u8>; LETTER_COUNT],
    least: usize,
    out: &mut [usize; LETTER_COUNT],
) -> Piece
    requires out_len { (length out.old ≡ letter_count) × IsName least }
    requires bytes_len { (length bytes.now ≡ letter_count) × BytesOf kind bytes.now }
    ensures out_len_2 { length out.new ≡ letter_count }
    ensures sees_entry { SeesEntry text.now result out.new (read_record kind least (drop c.at text.now)) }
{
    let id = number(text, c, least, GREATEST_NAME);
    let Piece::Number(name, after) = id else {
        return id;
    };
    let sign = mark(text, after);
    let Piece::Mark(start) = sign else {
        return sign;
    };
    let pieces = counts(text, start, kind, bytes, out);
    let Piece::Letters(next) = pieces else {
        return pieces;
    };
    if is_counted(out) {
        Piece::Number(name, next)
    } else {
        Piece::Wrong(next)
    }
}

// The next record of a text that is of a set, with the `;` before it where the text has begun: its counts go into
// `out`, and the answer's number is its id.
pub(crate) fn take_record(
    text: &[u8],
    c: Cursor,
    kind: Kind,
    bytes: &[Option<u8>; LETTER_COUNT],
    begun: bool,
    out: &mut [usize; LETTER_COUNT],
) -> Piece
    requires out_len { length out.old ≡ letter_count }
    requires bytes_len { (length bytes.now ≡ letter_count) × BytesOf kind bytes.now }
    ensures out_len_2 { length out.new ≡ letter_count }
    ensures sees_entry { (e : Entry) (es : List Entry) → IsSet kind (e ∷ es) → drop c.at text.now ≡ rest begun (e ∷ es)
        → SeesEntry text.now result out.new (got e (rest true es)) }
{
    if begun {
        let sign = mark(text, c);
        let Piece::Mark(start) = sign else {
            return sign;
        };
        return read_record(text, start, kind, bytes, 0, out);
    }
    read_record(text, c, kind, bytes, 0, out)
}
