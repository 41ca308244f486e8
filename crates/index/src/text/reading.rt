// Readers of the pieces of a set's text: numbers, counts and `;`.

ghost use Rattle.std.specs.Prelude.{◌≡◌, ℕ, ◌≤◌, ◌<◌, List, drop};
ghost use Rattle.index.specs.work.Reading.{reaches as reachable, ends, read_digits, read_number, read_count, read_mark};
ghost use Rattle.index.specs.work.Pieces.{SeesNumber, SeesMark};

use crate::GREATEST_COUNT;

// A place in a text.
#[derive(Clone, Copy)]
pub struct Cursor {
    pub at: usize,
}

// What stands at a place in a text, with the place after it: an id or a count, `;`, or the letters of a record. Or nothing
// that may stand there, with the place of the first byte that may not.
#[derive(Clone, Copy)]
pub enum Piece {
    Number(usize, Cursor),
    Mark(Cursor),
    Letters(Cursor),
    Wrong(Cursor),
}

// Some number from `least` to `most` is one from lo to hi, or such a one with digits more, at most d.
fn reaches(least: usize, most: usize, d: usize, lo: usize, hi: usize) -> bool
    requires { (least < 100000) × (most < 100000) }
    ensures { result ≡ reachable least most d lo hi }
{
    if most < lo {
        return false;
    }
    if least <= hi {
        return true;
    }
    if d == 0 {
        return false;
    }
    reaches(least, most, d - 1, 10 * lo, 10 * hi + 9)
}

// The number n, which ends at the cursor and is to be at least `least`.
fn ended(least: usize, n: usize, c: Cursor) -> Piece
    ensures { (t : List ℕ) → SeesNumber t result (ends least n (drop c.at t)) }
{
    if least <= n {
        Piece::Number(n, c)
    } else {
        Piece::Wrong(c)
    }
}

// The number from `least` to `most` that starts with n and goes on with the digits at the cursor.
fn digits(text: &[u8], c: Cursor, least: usize, most: usize, n: usize) -> Piece
    requires { (n ≤ most) × (least < 100000) × (most < 100000) }
    ensures { SeesNumber text.now result (read_digits least most n (drop c.at text.now)) }
{
    let mut sum = n;
    for at in c.at..text.len() {
        let b = text[at];
        if !b.is_ascii_digit() {
            return ended(least, sum, Cursor { at });
        }
        let more = 10 * sum + (b as usize - 48);
        if !reaches(least, most, 4, more, more) {
            return Piece::Wrong(Cursor { at });
        }
        sum = more;
    }
    ended(least, sum, Cursor { at: text.len() })
}

// A number from `least` to `most` at the cursor, without leading zeros. Mostly there is a number up to `most`, and it is
// high enough; only where it is not so, the digits are read again, to know from which byte on it is wrong.
pub(crate) fn number(text: &[u8], c: Cursor, least: usize, most: usize) -> Piece
    requires { (least < 100000) × (most < 100000) }
    ensures { SeesNumber text.now result (read_number least most (drop c.at text.now)) }
{
    let at = c.at;
    if text.len() <= at {
        return Piece::Wrong(c);
    }
    let b = text[at];
    if b == b'0' {
        if least == 0 {
            return Piece::Number(0, Cursor { at: at + 1 });
        }
        return Piece::Wrong(c);
    }
    if !b.is_ascii_digit() {
        return Piece::Wrong(c);
    }
    let any = digits(text, c, 0, most, 0);
    if let Piece::Number(n, _) = any {
        if least <= n {
            return any;
        }
    }
    digits(text, c, least, most, 0)
}

// The count at the cursor, which stands after a letter.
pub(crate) fn count(text: &[u8], c: Cursor) -> Piece
    ensures { SeesNumber text.now result (read_count (drop c.at text.now)) }
{
    let at = c.at;
    if text.len() <= at {
        return Piece::Number(1, c);
    }
    let b = text[at];
    if b.is_ascii_digit() {
        number(text, c, 2, GREATEST_COUNT)
    } else {
        Piece::Number(1, c)
    }
}

// `;` at the cursor.
pub(crate) fn mark(text: &[u8], c: Cursor) -> Piece
    ensures { SeesMark text.now result (read_mark (drop c.at text.now)) }
{
    let at = c.at;
    if at < text.len() && text[at] == b';' {
        Piece::Mark(Cursor { at: at + 1 })
    } else {
        Piece::Wrong(c)
    }
}
