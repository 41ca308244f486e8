// Writing the text of a set. Each function but the last writes its part at `at`, as far as the buffer reaches, and says where it
// ends: so on an empty buffer it says how long the text is. What they require of `at` leaves room for what they write, that no
// sum wraps.

ghost use Rattle.std.specs.Prelude.{◌≡◌, [], ◌∷◌, ◌+◌, ◌-◌, ◌<◌, ◌≤◌, leb, length};
ghost use Rattle.index.specs.Letters.{letters};
ghost use Rattle.index.specs.Block.{records};
ghost use Rattle.index.specs.Text.{decimal, piece_of, pieces_of, counts_at, entry_at, entry_text, text_of};
ghost use Rattle.index.specs.work.Pieces.{next_text};
ghost use Rattle.index.specs.work.Written.{Puts, TableBytes, entries_from};

use crate::block::good::GoodBlock;
use crate::block::letters::table_bytes;
use crate::block::record::Record;
use crate::{LETTER_COUNT, MOST_LETTERS};

// No record of a good block has a longer text, with the `;` before the next one: an id and a count have at most five digits each.
const LONGEST_RECORD: usize = 5 + 1 + 6 * MOST_LETTERS + 1;

fn put_byte(out: &mut [u8], at: usize, byte: u8) -> usize
    requires { at < 1000000 }
    ensures { Puts at (byte ∷ []) out.old result out.new }
{
    if at < out.len() {
        out[at] = byte;
    }
    at + 1
}

fn put_decimal(out: &mut [u8], at: usize, n: usize) -> usize
    requires { (at < 900000) × (n < 100000) }
    ensures { Puts at (decimal n) out.old result out.new }
{
    if n < 10 {
        return put_byte(out, at, b'0' + n as u8);
    }
    let end = put_decimal(out, at, n / 10);
    put_byte(out, end, b'0' + (n % 10) as u8)
}

// The letter with this byte and the count n.
fn put_piece(out: &mut [u8], at: usize, byte: u8, n: usize) -> usize
    requires { (at < 800000) × (n < 65536) }
    ensures { Puts at (piece_of byte n) out.old result out.new }
{
    if n == 0 {
        return at;
    }
    let end = put_byte(out, at, byte);
    if n == 1 {
        return end;
    }
    put_decimal(out, end, n)
}

// The letters of the record.
fn put_pieces(out: &mut [u8], at: usize, source: Record<'_>, bytes: &[u8; LETTER_COUNT]) -> usize
    requires { (at < 700000) × TableBytes bytes.now }
    ensures { Puts at (pieces_of letters (counts_at source.entry.block.now source.entry.i)) out.old result out.new }
{
    let mut end = at;
    for (k, byte) in bytes.iter().enumerate() {
        end = put_piece(out, end, *byte, source.count(k));
    }
    end
}

// The record.
fn put_record(out: &mut [u8], at: usize, source: Record<'_>, bytes: &[u8; LETTER_COUNT]) -> usize
    requires { (at < 600000) × TableBytes bytes.now }
    ensures { Puts at (entry_text (entry_at source.entry.block.now source.entry.i)) out.old result out.new }
{
    let mark = put_decimal(out, at, source.id());
    let end = put_byte(out, mark, b';');
    put_pieces(out, end, source, bytes)
}

// The record, with the `;` before it where the text has begun.
fn put_next(
    out: &mut [u8],
    at: usize,
    begun: bool,
    source: Record<'_>,
    bytes: &[u8; LETTER_COUNT],
) -> usize
    requires { (at < 500000) × TableBytes bytes.now }
    ensures { Puts at (next_text begun (entry_at source.entry.block.now source.entry.i)) out.old result out.new }
{
    let start = if begun { put_byte(out, at, b';') } else { at };
    put_record(out, start, source, bytes)
}

impl GoodBlock<'_> {
    // The set that the records from number `first` up to number `end` are.
    pub(crate) fn put_set(self, out: &mut [u8], first: usize, end: usize) -> usize
        requires { (first ≤ end) × (end ≤ records self.bytes.now) }
        ensures { Puts 0 (text_of (entries_from self.entry.bytes.now first (end - first))) out.old result out.new }
    {
        let b = self.bytes;
        let bytes = table_bytes();
        let mut at = 0;
        for i in first..end {
            let source = Record { block: b, i };
            at = put_next(out, at, first < i, source, &bytes);
        }
        at
    }

    // The text of that set has at most n bytes. Where so many records can not have a longer one, it is not written out to be measured.
    pub(crate) fn fits(self, first: usize, end: usize, n: usize) -> bool
        requires { (first ≤ end) × (end ≤ records self.bytes.now) }
        ensures { result ≡ leb (length (text_of (entries_from self.entry.bytes.now first (end - first)))) n }
    {
        if LONGEST_RECORD * (end - first) <= n {
            return true;
        }
        let mut nothing = [0u8; 0];
        self.put_set(&mut nothing, first, end) <= n
    }
}
