// Taking the records of a text into a block.

ghost use Rattle.std.specs.Prelude.{List, ◌+◌, ◌<◌, ◌≤◌, length, Ok};
ghost use Rattle.index.specs.Block.{place};
ghost use Rattle.index.specs.Text.{Entry, Writes};
ghost use Rattle.index.specs.work.Pieces.{Scanned};
ghost use Rattle.index.specs.work.Written.{Filled};

use crate::block::letters::letter_bytes;
use crate::block::records::put_entry;
use crate::text::entries::take_record;
use crate::text::reading::{Cursor, Piece};
use crate::{Kind, LETTER_COUNT};

// Writes the n records of a text that is of a set, from record `first` of a block on.
pub(crate) fn fill(b: &mut [u8], first: usize, text: &[u8], kind: Kind, key: usize, n: usize)
    requires key_bound { (key < 65536) × (place (first + n) ≤ length b.old) }
    requires scanned { Scanned kind text.now (Ok n) }
    ensures { (es : List Entry) → Writes kind es text.now → Filled key first es n b.old b.new }
{
    let bytes = letter_bytes(kind);
    let mut counts = [0usize; LETTER_COUNT];
    let mut here = Cursor { at: 0 };
    for i in 0..n {
        let Piece::Number(name, next) = take_record(text, here, kind, &bytes, 0 < i, &mut counts)
        else {
            return;
        };
        put_entry(b, first + i, key, name, &counts);
        here = next;
    }
}
