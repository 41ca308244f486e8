// Bytes and the header are moved to where a change of records wants them.

ghost use Rattle.std.specs.Prelude.{◌+◌, ◌-◌, ◌*◌, ◌<◌, ◌≤◌, length};
ghost use Rattle.index.specs.Block.{header_length, greatest_length, record_length, place, size, records};
ghost use Rattle.index.specs.work.Bytes.{Four, Shifted, Spliced};
ghost use Rattle.index.specs.work.Checks.{Zero};
ghost use Rattle.index.specs.work.Edits.{Overwritten, Headed, Resized, Opens};

use crate::block::headed::HeadedBlock;
use crate::block::numbers::{number_at, put_number};
use crate::{HEADER, Kind, RECORD};

// The bytes lo to hi - 1 become zero.
pub(crate) fn clear(b: &mut [u8], lo: usize, hi: usize)
    requires { (lo ≤ hi) × (hi ≤ length b.old) }
    ensures { Overwritten lo hi (λ u. 0) b.old b.new }
{
    b[lo..hi].fill(0);
}

// The bytes from p on, which are zero from `end` on, go to q and after it.
pub(crate) fn shift(b: &mut [u8], p: usize, q: usize, end: usize)
    requires { (p ≤ end) × (end ≤ length b.old) × (q + (end - p) ≤ length b.old) × Zero b.old end }
    ensures { Shifted p q b.old b.new }
{
    b.copy_within(p..end, q);
    let last = q + (end - p);
    if last < end {
        clear(b, last, end);
    }
}

// Four numbers, one after the other from byte i on.
fn put_four(b: &mut [u8], i: usize, w: usize, x: usize, y: usize, z: usize)
    requires { (i + 8 ≤ length b.old) × (w < 65536) × (x < 65536) × (y < 65536) × (z < 65536) }
    ensures { Four i w x y z b.old b.new }
{
    put_number(b, i, w);
    put_number(b, i + 2, x);
    put_number(b, i + 4, y);
    put_number(b, i + 6, z);
}

// The header of m, p and f records.
pub(crate) fn put_header(b: &mut [u8], m: usize, p: usize, f: usize)
    requires { (header_length ≤ length b.old) × (place (m + p + f) < 65536) }
    ensures { Headed m p f b.old b.new }
{
    put_four(b, 0, m, p, f, 0);
    let first = HEADER + RECORD * m;
    let second = first + RECORD * p;
    put_four(b, 8, HEADER, first, second, second + RECORD * f);
}

// The header where the kind has n records.
fn resize(b: &mut [u8], kind: Kind, n: usize)
    requires { (header_length ≤ length b.old) × (length b.old ≤ greatest_length) × (place (records b.old + n) ≤ length b.old + record_length * size b.old kind) }
    ensures { Resized kind n b.old b.new }
{
    let m = number_at(b, 0);
    let p = number_at(b, 2);
    let f = number_at(b, 4);
    match kind {
        Kind::Membership => put_header(b, n, p, f),
        Kind::Permission => put_header(b, m, n, f),
        Kind::Filter => put_header(b, m, p, n),
    }
}

// There is room for m records of the kind in the place of n from number j on. What the m are is left open.
pub(crate) fn splice(b: &mut [u8], kind: Kind, j: usize, n: usize, m: usize)
    requires { Opens kind j n m b.old }
    ensures { Spliced kind j n m b.old b.new }
{
    let end = number_at(b, 14);
    let size = HeadedBlock { bytes: b }.size(kind);
    shift(b, HEADER + RECORD * (j + n), HEADER + RECORD * (j + m), end);
    resize(b, kind, size + m - n);
}
