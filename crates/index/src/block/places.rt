// Where the records are.

ghost use Rattle.std.specs.Prelude.{◌≡◌, ◌+◌, ◌*◌, ◌<◌};
ghost use Rattle.index.specs.Block.{name_count, IsName, from, size};
ghost use Rattle.index.specs.work.Bytes.{Num};
ghost use Rattle.index.specs.work.Edits.{Lowest, Finds};

use crate::block::good::GoodBlock;
use crate::block::headed::HeadedBlock;
use crate::block::numbers::number_at;
use crate::block::record::Record;
use crate::{Kind, NAMES};

impl HeadedBlock<'_> {
    // How many records of the kind there are.
    pub(crate) fn size(self, kind: Kind) -> usize
        ensures { Num (size self.entry.bytes.now kind) result }
    {
        match kind {
            Kind::Membership => number_at(self.bytes, 0),
            Kind::Permission => number_at(self.bytes, 2),
            Kind::Filter => number_at(self.bytes, 4),
        }
    }

    // The number of the kind's first record.
    pub(crate) fn first(self, kind: Kind) -> usize
        ensures { (result ≡ from self.entry.bytes.now kind) × (result < 131072) }
    {
        match kind {
            Kind::Membership => 0,
            Kind::Permission => number_at(self.bytes, 0),
            Kind::Filter => number_at(self.bytes, 0) + number_at(self.bytes, 2),
        }
    }

    // The number of the record after the kind's last one.
    pub(crate) fn end(self, kind: Kind) -> usize
        ensures { (result ≡ from self.entry.bytes.now kind + size self.entry.bytes.now kind) × (result < 196608) }
    {
        self.first(kind) + self.size(kind)
    }
}

impl GoodBlock<'_> {
    // The number of the kind's first record whose key and id are `want` or more, or of the end of its part.
    pub(crate) fn place_of(self, kind: Kind, want: usize) -> usize
        ensures { Lowest self.entry.bytes.now kind want result }
    {
        let b = self.bytes;
        let header = HeadedBlock { bytes: b };
        let mut lo = header.first(kind);
        let mut hi = header.end(kind);
        while lo < hi {
            let mid = lo + (hi - lo) / 2;
            let middle = Record { block: b, i: mid };
            if middle.spot() < want {
                lo = mid + 1;
            } else {
                hi = mid;
            }
        }
        lo
    }

    // The number of the record after those of the kind with this key, of which `first` is the first, or would be. It goes through them, since
    // they are seldom many.
    pub(crate) fn end_of(self, kind: Kind, key: usize, first: usize) -> usize
        requires { Lowest self.bytes.now kind (name_count * key) first }
        ensures { Lowest self.entry.bytes.now kind (name_count * (key + 1)) result }
    {
        let b = self.bytes;
        let last = HeadedBlock { bytes: b }.end(kind);
        for i in first..last {
            let record = Record { block: b, i };
            if record.key() != key {
                return i;
            }
        }
        last
    }

    // The number of the record of this kind, key and id, or, as an `Err`, the number that it would be inserted as.
    pub(crate) fn find(self, kind: Kind, x: usize, y: usize) -> Result<usize, usize>
        requires { IsName x × IsName y }
        ensures { Finds self.entry.bytes.now kind x y result }
    {
        let b = self.bytes;
        let want = NAMES * x + y;
        let i = self.place_of(kind, want);
        let end = HeadedBlock { bytes: b }.end(kind);
        if end <= i {
            return Err(i);
        }
        let record = Record { block: b, i };
        if record.spot() == want { Ok(i) } else { Err(i) }
    }
}
