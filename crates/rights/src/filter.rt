// The filters of an object: each of them binds.

ghost use Rattle.std.specs.Prelude.{◌<◌, ◌^◌};
ghost use Rattle.index.specs.declared.Kind.TheVariants.{Membership};
ghost use Rattle.index.specs.Letters.{right_count, In, Mask};
ghost use Rattle.index.specs.Block.{IsName, Of};
ghost use Rattle.rights.specs.Held.{Passes};
ghost use Rattle.rights.specs.work.Lookup.{Lets, LetsBy};

use crate::lookup::records_of;
use crate::members::is_member;
use crate::source::Source;
use index::{ALL, Kind, PAIR};

// The rights of the mask that are in the net mask of every F record of a name.
fn narrowed(source: &Source<'_>, name: usize, mask: u8) -> u8
    requires { IsName name × (mask < 2 ^ right_count) }
    ensures { Mask result (λ k. Lets source.now.block.bytes.now name k × In k mask) }
{
    let records = records_of(source, Kind::Filter, name);
    let mut left = mask;
    for i in records.from..records.end {
        left = index::net_of(source.block.bytes, i) & left;
    }
    left
}

// The rights of the mask that the F records of the group of M record i let through: all, if it is no membership.
fn narrowed_by(source: &Source<'_>, i: usize, mask: u8) -> u8
    requires { Of source.now.block.bytes.now Membership i × (mask < 2 ^ right_count) }
    ensures { Mask result (λ k. LetsBy source.now.block.bytes.now i k × In k mask) }
{
    if !is_member(source.block, i) {
        return mask;
    }
    narrowed(source, index::pair_of(source.block.bytes, i) / PAIR, mask)
}

// The rights that are in the net mask of every F record of the object and of each group that it is a member of: all, if there is
// no F record. Once none is left, no more groups are looked at.
pub(crate) fn filter_of(source: &Source<'_>, object: usize) -> u8
    requires { IsName object }
    ensures { Mask result (Passes source.now.block.bytes.now object) }
{
    let mut left = narrowed(source, object, ALL);
    let groups = records_of(source, Kind::Membership, object);
    for i in groups.from..groups.end {
        if left == 0 {
            break;
        }
        left = narrowed_by(source, i, left);
    }
    left
}
