// The walk of one side for one right.

ghost use Rattle.std.specs.Prelude.{◌≡◌, ℕ, ◌+◌, ◌<◌, ◌≤◌, length, get_or, replicate};
ghost use Rattle.index.specs.declared.Kind.TheVariants.{Membership};
ghost use Rattle.index.specs.Block.{name_count, IsName, Of, key};
ghost use Rattle.rights.specs.Held.{chain_limit};
ghost use Rattle.slips.specs.Slip.{most_names};
ghost use Rattle.slips.specs.work.Trails.{far, at, Listed, Longer, Trails, Begins, Walk, Backs, Traced};

use crate::records::has_right;
use crate::right::Right;
use index::{GoodBlock, Kind, NAMES, PAIR};
use rights::LIMIT;

// Stands for the steps to a name that no chain leads to.
pub(crate) const FAR: u8 = 2 * LIMIT as u8 + 1;

// What the walk finds of each name: how many records the shortest chain from the start to it has, and the name before it on that chain.
#[derive(Drop)]
pub(crate) struct Trail {
    pub steps: [u8; NAMES],
    pub before: [u16; NAMES],
}

// The names that are reached, in the order in which they are: the first `len` of the list.
#[derive(Drop)]
struct Reached {
    names: [u16; NAMES],
    len: usize,
}

impl Trail {
    // M record i, of a name that is n steps away: if it carries the right and its id is not reached yet, then its id is reached by one step more, and put
    // behind the names that are.
    fn look(&mut self, block: GoodBlock<'_>, right: Right, n: u8, i: usize, reached: &mut Reached)
        requires of { (n < chain_limit) × Of block.bytes.now Membership i }
        requires listed { Listed self.old.steps reached.old.names reached.old.len }
        ensures listed_2 { Listed self.new.steps reached.new.names reached.new.len × Longer reached.old.names reached.old.len reached.new.names reached.new.len }
        ensures trails { (start lo hi p : ℕ) → key block.entry.bytes.now i ≡ get_or reached.old.names p 0 → lo ≤ p → p < hi → Trails block.entry.bytes.now right.place start n lo hi p i self.old.steps self.old.before reached.old.names reached.old.len → Trails block.entry.bytes.now right.place start n lo hi p (i + 1) self.new.steps self.new.before reached.new.names reached.new.len }
    {
        let pair = index::pair_of(block.bytes, i);
        let x = pair % PAIR;
        let y = pair / PAIR;
        if self.steps[y] != FAR {
            return;
        }
        if !has_right(block, i, right) {
            return;
        }
        self.steps[y] = n + 1;
        self.before[y] = x as u16;
        reached.names[reached.len] = y as u16;
        reached.len += 1;
    }

    // The M records of the name at place p of the list, from their first on.
    fn spread(
        &mut self,
        block: GoodBlock<'_>,
        right: Right,
        n: u8,
        p: usize,
        firsts: &[u16; NAMES],
        reached: &mut Reached,
    )
        requires begins { (n < chain_limit) × (Begins block.bytes.now firsts.now 0 × (p < reached.old.len)) }
        requires listed { Listed self.old.steps reached.old.names reached.old.len }
        ensures listed_2 { Listed self.new.steps reached.new.names reached.new.len × (reached.old.len ≤ reached.new.len) }
        ensures by_index { (start lo hi : ℕ) → lo ≤ p → p < hi → Trails block.entry.bytes.now right.place start n lo hi p 0 self.old.steps self.old.before reached.old.names reached.old.len → Trails block.entry.bytes.now right.place start n lo hi (p + 1) 0 self.new.steps self.new.before reached.new.names reached.new.len }
    {
        let end = index::size_of(block.bytes, Kind::Membership) as usize;
        let x = reached.names[p] as usize;
        for i in firsts[x] as usize..end {
            if index::pair_of(block.bytes, i) % PAIR != x {
                break;
            }
            self.look(block, right, n, i, reached);
        }
    }

    // The round of the names that are n steps away, which stand in the list from `lo` up to `hi`.
    fn round(
        &mut self,
        block: GoodBlock<'_>,
        right: Right,
        n: u8,
        lo: usize,
        hi: usize,
        firsts: &[u16; NAMES],
        reached: &mut Reached,
    )
        requires begins { (n < chain_limit) × (Begins block.bytes.now firsts.now 0 × (lo ≤ hi)) }
        requires listed { Listed self.old.steps reached.old.names reached.old.len × (reached.old.len ≡ hi) }
        ensures listed_2 { Listed self.new.steps reached.new.names reached.new.len × (hi ≤ reached.new.len) }
        ensures by_index { (start : ℕ) → Trails block.entry.bytes.now right.place start n lo hi lo 0 self.old.steps self.old.before reached.old.names hi → Trails block.entry.bytes.now right.place start n lo hi hi 0 self.new.steps self.new.before reached.new.names reached.new.len }
    {
        for p in lo..hi {
            self.spread(block, right, n, p, firsts, reached);
        }
    }

    // The walk from the start, over names of which none is reached yet: a round for each step, as long as names come.
    pub(crate) fn walk(
        &mut self,
        block: GoodBlock<'_>,
        right: Right,
        start: usize,
        firsts: &[u16; NAMES],
    )
        requires begins { IsName start × Begins block.bytes.now firsts.now 0 }
        requires steps_value { (self.old.steps ≡ replicate name_count far) × (length self.old.before ≡ name_count) }
        ensures { Walk block.entry.bytes.now right.place start self.new.steps self.new.before }
    {
        let mut reached = Reached {
            names: [0; NAMES],
            len: 1,
        };
        self.steps[start] = 0;
        reached.names[0] = start as u16;
        let mut lo = 0;
        for n in 0..LIMIT as u8 {
            let hi = reached.len;
            self.round(block, right, n, lo, hi, firsts, &mut reached);
            if reached.len == hi {
                break;
            }
            lo = hi;
        }
    }

    // The names on the chain to a name that is reached are written, from the last to the first. The result is how many they are.
    pub(crate) fn trace(&self, to: usize, names: &mut [u16]) -> u8
        requires { Backs self.now.steps self.now.before × (IsName to × ((at self.now.steps to ≤ chain_limit) × (most_names ≤ length names.old))) }
        ensures { Traced self.now.steps self.now.before to 0 names.old names.new × (result ≡ at self.now.steps to + 1) }
    {
        let last = self.steps[to];
        let mut x = to as u16;
        names[last as usize] = x;
        for n in (0..last as usize).rev() {
            x = self.before[x as usize];
            names[n] = x;
        }
        last + 1
    }
}
