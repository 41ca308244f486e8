// A list of changes is carried out, or nothing of it.

ghost use Rattle.std.specs.Prelude.{◌≡◌, List, [], ◌∷◌, ℕ, ◌+◌, ◌/◌, ◌%◌, ◌≤◌, length};
ghost use Rattle.index.specs.Numbers.{number_of};
ghost use Rattle.index.specs.Message.{Carried, packed, packed_kind, packed_half, packed_change, packed_changes};
ghost use Rattle.index.specs.work.Edits.{Ready, Step, Prepared, Went};
ghost use Rattle.index.specs.work.Halves.{as_half};

use crate::Refusal;
use crate::block::kinds::kind_of;
use crate::messages::edits::{put_in, take_away};
use crate::messages::halves::Half;

// A change as a number.
pub fn pack(adds: bool, kind: u8, key: u16, name: u16, mask: u16) -> u64
    ensures { result ≡ packed adds kind key name mask }
{
    let half = (mask as u64)
        + 65536 * ((name as u64) + 65536 * ((key as u64) + 65536 * (kind as u64)));
    if adds {
        return 1 + 2 * half;
    }
    2 * half
}

// The number of a change's kind.
pub(crate) fn kind_number_in(n: u64) -> u64
    ensures { result ≡ packed_kind n }
{
    n / 2 / 65536 / 65536 / 65536
}

// The half of a change.
pub(crate) fn half_in(n: u64) -> Half
    ensures { as_half result ≡ packed_half n }
{
    let half = n / 2;
    Half {
        kind: kind_of(kind_number_in(n)),
        key: (half / 65536 / 65536 % 65536) as usize,
        id: (half / 65536 % 65536) as usize,
        mask: (half % 65536) as usize,
    }
}

// One change.
fn change(b: &mut [u8], n: u64) -> Result<(), Refusal>
    requires { Ready (packed_half n) b.old }
    ensures { Step (packed_change n) b.old (number_of result) b.new }
{
    let h = half_in(n);
    if n % 2 == 0 {
        return take_away(b, h);
    }
    put_in(b, h)
}

// The change that undoes it.
fn opposite(n: u64) -> u64
    ensures { (result / 2 ≡ n / 2) × (result % 2 + n % 2 ≡ 1) }
{
    if n % 2 == 0 {
        return n + 1;
    }
    n - 1
}

// The changes, which were done one after the other, are undone, the last one first. None of it is refused.
fn undo(b: &mut [u8], done: &[u64])
    requires { Prepared done.now b.old }
    ensures { (b₀ : List ℕ) → Went b₀ done.now (length done.now) b.old → b.new ≡ b₀ }
{
    for i in (0..done.len()).rev() {
        let _ = change(b, opposite(done[i]));
    }
}

// The changes one after the other. The first that is refused refuses them all, and those before it are undone.
pub(crate) fn run(b: &mut [u8], changes: &[u64]) -> Result<(), Refusal>
    requires { Prepared changes.now b.old }
    ensures { Carried b.old (packed_changes changes.now) b.old (number_of result, b.new) }
{
    for i in 0..changes.len() {
        if let Err(refusal) = change(b, changes[i]) {
            undo(b, &changes[..i]);
            return Err(refusal);
        }
    }
    Ok(())
}

// The run of two changes, written out: a plain message has no need of a list in memory.
pub(crate) fn run_both(b: &mut [u8], first: u64, second: u64) -> Result<(), Refusal>
    requires { Prepared (first ∷ second ∷ []) b.old }
    ensures { Carried b.old (packed_changes (first ∷ second ∷ [])) b.old (number_of result, b.new) }
{
    change(b, first)?;
    let last = change(b, second);
    if last.is_err() {
        let _ = change(b, opposite(first));
    }
    last
}
