// A list of changes from a crate above: its tests, and what it does.

ghost use Rattle.index.specs.Numbers.{number_of, Answers, Each};
ghost use Rattle.index.specs.Message.{packed_half, PackedWell, Named, Masked};
ghost use Rattle.index.specs.Calls.{list_needs, CarriesOut};
ghost use Rattle.index.specs.work.Checks.{Says};

use crate::block::checks::tested;
use crate::messages::beginning::is_marked;
use crate::messages::halves::{is_masked, is_named, markers_in};
use crate::messages::run::{half_in, kind_number_in, run};
use crate::{Kind, Refusal};

// The change has a kind, and its markers are those that it may have.
fn is_formed(n: u64) -> bool
    ensures { Says (PackedWell n) result }
{
    let kind = kind_number_in(n);
    if Kind::try_from(kind).is_err() {
        return false;
    }
    is_marked(markers_in(half_in(n)), kind, true)
}

// Its names are below 1024.
fn has_names(n: u64) -> bool
    ensures { Says (Named (packed_half n)) result }
{
    is_named(half_in(n))
}

// Its mask is good.
fn has_mask(n: u64) -> bool
    ensures { Says (Masked (packed_half n)) result }
{
    is_masked(half_in(n))
}

// Each change has a kind and its markers, or names, or a good mask.
fn all_formed(changes: &[u64]) -> bool
    ensures { Says (Each PackedWell changes.now) result }
{
    changes.iter().all(|n| is_formed(*n))
}

fn all_named(changes: &[u64]) -> bool
    ensures { Says (Each (λ n. Named (packed_half n)) changes.now) result }
{
    changes.iter().all(|n| has_names(*n))
}

fn all_masked(changes: &[u64]) -> bool
    ensures { Says (Each (λ n. Masked (packed_half n)) changes.now) result }
{
    changes.iter().all(|n| has_mask(*n))
}

// The tests of the block, and then of the changes.
fn list_refused(block: &[u8], changes: &[u64]) -> Result<(), Refusal>
    ensures { Answers (list_needs block.now changes.now) (number_of result) }
{
    tested(block)?;
    if !all_formed(changes) {
        return Err(Refusal::Form);
    }
    if !all_named(changes) {
        return Err(Refusal::Name);
    }
    if !all_masked(changes) {
        return Err(Refusal::Mask);
    }
    Ok(())
}

// The changes of the list, or nothing of them.
pub fn carry_out(block: &mut [u8], changes: &[u64]) -> Result<(), Refusal>
    ensures { CarriesOut block.old changes.now (number_of result, block.new) }
{
    list_refused(block, changes)?;
    run(block, changes)
}
