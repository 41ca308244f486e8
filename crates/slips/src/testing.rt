// The tests of a slip's numbers.

ghost use Rattle.std.specs.Prelude.{[], ◌∷◌, ◌≤◌};
ghost use Rattle.index.specs.Block.{IsName};
ghost use Rattle.index.specs.Numbers.{number_of, Answers, Each};
ghost use Rattle.index.specs.work.Checks.{Says};
ghost use Rattle.slips.specs.Slip.{most_names};
ghost use Rattle.slips.specs.Calls.{IsChain};
ghost use Rattle.slips.specs.work.Tested.{RightOf};

use crate::CHAIN;
use crate::right::Right;
use index::Refusal;

// The greatest name.
const LAST_NAME: u16 = index::GREATEST_NAME as u16;

// The right that the mask names alone, if it names one.
pub(crate) fn right_of(mask: u64) -> Option<Right>
    ensures { RightOf mask result }
{
    match mask {
        1 => Some(Right { place: 0 }),
        2 => Some(Right { place: 1 }),
        4 => Some(Right { place: 2 }),
        8 => Some(Right { place: 3 }),
        _ => None,
    }
}

// Each number of the list is a name.
fn all_names(names: &[u16]) -> bool
    ensures { Says (Each IsName names.now) result }
{
    names.iter().all(|name| *name <= LAST_NAME)
}

// The list has 1 to 33 names.
fn is_chain(names: &[u16]) -> bool
    ensures { Says (IsChain names.now) result }
{
    !names.is_empty() && names.len() <= CHAIN
}

// 4 for a number on the lists that is no name.
pub(crate) fn names_tested(users: &[u16], objects: &[u16]) -> Result<(), Refusal>
    ensures { Answers ((4, Each IsName users.now × Each IsName objects.now) ∷ []) (number_of result) }
{
    if !all_names(users) {
        return Err(Refusal::Name);
    }
    if !all_names(objects) {
        return Err(Refusal::Name);
    }
    Ok(())
}

// 11 for a list that has not 1 to 33 names.
pub(crate) fn chains_tested(users: &[u16], objects: &[u16]) -> Result<(), Refusal>
    ensures { Answers ((11, IsChain users.now × IsChain objects.now) ∷ []) (number_of result) }
{
    if !is_chain(users) {
        return Err(Refusal::Chain);
    }
    if !is_chain(objects) {
        return Err(Refusal::Chain);
    }
    Ok(())
}

// 10 for a lent list that has fewer than 33 places.
pub(crate) fn places_tested(users: usize, objects: usize) -> Result<(), Refusal>
    ensures { Answers ((10, (most_names ≤ users) × (most_names ≤ objects)) ∷ []) (number_of result) }
{
    if users < CHAIN {
        return Err(Refusal::ShortBuffer);
    }
    if objects < CHAIN {
        return Err(Refusal::ShortBuffer);
    }
    Ok(())
}
