// The question: which of the requested rights does the user hold on the object?

ghost use Rattle.std.specs.Prelude.{◌^◌, ◌≡◌, [], ◌∷◌};
ghost use Rattle.index.specs.Letters.{In, Mask};
ghost use Rattle.index.specs.Numbers.{number_of, Answers};
ghost use Rattle.index.specs.work.Checks.{Says};
ghost use Rattle.rights.specs.Held.{Holds};
ghost use Rattle.plain.specs.Plain.{Small, AsksWithin};

use crate::filters::passes;
use crate::grants::granted;
use crate::groups::is_open;
use crate::right::Right;
use crate::{LIMIT, MOST};
use index::{GoodBlock, Kind, Refusal};

// How many rights there are, and their masks.
const RIGHTS: u8 = index::RIGHTS as u8;

const MASKS: [u8; 4] = [1, 2, 4, 8];

// What is the mask of the right?
fn mask_of(right: Right) -> u8
    ensures { result ≡ 2 ^ right.place }
{
    MASKS[right.place as usize]
}

// Is the right requested?
fn is_requested(request: u8, right: Right) -> bool
    ensures { Says (In right.place request) result }
{
    request / mask_of(right) % 2 == 1
}

// Does the user hold the right on the object? It passes the filters, some P record grants it, and the object is open to her.
fn holds(block: GoodBlock<'_>, user: u16, object: u16, right: Right, limit: u8) -> bool
    ensures { Says (Holds limit block.entry.bytes.now user object right.place) result }
{
    if !passes(block, object, right) {
        return false;
    }
    if !granted(block, user, object, right, limit) {
        return false;
    }
    is_open(block, user, object, limit)
}

// Is the right requested, and does she hold it?
fn is_given(
    block: GoodBlock<'_>,
    user: u16,
    object: u16,
    request: u8,
    right: Right,
    limit: u8,
) -> bool
    ensures { Says (Holds limit block.entry.bytes.now user object right.place × In right.place request) result }
{
    if !is_requested(request, right) {
        return false;
    }
    holds(block, user, object, right, limit)
}

// Which of the requested rights does she hold?
fn held(block: GoodBlock<'_>, user: u16, object: u16, request: u8, limit: u8) -> u8
    ensures { Mask result (λ k. Holds limit block.entry.bytes.now user object k × In k request) }
{
    let mut rights: u8 = 0;
    for place in 0..RIGHTS {
        let right = Right { place };
        if is_given(block, user, object, request, right, limit) {
            rights = rights | mask_of(right);
        }
    }
    rights
}

// The question is not refused with 14 if the limit is 8 or below, and the block has 64 M records or fewer.
fn limit_refusal(block: &[u8], limit: u64) -> Result<(), Refusal>
    ensures { Answers ((14, Small block.now limit) ∷ []) (number_of result) }
{
    if limit > LIMIT {
        return Err(Refusal::TooLarge);
    }
    if index::size_of(block, Kind::Membership) > MOST {
        return Err(Refusal::TooLarge);
    }
    Ok(())
}

// Which of the requested rights does the user hold on the object, with chains of at most `limit` records? Or by which number is the question
// refused: 1, 2, 4 or 5, and then 14?
pub fn rights_within(
    block: &[u8],
    user: u64,
    object: u64,
    request: u64,
    limit: u64,
) -> Result<u8, Refusal>
    ensures { AsksWithin block.now user object request limit result }
{
    rights::ask_refusal(block, user, object, request)?;
    limit_refusal(block, limit)?;
    let block = GoodBlock { bytes: block };
    Ok(held(
        block,
        user as u16,
        object as u16,
        request as u8,
        limit as u8,
    ))
}
