// The two questions, by a directory and without one.

ghost use Rattle.std.specs.Prelude.{◌<◌, ◌≤◌, ◌^◌, ◌≡◌, [], ◌∷◌, ◌++◌, IfOk};
ghost use Rattle.index.specs.Letters.{right_count, In, Mask};
ghost use Rattle.index.specs.Numbers.{number_of, Answers};
ghost use Rattle.index.specs.Block.{IsName};
ghost use Rattle.index.specs.work.Checks.{Says};
ghost use Rattle.index.specs.Calls.{block_needs};
ghost use Rattle.rights.specs.Held.{chain_limit};
ghost use Rattle.rights.specs.Groups.{Open};
ghost use Rattle.rights.specs.work.Marks.{Count};
ghost use Rattle.rights.specs.Profiles.{profile_of};
ghost use Rattle.rights.specs.Through.{through_needs};
ghost use Rattle.rights.specs.Questions.{ask_needs, profile_needs, Limited, HoldsAll, Asks, AsksAll, AsksBy, AsksAllBy};

use crate::filter::filter_of;
use crate::grants::{Reach, granted};
use crate::groups::is_open;
use crate::question::Question;
use crate::source::{Source, alone, with_directory};
use crate::{LIMIT, Profile};
use index::{ALL, Refusal};

// The greatest name, and the greatest request, which is for all four rights.
const LAST_NAME: u64 = index::GREATEST_NAME as u64;

const ALL_RIGHTS: u64 = ALL as u64;

// The numbers of the profiles.
pub(crate) const ORDINARY: u64 = 0;

const STRICT: u64 = 1;

// The profile that a number stands for, or 15.
fn profile_of(n: u64) -> Result<Profile, Refusal>
    ensures number { Answers (profile_needs n) (number_of result) }
    ensures same { IfOk result (λ profile. profile ≡ profile_of n) }
{
    match n {
        ORDINARY => Ok(Profile::Ordinary),
        STRICT => Ok(Profile::Strict),
        _ => Err(Refusal::Profile),
    }
}

// 4 for a name above the greatest.
fn named(user: u64, object: u64) -> Result<(), Refusal>
    ensures { Answers ((4, IsName user × IsName object) ∷ []) (number_of result) }
{
    if user > LAST_NAME {
        return Err(Refusal::Name);
    }
    if object > LAST_NAME {
        return Err(Refusal::Name);
    }
    Ok(())
}

// The block to be asked about the two, after its own tests and that of the names.
pub(crate) fn named_in(block: &[u8], user: u64, object: u64) -> Result<Source<'_>, Refusal>
    ensures number { Answers (through_needs block.now user object) (number_of result) }
    ensures same { IfOk result (λ source. source.block.bytes.now ≡ block.now) }
{
    let source = alone(block)?;
    named(user, object)?;
    Ok(source)
}

// 4 for a name, 5 for the request of a question.
fn requested(user: u64, object: u64, request: u64) -> Result<(), Refusal>
    ensures { Answers (ask_needs user object request) (number_of result) }
{
    named(user, object)?;
    if request == 0 {
        return Err(Refusal::Mask);
    }
    if request > ALL_RIGHTS {
        return Err(Refusal::Mask);
    }
    Ok(())
}

// The first requirement of every question that does not hold: 1 and 2 of the block, 4 of the names, 5 of the request.
pub fn ask_refusal(block: &[u8], user: u64, object: u64, request: u64) -> Result<(), Refusal>
    ensures { Answers (block_needs block.now ++ ask_needs user object request) (number_of result) }
{
    index::tested(block)?;
    requested(user, object, request)
}

// The question, after the tests of the names, the request and, last, the profile.
pub(crate) fn question(
    user: u64,
    object: u64,
    request: u64,
    profile: u64,
) -> Result<Question, Refusal>
    ensures number { Answers (ask_needs user object request ++ profile_needs profile) (number_of result) }
    ensures same { IfOk result (λ q. (q.user ≡ user) × (q.object ≡ object) × (q.request ≡ request) × (q.profile ≡ profile_of profile)) }
{
    requested(user, object, request)?;
    let profile = profile_of(profile)?;
    Ok(Question {
        user: user as usize,
        object: object as usize,
        request: request as u8,
        profile,
    })
}

// The rights, if the object is open to the user, or none. It is looked at only where there are any.
pub(crate) fn opened(
    source: &Source<'_>,
    user: usize,
    object: usize,
    rights: u8,
    limit: usize,
) -> u8
    requires { IsName user × (IsName object × ((rights < 2 ^ right_count) × (limit ≤ chain_limit))) }
    ensures { Mask result (λ k. Open limit source.now.block.bytes.now user object × In k rights) }
{
    if rights == 0 {
        return 0;
    }
    if is_open(source, user, object, limit) {
        return rights;
    }
    0
}

// The rights that the user holds on the object in the profile, with chains of at most `limit` records, limited to those requested; and the
// number of M records that each side examines.
pub(crate) fn within(source: &Source<'_>, question: Question, limit: usize) -> Reach
    requires { limit ≤ chain_limit }
    ensures limited { Limited question.profile limit source.now.block.bytes.now question.user question.object question.request result.rights }
    ensures count { Count source.now.block.bytes.now limit question.user result.user × Count source.now.block.bytes.now limit question.object result.object }
{
    let mut wanted = question;
    wanted.request = filter_of(source, question.object) & question.request;
    let reach = granted(source, wanted, limit);
    Reach {
        rights: opened(source, question.user, question.object, reach.rights, limit),
        ..reach
    }
}

// Every requested right is held, with chains of at most 32 records.
fn holds_all(source: &Source<'_>, question: Question) -> bool
    requires { 1 ≤ question.request }
    ensures { Says (HoldsAll question.profile source.now.block.bytes.now question.user question.object question.request) result }
{
    if filter_of(source, question.object) & question.request != question.request {
        return false;
    }
    if granted(source, question, LIMIT).rights != question.request {
        return false;
    }
    is_open(source, question.user, question.object, LIMIT)
}

// The full question: the limit of its chains is 32.
fn held(
    source: &Source<'_>,
    user: u64,
    object: u64,
    request: u64,
    profile: u64,
) -> Result<Reach, Refusal>
    ensures { Asks source.now.block.bytes.now user object request profile result }
{
    let question = question(user, object, request, profile)?;
    Ok(within(source, question, LIMIT))
}

// The short question.
fn all_held(
    source: &Source<'_>,
    user: u64,
    object: u64,
    request: u64,
    profile: u64,
) -> Result<bool, Refusal>
    ensures { AsksAll source.now.block.bytes.now user object request profile result }
{
    let question = question(user, object, request, profile)?;
    Ok(holds_all(source, question))
}

// The full question: the rights that the user holds on the object, limited to those requested, and the number of M records examined
// on each side.
pub fn rights_of(
    block: &[u8],
    user: u64,
    object: u64,
    request: u64,
    profile: u64,
) -> Result<Reach, Refusal>
    ensures { Asks block.now user object request profile result }
{
    let source = alone(block)?;
    held(&source, user, object, request, profile)
}

// The full question by the block's directory.
pub fn rights_by(
    block: &[u8],
    directory: &[u16],
    user: u64,
    object: u64,
    request: u64,
    profile: u64,
) -> Result<Reach, Refusal>
    ensures { AsksBy block.now directory.now user object request profile result }
{
    let source = with_directory(block, directory)?;
    held(&source, user, object, request, profile)
}

// The short question: whether the user holds every requested right on the object.
pub fn may(
    block: &[u8],
    user: u64,
    object: u64,
    request: u64,
    profile: u64,
) -> Result<bool, Refusal>
    ensures { AsksAll block.now user object request profile result }
{
    let source = alone(block)?;
    all_held(&source, user, object, request, profile)
}

// The short question by the block's directory.
pub fn may_by(
    block: &[u8],
    directory: &[u16],
    user: u64,
    object: u64,
    request: u64,
    profile: u64,
) -> Result<bool, Refusal>
    ensures { AsksAllBy block.now directory.now user object request profile result }
{
    let source = with_directory(block, directory)?;
    all_held(&source, user, object, request, profile)
}
