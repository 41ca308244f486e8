// Whether a record bears on the rights of a user on an object.

ghost use Rattle.std.specs.Prelude.{◌≡◌, ◌⊎◌, IfOk};
ghost use Rattle.index.specs.Numbers.{number_of, Answers};
ghost use Rattle.index.specs.Message.{kind_of};
ghost use Rattle.index.specs.Block.{Sized, Good, IsName};
ghost use Rattle.rights.specs.Held.{Looked};
ghost use Rattle.rights.specs.Near.{Near};
ghost use Rattle.bearing.specs.Bearing.{Bears, record_needs, AsksBearing};
ghost use Rattle.bearing.specs.work.Telling.{Tells};

use index::{Kind, Refusal};

// The greatest name.
const LAST_NAME: u64 = index::GREATEST_NAME as u64;

// A chain to the key or the id of a P record has at most so many records.
const LIMIT: u64 = rights::LIMIT as u64;

// One to the key of an M record has one fewer, since the record itself is the next of the chain.
const BEFORE_LAST: u64 = LIMIT - 1;

// The groups that the M records of an object name are reached by one record, and the object itself by none.
const OWN_GROUPS: u64 = 1;

// The kind of a record, which has to be one, and whose names are none above the greatest.
fn record_kind(user: u64, object: u64, kind: u64, key: u64, id: u64) -> Result<Kind, Refusal>
    ensures number { Answers (record_needs user object kind key id) (number_of result) }
    ensures same { IfOk result (λ k. k ≡ kind_of kind) }
{
    let kind = Kind::try_from(kind)?;
    if user > LAST_NAME || object > LAST_NAME || key > LAST_NAME || id > LAST_NAME {
        return Err(Refusal::Name);
    }
    Ok(kind)
}

// A question that is in order: whether the record of the kind with the key and the id bears on the rights of the user on the object in the block.
#[derive(Clone, Copy)]
struct Asked<'a> {
    block: &'a [u8],
    user: u64,
    object: u64,
    kind: Kind,
    key: u64,
    id: u64,
    ghost user_named: { IsName user },
    ghost object_named: { IsName object },
    ghost key_named: { IsName key },
    ghost id_named: { IsName id },
}

impl Asked<'_> {
    // An M record with the key bears: the key is reached from the user or from the object.
    fn membership_bears(self) -> Result<bool, Refusal>
        ensures { Tells self.entry.block.now
            (Near 31 self.entry.block.now self.entry.user self.entry.key ⊎ Near 31 self.entry.block.now self.entry.object self.entry.key)
            result }
    {
        if rights::is_near(self.block, self.user, self.key, BEFORE_LAST)? {
            return Ok(true);
        }
        rights::is_near(self.block, self.object, self.key, BEFORE_LAST)
    }

    // What is granted on the key counts for the object: the key is 0, or it is reached from the object.
    fn counts_for(self) -> Result<bool, Refusal>
        requires { Sized self.block.now × Good self.block.now }
        ensures { Tells self.entry.block.now (Near 32 self.entry.block.now self.entry.object self.entry.key ⊎ (self.entry.key ≡ 0)) result }
    {
        if self.key == 0 {
            return Ok(true);
        }
        rights::is_near(self.block, self.object, self.key, LIMIT)
    }

    // A P record with the key and the id bears: the id is reached from the user, and the key counts for the object.
    fn permission_bears(self) -> Result<bool, Refusal>
        ensures { Tells self.entry.block.now
            ((Near 32 self.entry.block.now self.entry.object self.entry.key ⊎ (self.entry.key ≡ 0))
            × Near 32 self.entry.block.now self.entry.user self.entry.id)
            result }
    {
        if rights::is_near(self.block, self.user, self.id, LIMIT)? {
            return self.counts_for();
        }
        Ok(false)
    }

    // An F record with the key bears: the key is the object, or a group that its M records name.
    fn filter_bears(self) -> Result<bool, Refusal>
        ensures { Tells self.entry.block.now (Looked self.entry.block.now self.entry.object self.entry.key) result }
    {
        rights::is_near(self.block, self.object, self.key, OWN_GROUPS)
    }

    // The record of the kind with the key and the id bears, if the block is not refused.
    fn record_bears(self) -> Result<bool, Refusal>
        ensures { Tells self.entry.block.now
            (Bears self.entry.block.now self.entry.user self.entry.object self.entry.kind self.entry.key self.entry.id)
            result }
    {
        match self.kind {
            Kind::Membership => self.membership_bears(),
            Kind::Permission => self.permission_bears(),
            Kind::Filter => self.filter_bears(),
        }
    }
}

// Whether the record of the kind with the key and the id, which need not be in the block, bears on the rights of the user on the object. Where it does
// not, no change of it changes an answer about the two. Where the record is not refused, the block is tested by what is asked of it first.
pub fn bears(
    block: &[u8],
    user: u64,
    object: u64,
    kind: u64,
    key: u64,
    id: u64,
) -> Result<bool, Refusal>
    ensures { AsksBearing block.now user object kind key id result }
{
    match record_kind(user, object, kind, key, id) {
        Ok(kind) => Asked {
            block,
            user,
            object,
            kind,
            key,
            id,
        }
        .record_bears(),
        Err(refusal) => {
            index::tested(block)?;
            Err(refusal)
        }
    }
}
