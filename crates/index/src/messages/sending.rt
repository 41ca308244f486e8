// A message of either form to a block: its tests, and what it does.

ghost use Rattle.std.specs.Prelude.{◌++◌};
ghost use Rattle.index.specs.Numbers.{number_of, Answers, Each};
ghost use Rattle.index.specs.Message.{Named, Masked, changes, Carried};
ghost use Rattle.index.specs.Wide.{Sent, halves_of, previous_of, new_of, FormedOf};
ghost use Rattle.index.specs.Calls.{sent_needs, Sends};
ghost use Rattle.index.specs.work.Checks.{Says};
ghost use Rattle.index.specs.work.Edits.{Tested};
ghost use Rattle.index.specs.work.Halves.{half_number};

use crate::Refusal;
use crate::block::checks::tested;
use crate::messages::beginning::Which;

// A message of some form: what is tested of it, and how it is carried out.
pub(crate) trait Message {
    ghost sent: { Self → Sent };

    // Its length, its header, its markers and its halves are right.
    fn is_formed(&self) -> bool
        ensures { Says (FormedOf (sent self.now)) result };

    // The half has its names below 1024, if it is there.
    fn is_named(&self, h: Which) -> bool
        requires { FormedOf (sent self.now) }
        ensures { Says (Each Named (halves_of (sent self.now) (half_number h))) result };

    // The half has a good mask, if it is there.
    fn is_masked(&self, h: Which) -> bool
        requires { FormedOf (sent self.now) }
        ensures { Says (Each Masked (halves_of (sent self.now) (half_number h))) result };

    // Its halves are carried out, once the tests have passed.
    fn carry(&self, b: &mut [u8]) -> Result<(), Refusal>
        requires { Tested b.old (sent self.now) }
        ensures { Carried b.old (changes (previous_of (sent self.now)) (new_of (sent self.now))) b.old (number_of result, b.new) };
}

// Each half that is there has its names below 1024.
fn named<M: Message>(m: &M) -> bool
    requires { FormedOf (M.sent m.now) }
    ensures { Says (Each Named (previous_of (M.sent m.now) ++ new_of (M.sent m.now))) result }
{
    if !m.is_named(Which::Previous) {
        return false;
    }
    m.is_named(Which::New)
}

// Each half that is there has a good mask.
fn masked<M: Message>(m: &M) -> bool
    requires { FormedOf (M.sent m.now) }
    ensures { Says (Each Masked (previous_of (M.sent m.now) ++ new_of (M.sent m.now))) result }
{
    if !m.is_masked(Which::Previous) {
        return false;
    }
    m.is_masked(Which::New)
}

// The tests of the block, and then of the message.
fn refused<M: Message>(b: &[u8], m: &M) -> Result<(), Refusal>
    ensures { Answers (sent_needs b.now (M.sent m.now)) (number_of result) }
{
    tested(b)?;
    if !m.is_formed() {
        return Err(Refusal::Form);
    }
    if !named(m) {
        return Err(Refusal::Name);
    }
    if !masked(m) {
        return Err(Refusal::Mask);
    }
    Ok(())
}

// The message to the block.
pub(crate) fn send<M: Message>(block: &mut [u8], m: &M) -> Result<(), Refusal>
    ensures { Sends block.old (M.sent m.now) (number_of result, block.new) }
{
    refused(block, m)?;
    m.carry(block)
}
