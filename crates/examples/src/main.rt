// The examples of the rules that are run: each line says what was asked, and what came back.
#![tactic(auto)]

ghost use Rattle.std.specs.Prelude.{◌<◌};

use index::{GREATEST, HEADER, RECORD, Refusal};
use std::io;

// The numbers of the two profiles.
const ORDINARY: u64 = 0;

const STRICT: u64 = 1;

// One line: the words, and a number.
fn say(rt: &impl Print, words: &str, n: u64) -> io::Result<()> {
    println!(rt; "{words}{n}")
}

// A line of words alone.
fn tell(rt: &impl Print, words: &str) -> io::Result<()> {
    println!(rt; "{words}")
}

// A half: key and id, low byte first, and mask.
fn half(key: u16, id: u16, mask: u8) -> [u8; 5] {
    let [key_low, key_high] = key.to_le_bytes();
    let [id_low, id_high] = id.to_le_bytes();
    [key_low, key_high, id_low, id_high, mask]
}

// The number of an answer: 0 where the call is accepted.
fn number_of(answer: Result<(), Refusal>) -> u64 {
    match answer {
        Ok(()) => 0,
        Err(refusal) => refusal.number() as u64,
    }
}

// A new half alone goes to the block: the number.
fn give(block: &mut [u8], kind: u8, key: u16, id: u16, mask: u8) -> u64 {
    let h = half(key, id, mask);
    let message = [kind, 2, 0, 0, 0, 0, 0, h[0], h[1], h[2], h[3], h[4]];
    number_of(index::message(block, &message))
}

// A previous half alone goes to the block: the number.
fn withdraw(block: &mut [u8], kind: u8, key: u16, id: u16, mask: u8) -> u64 {
    let h = half(key, id, mask);
    let message = [kind, 1, h[0], h[1], h[2], h[3], h[4], 0, 0, 0, 0, 0];
    number_of(index::message(block, &message))
}

// The rights of the user on the object in the profile, all four asked for; 100 and the number for a refusal.
fn held(block: &[u8], user: u64, object: u64, profile: u64) -> u64 {
    match rights::rights_of(block, user, object, 15, profile) {
        Ok(reach) => reach.rights as u64,
        Err(refusal) => 100 + refusal.number() as u64,
    }
}

// In the ordinary profile, and in the strict one.
fn full(block: &[u8], user: u64, object: u64) -> u64 {
    held(block, user, object, ORDINARY)
}

fn strict(block: &[u8], user: u64, object: u64) -> u64 {
    held(block, user, object, STRICT)
}

// How many M records a question examines on both sides together; 0 for a refusal.
fn examined(block: &[u8], user: u64, object: u64) -> u64 {
    match rights::rights_of(block, user, object, 15, ORDINARY) {
        Ok(reach) => reach.user as u64 + reach.object as u64,
        Err(_) => 0,
    }
}

// 1 for yes and 0 for no, in the profile; 100 and the number for a refusal.
fn short_in(block: &[u8], user: u64, object: u64, request: u64, profile: u64) -> u64 {
    match rights::may(block, user, object, request, profile) {
        Ok(yes) => yes as u64,
        Err(refusal) => 100 + refusal.number() as u64,
    }
}

// In the ordinary profile.
fn short(block: &[u8], user: u64, object: u64, request: u64) -> u64 {
    short_in(block, user, object, request, ORDINARY)
}

// How often the first record of the block counts U, and whether 1 may update 9.
fn planner(rt: &impl Print, block: &[u8]) -> io::Result<()> {
    say(
        rt,
        "  appointments counted: ",
        index::count_of(block, 0, 2) as u64,
    )?;
    say(rt, "  may update: ", short(block, 1, 9, 4))
}

// The mill's own case, in a block with room for one record.
fn mill(rt: &impl Print) -> io::Result<()> {
    let mut block = [0u8; HEADER + RECORD];
    let _ = index::make(&mut block);
    tell(
        rt,
        "two appointments give the planner, 1, the right to update the request, 9",
    )?;
    give(&mut block, 2, 9, 1, 4);
    give(&mut block, 2, 9, 1, 4);
    planner(rt, &block)?;
    tell(rt, "the first ends")?;
    withdraw(&mut block, 2, 9, 1, 4);
    planner(rt, &block)?;
    tell(rt, "the second ends")?;
    withdraw(&mut block, 2, 9, 1, 4);
    planner(rt, &block)
}

// So many M records in a chain from 100 on, each with R.
fn chain(block: &mut [u8], long: u16)
    requires { long < 900 }
{
    for n in 0..long {
        give(block, 1, 100 + n, 101 + n, 2);
    }
}

// A chain of M records on the user's side and then on the object's: what it carries.
fn chains(rt: &impl Print, long: u16) -> io::Result<()>
    requires { long < 900 }
{
    let mut block = [0u8; HEADER + 50 * RECORD];
    let _ = index::make(&mut block);
    chain(&mut block, long);
    let mut other = block;
    let last = 100 + long;
    give(&mut block, 2, 9, last, 2);
    give(&mut other, 2, last, 9, 2);
    say(rt, "chain of ", long as u64)?;
    say(rt, "  user's side: ", full(&block, 100, 9))?;
    say(rt, "  object's side: ", full(&other, 9, 100))?;
    say(rt, "  may read: ", short(&block, 100, 9, 2))?;
    say(rt, "  memberships examined: ", examined(&block, 100, 9))
}

// A denial at the end of a chain of M records on the user's side and then on the object's: whether it bars in the strict profile.
fn far_denials(rt: &impl Print, long: u16) -> io::Result<()>
    requires { long < 900 }
{
    let mut block = [0u8; HEADER + 50 * RECORD];
    let _ = index::make(&mut block);
    chain(&mut block, long);
    let mut other = block;
    let last = 100 + long;
    give(&mut block, 2, 9, 100, 2);
    give(&mut block, 2, 9, last, 32);
    give(&mut other, 2, 100, 9, 2);
    give(&mut other, 2, last, 9, 32);
    say(rt, "denied at the end of a chain of ", long as u64)?;
    say(rt, "  user's side: ", full(&block, 100, 9))?;
    say(rt, "    strict: ", strict(&block, 100, 9))?;
    say(rt, "  object's side: ", full(&other, 9, 100))?;
    say(rt, "    strict: ", strict(&other, 9, 100))
}

// Blocks at the ends of the range of lengths.
fn lengths(rt: &impl Print) -> io::Result<()> {
    let mut short_block = [7u8; HEADER - 1];
    let mut long_block = [7u8; GREATEST + 1];
    let mut least = [7u8; HEADER];
    let mut greatest = [7u8; GREATEST];
    say(
        rt,
        "make, 15 bytes: ",
        number_of(index::make(&mut short_block)),
    )?;
    say(
        rt,
        "make, 49,169 bytes: ",
        number_of(index::make(&mut long_block)),
    )?;
    say(
        rt,
        "message, 49,169 bytes: ",
        give(&mut long_block, 2, 9, 1, 2),
    )?;
    say(rt, "make, 16 bytes: ", number_of(index::make(&mut least)))?;
    say(rt, "  good: ", number_of(index::tested(&least)))?;
    say(rt, "  a record: ", give(&mut least, 2, 9, 1, 2))?;
    say(
        rt,
        "make, 49,168 bytes: ",
        number_of(index::make(&mut greatest)),
    )?;
    say(rt, "  a record: ", give(&mut greatest, 2, 9, 1, 2))
}

// Name 0 on either side, and numbers that would narrow to it.
fn zero(rt: &impl Print) -> io::Result<()> {
    let mut block = [0u8; HEADER + 10 * RECORD];
    let _ = index::make(&mut block);
    give(&mut block, 1, 1, 1, 2);
    give(&mut block, 2, 0, 1, 2);
    give(&mut block, 1, 0, 5, 15);
    give(&mut block, 2, 5, 1, 8);
    say(rt, "name 0, any object: ", full(&block, 1, 700))?;
    say(
        rt,
        "name 0, object 0, whose group is 5: ",
        full(&block, 1, 0),
    )?;
    say(rt, "user 65,537: ", full(&block, 65537, 9))?;
    say(rt, "object 1,024: ", full(&block, 1, 1024))?;
    say(rt, "request 0: ", short(&block, 1, 9, 0))?;
    say(rt, "request 16: ", short(&block, 1, 9, 16))
}

// Filters on an object and on its groups, one after the other: each binds.
fn filters(rt: &impl Print) -> io::Result<()> {
    let mut block = [0u8; HEADER + 10 * RECORD];
    let _ = index::make(&mut block);
    give(&mut block, 2, 9, 1, 15);
    give(&mut block, 1, 9, 3, 1);
    give(&mut block, 1, 9, 12, 8);
    say(rt, "no filter: ", full(&block, 1, 9))?;
    give(&mut block, 3, 3, 20, 14);
    say(rt, "a filter on a group: ", full(&block, 1, 9))?;
    give(&mut block, 3, 3, 21, 7);
    say(rt, "a second on that group: ", full(&block, 1, 9))?;
    give(&mut block, 3, 12, 20, 11);
    say(rt, "one on another group: ", full(&block, 1, 9))?;
    give(&mut block, 3, 9, 20, 5);
    say(rt, "one on the object: ", full(&block, 1, 9))?;
    withdraw(&mut block, 3, 12, 20, 11);
    say(rt, "without that on the other group: ", full(&block, 1, 9))?;
    withdraw(&mut block, 1, 9, 3, 1);
    say(rt, "out of the first group: ", full(&block, 1, 9))?;
    give(&mut block, 3, 0, 20, 8);
    say(rt, "one on name 0: ", full(&block, 1, 9))
}

// The rights of 1 on 9 in both profiles, with the words before them.
fn both(rt: &impl Print, words: &str, block: &[u8]) -> io::Result<()> {
    let held = full(block, 1, 9);
    let held_strict = strict(block, 1, 9);
    println!(rt; "{words}{held}, strict: {held_strict}")
}

// Denials, one after the other: 1 is in the group 2, and 9 in the group 7, each for R alone.
fn denials(rt: &impl Print) -> io::Result<()> {
    let mut block = [0u8; HEADER + 10 * RECORD];
    let _ = index::make(&mut block);
    give(&mut block, 2, 9, 1, 15);
    give(&mut block, 1, 1, 2, 2);
    give(&mut block, 1, 9, 7, 2);
    both(rt, "no denial: ", &block)?;
    give(&mut block, 2, 7, 1, 32);
    both(rt, "read denied on the object's group: ", &block)?;
    give(&mut block, 2, 7, 1, 66);
    both(
        rt,
        "granted there too, and update denied, which it is not reached for: ",
        &block,
    )?;
    withdraw(&mut block, 2, 7, 1, 32);
    both(rt, "read no longer denied: ", &block)?;
    give(&mut block, 2, 9, 1, 128);
    both(rt, "delete denied in the record that grants: ", &block)?;
    give(&mut block, 2, 0, 1, 16);
    both(rt, "create denied on name 0: ", &block)?;
    say(rt, "profile 2: ", held(&block, 1, 9, 2))?;
    say(
        rt,
        "profile 4,294,967,297: ",
        held(&block, 1, 9, 4294967297),
    )?;
    say(rt, "user 1,024, profile 2: ", held(&block, 1024, 9, 2))?;
    say(rt, "request 0, profile 2: ", short_in(&block, 1, 9, 0, 2))
}

fn main(rt: HostRuntime) -> io::Result<()> {
    mill(&rt)?;
    chains(&rt, 31)?;
    chains(&rt, 32)?;
    chains(&rt, 33)?;
    chains(&rt, 40)?;
    far_denials(&rt, 32)?;
    far_denials(&rt, 33)?;
    lengths(&rt)?;
    zero(&rt)?;
    filters(&rt)?;
    denials(&rt)
}
