// standing: reads messages of 12 bytes from standard input into an empty block, says which were refused, then prints
// every set that is not empty.
#![tactic(auto)]

ghost use Rattle.std.specs.Prelude.{◌≡◌, ◌++◌, ℕ, ◌+◌, ◌<◌, ◌≤◌, length, take, IfOk, OnOk, OnErr};
ghost use Rattle.std.specs.Io.KnownBytes.{Consumes, Appends, IsAtEnd};
ghost use Rattle.index.specs.Block.{IsName, name_count, greatest_length};
ghost use Rattle.index.specs.Message.{kind_number};
ghost use Rattle.index.specs.Numbers.{number_of};
ghost use Rattle.index.specs.Text.{decimal, text_of, set_of};
ghost use Rattle.index.specs.work.Longest.{longest_text};
ghost use Rattle.index.specs.work.Written.{Puts};
ghost use Rattle.index.specs.Message.{message_length};
ghost use Rattle.standing.specs.Printed.{kind_letter, refusal_line, set_line, set_lines, block_lines, line_with};
ghost use Rattle.standing.specs.Promised.{Front, Taken, Came, Broken, Feeds, LedTo, Halted, Ran};
ghost use Rattle.standing.specs.work.Room.{Usable, line_room, longest_sets};

use index::{GREATEST, Kind, MESSAGE, MOST_LETTERS, NAMES, ROOM, Refusal};
use std::io;
use std::io::{Read, Write};

// Messages are counted to this number.
const LAST: u64 = 18446744073709551615;

// Room for the line of a refused message.
const LINE: usize = 64;

// How many digits an id, a key or a count has at most.
const DIGITS: usize = 5;

// Room for the text of a record: its id, `;`, each letter with its count, and the `;` before the next.
const RECORD_TEXT: usize = DIGITS + 1 + (1 + DIGITS) * MOST_LETTERS + 1;

// Room for the text of a set.
const TEXT: usize = RECORD_TEXT * ROOM;

// Room for the lines of all sets: for each record a letter, a key, a space, its text and a newline.
const SETS: usize = (1 + DIGITS + 1 + RECORD_TEXT + 1) * ROOM;

// ---- writing: each function writes at `at`, and says where that ends

fn put_decimal(out: &mut [u8], at: usize, n: u64) -> usize
    requires { at + length (decimal n) ≤ length out.old }
    ensures { Puts at (decimal n) out.old result out.new }
{
    if n < 10 {
        out[at] = b'0' + n as u8;
        return at + 1;
    }
    let end = put_decimal(out, at, n / 10);
    out[end] = b'0' + (n % 10) as u8;
    end + 1
}

fn put_bytes(out: &mut [u8], at: usize, bytes: &[u8]) -> usize
    requires { at + length bytes.now ≤ length out.old }
    ensures { Puts at bytes.now out.old result out.new }
{
    let end = at + bytes.len();
    out[at..end].copy_from_slice(bytes);
    end
}

// The bytes, and n after them.
fn put_numbered(out: &mut [u8], at: usize, bytes: &[u8], n: u64) -> usize
    requires { at + length (bytes.now ++ decimal n) ≤ length out.old }
    ensures { Puts at (bytes.now ++ decimal n) out.old result out.new }
{
    let end = put_bytes(out, at, bytes);
    put_decimal(out, end, n)
}

// ---- messages

// Writes the line of message n, if it was refused, and says how long it is.
fn put_refusal(out: &mut [u8], n: u64, answer: Result<(), Refusal>) -> usize
    requires { line_room ≤ length out.old }
    ensures { Front (refusal_line n (number_of answer)) out.new result }
{
    let Err(refusal) = answer else {
        return 0;
    };
    let number = put_numbered(out, 0, b"message ", n);
    let end = put_numbered(out, number, b" refused ", refusal.number() as u64);
    put_bytes(out, end, b"\n")
}

// Takes message n in, and writes its line.
fn take_in(block: &mut [u8], message: &[u8], n: u64, line: &mut [u8]) -> usize
    requires { Usable block.old × (line_room ≤ length line.old) }
    ensures { Taken block.old n message.now line.new result block.new }
{
    put_refusal(line, n, index::message(block, message))
}

// ---- input

// Reads until the buffer is full or the input ends, and says how many bytes stand at its front then.
fn read_full<R: Read>(input: &mut R, buffer: &mut [u8]) -> io::Result<usize>
    ensures within { IfOk result (λ got. got ≤ length buffer.new) }
    ensures bytes { IfOk result (λ got. Consumes (R.remaining input.old) (R.remaining input.new) (take got buffer.new)) }
    ensures end { IfOk result (λ got. got < length buffer.new → IsAtEnd (R.remaining input.new)) }
{
    let mut got = 0;
    while got < buffer.len() {
        let more = input.read(&mut buffer[got..])?;
        if more == 0 {
            return Ok(got);
        }
        got += more;
    }
    Ok(got)
}

// What came of reading one message: it was whole, and there may be more; it was a short last piece; or the input had
// ended.
#[derive(Clone, Copy)]
enum Input {
    More,
    Last,
    Ended,
}

// Reads message n, takes it in and writes its line out.
fn feed_one<R: Read, W: Write>(
    input: &mut R,
    output: &mut W,
    block: &mut [u8],
    n: u64,
    message: &mut [u8],
    line: &mut [u8],
) -> io::Result<Input>
    requires { Usable block.old × (length message.old ≡ message_length) × (line_room ≤ length line.old) }
    ensures came { IfOk result (λ came. Came (R.remaining input.old, W.contents output.old)
        (R.remaining input.new, W.contents output.new) block.old n came message.new line.new block.new) }
    ensures broken { OnErr result (Broken block.old n message.new line.new block.new) }
{
    let got = read_full(input, message)?;
    if got == 0 {
        return Ok(Input::Ended);
    }
    let long = take_in(block, &message[..got], n, line);
    output.write_all(&line[..long])?;
    if got < MESSAGE {
        return Ok(Input::Last);
    }
    Ok(Input::More)
}

// Reads messages to the end of the input, counted from 1.
fn feed<R: Read, W: Write>(input: &mut R, output: &mut W, block: &mut [u8]) -> io::Result<()>
    requires { Usable block.old }
    ensures fed { OnOk result (Feeds (R.remaining input.old, W.contents output.old)
        (R.remaining input.new, W.contents output.new) block.old 1 block.new) }
    ensures stopped { OnErr result (LedTo block.old 1 block.new) }
{
    let mut message = [0u8; MESSAGE];
    let mut line = [0u8; LINE];
    for n in 1..LAST {
        match feed_one(input, output, block, n, &mut message, &mut line)? {
            Input::More => {}
            Input::Last => return Ok(()),
            Input::Ended => return Ok(()),
        }
    }
    Ok(())
}

// ---- sets

// The letter of a kind.
#[tactic(auto, unfolding(crate::specs::Printed::kind_letter))]
fn letter_of(kind: Kind) -> u8
    ensures { result ≡ kind_letter kind }
{
    match kind {
        Kind::Membership => b'M',
        Kind::Permission => b'P',
        Kind::Filter => b'F',
    }
}

// The line of a set that is not empty, from its text.
fn put_line(out: &mut [u8], at: usize, kind: Kind, key: u64, text: &[u8]) -> usize
    requires { at + length (line_with kind key text.now) ≤ length out.old }
    ensures { Puts at (line_with kind key text.now) out.old result out.new }
{
    let letter = [letter_of(kind)];
    let number = put_numbered(out, at, &letter, key);
    let start = put_bytes(out, number, b" ");
    let end = put_bytes(out, start, text);
    put_bytes(out, end, b"\n")
}

// Writes the text of a set, and says how long it is.
fn put_text(block: &[u8], kind: Kind, key: u64, text: &mut [u8]) -> usize
    requires { Usable block.now × IsName key × (longest_text ≤ length text.old) }
    ensures { Front (text_of (set_of block.now kind key)) text.new result }
{
    let Ok(n) = index::write_set(block, kind.number() as u64, key, text) else {
        return 0;
    };
    n
}

// The line of a set, or nothing where the set is empty. Its text goes into `text` first.
fn put_set(out: &mut [u8], at: usize, block: &[u8], kind: Kind, key: u64, text: &mut [u8]) -> usize
    requires usable { Usable block.now × IsName key × (longest_text ≤ length text.old) }
    requires key_in_bounds { at + length (set_line block.now kind key) ≤ length out.old }
    ensures { Puts at (set_line block.now kind key) out.old result out.new }
{
    let long = put_text(block, kind, key, text);
    if long == 0 {
        return at;
    }
    put_line(out, at, kind, key, &text[..long])
}

// The lines of all sets of a kind, keys rising.
fn put_sets(out: &mut [u8], at: usize, block: &[u8], kind: Kind, text: &mut [u8]) -> usize
    requires usable { Usable block.now × (longest_text ≤ length text.old) }
    requires name_count_in_bounds { at + length (set_lines block.now kind 0 name_count) ≤ length out.old }
    ensures { Puts at (set_lines block.now kind 0 name_count) out.old result out.new }
{
    let mut end = at;
    for key in 0..NAMES as u64 {
        end = put_set(out, end, block, kind, key, text);
    }
    end
}

// Writes the lines of all sets, kinds in order, and says how long they are.
fn put_block(out: &mut [u8], block: &[u8], text: &mut [u8]) -> usize
    requires { Usable block.now × (longest_text ≤ length text.old) × (longest_sets ≤ length out.old) }
    ensures { Front (block_lines block.now) out.new result }
{
    let members = put_sets(out, 0, block, Kind::Membership, text);
    let permissions = put_sets(out, members, block, Kind::Permission, text);
    put_sets(out, permissions, block, Kind::Filter, text)
}

// Writes every set out.
fn show<W: Write>(output: &mut W, block: &[u8], text: &mut [u8], out: &mut [u8]) -> io::Result<()>
    requires { Usable block.now × (longest_text ≤ length text.old) × (longest_sets ≤ length out.old) }
    ensures handed { (long : ℕ) × Front (block_lines block.now) out.new long }
    ensures written { OnOk result (Appends (W.contents output.old) (W.contents output.new) (block_lines block.now)) }
{
    let long = put_block(out, block, text);
    output.write_all(&out[..long])
}

// ---- the whole

// Makes the block empty, feeds it and shows its sets.
fn run<R: Read, W: Write>(
    input: &mut R,
    output: &mut W,
    block: &mut [u8],
    text: &mut [u8],
    out: &mut [u8],
) -> io::Result<()>
    requires { (length block.old ≡ greatest_length) × (longest_text ≤ length text.old) × (longest_sets ≤ length out.old) }
    ensures ran { OnOk result (Ran (R.remaining input.old, W.contents output.old)
        (R.remaining input.new, W.contents output.new) block.new out.new) }
    ensures stopped { OnErr result (Halted block.old block.new) }
{
    index::make(block).unwrap();
    feed(input, output, block)?;
    show(output, block, text, out)
}

fn main(rt: HostRuntime) -> io::Result<()> {
    let mut block = [0u8; GREATEST];
    let mut text = [0u8; TEXT];
    let mut out = [0u8; SETS];
    run(
        &mut rt.stdin(),
        &mut rt.stdout(),
        &mut block,
        &mut text,
        &mut out,
    )
}
