// Replays a recorded list and says how many of its answers differ. Each line of standard input is a
// record: the answer's 18 digits, a space, and the request as it was sent, up to the line feed.
#![tactic(auto)]

ghost use Rattle.std.specs.Prelude.{◌≡◌, ◌∷◌, [], ◌+◌, ◌-◌, ◌≤◌, length, take, drop, not, IfOk, IfSome, IsNone};
ghost use Rattle.replay.specs.Record.{right};
ghost use Rattle.replay.specs.Counted.{records_in, count_on};

use program::input;
use std::io;
use std::io::{Print, Stdin, Stdout};
use std::ops::Range;

// Where the request begins.
const REQUEST: usize = 19;

// Whether the request is answered as it was recorded. A record too short to hold one is not.
fn same_answer(recorded: &[u8]) -> bool
    ensures { result ≡ right recorded.now }
{
    if recorded.len() < REQUEST {
        return false;
    }
    let mut answer = [0u8; 19];
    line::one::answer_line(&recorded[REQUEST..], &mut answer);
    recorded[..18] == answer[..18]
}

// Writes the bytes. Where that fails it is the count that tells.
fn show(output: Stdout, bytes: &[u8]) {
    let _ = output.write_all(bytes);
}

// Whether a record differs. It is shown then, so that it can be tried by hand.
fn differs(output: Stdout, recorded: &[u8]) -> bool
    ensures { result ≡ not (right recorded.now) }
{
    if same_answer(recorded) {
        false
    } else {
        show(output, b"differs: ");
        show(output, recorded);
        show(output, b"\n");
        true
    }
}

// The first record of a text, without its line feed, and what stands behind it.
fn split_record(text: &[u8]) -> Option<(&[u8], &[u8])>
    ensures first { IfSome result (λ r. records_in text.now ≡ r.0.now ∷ records_in r.1.now) }
    ensures size { IfSome result (λ r. length text.now ≡ length r.0.now + 1 + length r.1.now) }
    ensures none { IsNone result → records_in text.now ≡ [] }
{
    let end = text::lines::line_end(text, 0);
    if end == text.len() {
        return None;
    }
    Some((&text[..end], &text[end + 1..]))
}

// What is done so far: bytes of the block, and over all blocks records and those that differ.
#[derive(Clone, Copy, Debug, Default, PartialEq, Eq)]
pub struct Replayed {
    pub used: usize,
    pub records: u64,
    pub differ: u64,
}

// Replays the records that the block holds whole, and counts on.
fn replay(output: Stdout, block: &[u8], before: Replayed) -> Replayed
    ensures { result ≡ count_on before block.now }
{
    let mut records = before.records;
    let mut differ = before.differ;
    let mut rest = block;
    while let Some((recorded, behind)) = split_record(rest) {
        records = records.wrapping_add(1);
        differ = differ.wrapping_add(u64::from(differs(output, recorded)));
        rest = behind;
    }
    Replayed {
        used: block.len() - rest.len(),
        records,
        differ,
    }
}

// Replays a block, and says what is left of it.
fn replay_block(output: Stdout, block: &[u8], replayed: &mut Replayed) -> Range<usize>
    ensures counted { replayed.new ≡ count_on replayed.old block.now }
    ensures left { (result.start ≡ replayed.new.used) × (result.start ≤ result.end) × (result.end ≡ length block.now) }
{
    *replayed = replay(output, block, *replayed);
    replayed.used..block.len()
}

// A record that fills the buffer ends the replay, as the end of the input does, and a read that fails.
fn replay_all(mut input: Stdin, output: Stdout, buffer: &mut [u8]) -> Replayed {
    let mut replayed = Replayed::default();
    let step = |block: &[u8], _at_end: bool| -> io::Result<Range<usize>>
        ensures counted { replayed.exit ≡ count_on replayed.entry block.now }
        ensures left { IfOk result (λ left. (left.start ≡ replayed.exit.used) × (left.start ≤ left.end) × (left.end ≡ length block.now)) }
    { Ok(replay_block(output, block, &mut replayed)) };
    let _ = input::each_block(&mut input, buffer, step);
    replayed
}

fn main(rt: HostRuntime) -> io::Result<()> {
    let mut buffer = [0u8; 65536];
    let replayed = replay_all(rt.stdin(), rt.stdout(), &mut buffer);
    let records = replayed.records;
    let differ = replayed.differ;
    println!(rt; "{records} records replayed, {differ} differ")
}
