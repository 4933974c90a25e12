// One input, block by block: what is read is answered line by line, and a line that a block cuts is
// kept for the next.
ghost use Rattle.std.specs.Prelude.{◌≡◌, ◌-◌, ◌≤◌, ◌<◌, length, take, drop, IfOk};
ghost use Rattle.line.specs.Whole.{whole};
ghost use Rattle.hatchyarn.specs.Kept.{Keeps};

use program::{Failed, Program, input};
use std::io;
use std::io::Read;
use std::ops::Range;

// A line as long as this is too long for a request, whatever stands in it.
const LONG: usize = 21;

// Why an input was not answered to its end.
#[derive(Drop)]
enum Stopped {
    Unread(io::Error),
    Unwritten(Failed),
}

impl From<io::Error> for Stopped {
    fn from(error: io::Error) -> Stopped {
        Stopped::Unread(error)
    }
}

impl From<Failed> for Stopped {
    fn from(failed: Failed) -> Stopped {
        Stopped::Unwritten(failed)
    }
}

// Answers the lines of the text, as many at a time as there is room for, and says how many bytes they take: those that a
// whole run uses. How many one run takes is known after it, so no `for` can go through them.
fn answer_lines(
    program: &Program,
    text: &[u8],
    room: &mut [u8],
    at_end: bool,
) -> Result<usize, Failed>
    requires { 19 ≤ length room.old }
    ensures within { IfOk result (λ used. used ≤ length text.now) }
    ensures all { IfOk result (λ used. used ≡ (whole at_end text.now).used) }
{
    let mut rest = text;
    while !rest.is_empty() {
        let ran = line::run::run(rest, room, at_end);
        if ran.used == 0 {
            break;
        }
        program.write(&room[..ran.lines * 19])?;
        rest = &rest[ran.used..];
    }
    Ok(text.len() - rest.len())
}

// Answers the text's lines, and says which of its bytes to keep: what is left, or of a line that is too long as much as
// keeps it too long. The kept bytes stand for what is left. They are fewer than the smallest block's 32, so that there is
// always room to read behind them.
fn answer_block(
    program: &Program,
    text: &[u8],
    room: &mut [u8],
    at_end: bool,
) -> Result<Range<usize>, Failed>
    requires { 19 ≤ length room.old }
    ensures within { IfOk result (λ kept. (kept.start ≤ kept.end) × (kept.end ≤ length text.now)) }
    ensures few { IfOk result (λ kept. (kept.end - kept.start ≤ LONG) × (kept.end - kept.start < 32)) }
    ensures keeps { IfOk result (λ kept. Keeps at_end text.now (take (kept.end - kept.start) (drop kept.start text.now))) }
{
    let used = answer_lines(program, text, room, at_end)?;
    let left = text.len() - used;
    let kept = left.min(LONG);
    Ok(used..used + kept)
}

// Answers all of the input. Block and room are slices of any length that will do; `files::Answerer` has them as one.
pub fn answer_input<R: Read>(
    program: &Program,
    name: &[u8],
    input: &mut R,
    buffer: &mut [u8],
    room: &mut [u8],
) -> Result<(), Failed>
    requires in_bounds { 32 ≤ length buffer.old }
    requires in_bounds_2 { 19 ≤ length room.old }
{
    let answer = |text: &[u8], at_end: bool| -> Result<Range<usize>, Stopped>
        requires { 19 ≤ length room.now }
        ensures room_stays { length room.exit.now ≡ length room.entry.now }
        ensures within { IfOk result (λ kept. (kept.start ≤ kept.end) × (kept.end ≤ length text.now)) }
        ensures few { IfOk result (λ kept. (kept.end - kept.start ≤ LONG) × (kept.end - kept.start < 32)) }
        ensures keeps { IfOk result (λ kept. Keeps at_end text.now (take (kept.end - kept.start) (drop kept.start text.now))) }
    { Ok(answer_block(program, text, room, at_end)?) };
    let answered = input::each_block(input, buffer, answer);
    match answered {
        Ok(()) => Ok(()),
        Err(Stopped::Unread(error)) => Err(program.fail(name, error)),
        Err(Stopped::Unwritten(failed)) => Err(failed),
    }
}
