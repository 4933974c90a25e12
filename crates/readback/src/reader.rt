// A reader of many answer lines. It holds the text and its place in it, and hands out line after line.
ghost use Rattle.std.specs.Prelude.{◌≡◌, ◌-◌, false, ◌≤◌, ◌<◌, length};
ghost use Rattle.std.specs.Iterator.{at_most};
ghost use Rattle.text.specs.Lines.{line_at};
ghost use Rattle.readback.specs.Reader.{next_at, stepped};
ghost use Rattle.readback.specs.Quick.{is_digits, ends_at};

use crate::judge::Refusal;
use crate::{judge, one};
use answer::answer::Answer;
use text::{hex, lines};

#[derive(Drop)]
pub struct Reader<'a> {
    pub text: &'a [u8],
    pub at: usize,
}

// Why a line is refused, and the byte of the text where it starts.
#[derive(Clone, Copy, Debug, PartialEq, Eq)]
pub struct BadLine {
    pub why: Refusal,
    pub start: usize,
}

// What is handed out, nothing at the end, and the place of the next line.
#[derive(Drop)]
pub struct Stepped {
    pub handed: Option<Result<Answer, BadLine>>,
    pub place: usize,
}

// What was read of the line at `start`, and the place past it.
fn step(read: Result<Answer, Refusal>, start: usize, place: usize) -> Stepped
    ensures { result ≡ stepped read start place }
{
    Stepped {
        handed: Some(read.map_err(|why| BadLine { why, start })),
        place,
    }
}

fn ends_at(text: &[u8], at: usize) -> bool
    requires { at ≤ length text.now }
    ensures { result ≡ ends_at text.now at }
{
    if at == text.len() {
        return true;
    }
    text[at] == b'\n'
}

// Whether the line from `at` on is 18 digits. No line feed is looked for but the one behind them: a line
// feed is no digit.
fn is_digits(text: &[u8], at: usize) -> bool
    requires { at ≤ length text.now }
    ensures { result ≡ is_digits (line_at text.now at) }
{
    if text.len() - at < one::DIGITS {
        return false;
    }
    if !ends_at(text, at + one::DIGITS) {
        return false;
    }
    hex::all_digits(text, at, one::DIGITS)
}

// The length of a line that is not 18 digits decides why it is refused.
fn bad_line(text: &[u8], at: usize) -> Stepped
    requires at_in_bounds { at < length text.now }
    requires at_value { is_digits (line_at text.now at) ≡ false }
    ensures { result ≡ next_at text.now at }
{
    let end = lines::line_end(text, at);
    let place = lines::next_start(at, end, text.len(), true).unwrap_or(at);
    if end - at == one::DIGITS {
        return step(Err(Refusal::Digit), at, place);
    }
    step(Err(Refusal::Length), at, place)
}

// The next line from `at` on. Nearly every line of a good text is 18 digits.
pub fn next_at(text: &[u8], at: usize) -> Stepped
    ensures { result ≡ next_at text.now at }
{
    if text.len() <= at {
        return Stepped {
            handed: None,
            place: at,
        };
    }
    if !is_digits(text, at) {
        return bad_line(text, at);
    }
    let read = judge::judge(one::record_at(text, at));
    let place = lines::next_start(at, at + one::DIGITS, text.len(), true).unwrap_or(at);
    step(read, at, place)
}

// Hands out the next line, and moves the reader past it.
impl<'a> Iterator for Reader<'a> {
    type Item = Result<Answer, BadLine>;

    ghost next_gives = { λ r given after. (given ≡ (next_at r.text.now r.at).handed) × (after.text ≡ r.text) × (after.at ≡ (next_at r.text.now r.at).place) };

    ghost remaining = { λ r. at_most (length r.text.now - r.at) };

    fn next(&mut self) -> Option<Result<Answer, BadLine>> {
        let stepped = next_at(self.text, self.at);
        self.at = stepped.place;
        stepped.handed
    }
}
