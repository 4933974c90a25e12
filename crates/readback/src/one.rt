// One answer line, handed in without its line feed.
ghost use Rattle.std.specs.Prelude.{◌≡◌, true, ◌+◌, ◌≤◌, length, take, drop};
ghost use Rattle.text.specs.Plain.{all_digits};
ghost use Rattle.readback.specs.Judge.{record_in, read_back};

use crate::judge;
use crate::judge::Refusal;
use answer::answer::Answer;
use text::hex;

// How many digits a line has.
pub const DIGITS: usize = 18;

// The record in the 18 digits from `at` on.
pub fn record_at(text: &[u8], at: usize) -> Answer
    requires at_in_bounds { at + 18 ≤ length text.now }
    requires text_value { all_digits (take 18 (drop at text.now)) ≡ true }
    ensures { result ≡ record_in (take 18 (drop at text.now)) }
{
    Answer {
        status: hex::two_digits(text, at),
        flags: hex::four_digits(text, at + 2),
        steps: hex::four_digits(text, at + 6),
        r: hex::four_digits(text, at + 10),
        s: hex::four_digits(text, at + 14),
    }
}

pub fn read_answer(line: &[u8]) -> Result<Answer, Refusal>
    ensures { result ≡ read_back line.now }
{
    if line.len() != DIGITS {
        return Err(Refusal::Length);
    }
    if !hex::all_digits(line, 0, DIGITS) {
        return Err(Refusal::Digit);
    }
    judge::judge(record_at(line, 0))
}
