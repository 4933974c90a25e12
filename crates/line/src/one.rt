// One line, handed in without its line feed, and lent room for the answer.
ghost use Rattle.std.specs.Prelude.{◌≡◌, ◌++◌, ◌≤◌, ◌<◌, length, drop};
ghost use Rattle.answer.specs.Asked.{asked};
ghost use Rattle.line.specs.One.{raw_of, answer_by, text_by, status_in, answered};

use answer::answer::Answer;
use answer::{answer as answers, ask};
use request::raw::Raw;
use text::fields::{Fields, Malformed};
use text::{fields, written};

// No `From`: this crate has neither type, and the crates of the two do not know each other.
fn answer_fields(f: Fields) -> Answer
    ensures { result ≡ asked (raw_of f) }
{
    let raw = Raw {
        op: f.op,
        mode: f.mode,
        flags: f.flags,
        x: f.x,
        y: f.y,
    };
    ask::ask(raw)
}

fn answer_read(read: Result<Fields, Malformed>) -> Answer
    ensures { result ≡ answer_by read }
{
    match read {
        Ok(f) => answer_fields(f),
        Err(Malformed::Length) => answers::zeros(1),
        Err(Malformed::Digit) => answers::zeros(2),
    }
}

// Answers what was read of a line, in the first 19 bytes of the room, and returns the status as C has it.
pub fn write_answer(read: Result<Fields, Malformed>, out: &mut [u8]) -> u8
    requires { 19 ≤ length out.old }
    ensures { (result ≡ (answer_by read).status) × (out.new ≡ text_by (answer_by read) ++ drop 19 out.old) }
{
    let a = answer_read(read);
    written::write(a.status, a.flags, a.steps, a.r, a.s, out);
    a.status
}

// 19 bytes are written on every status but 7, and nothing on 7. The status is a number, as C gets it.
pub fn answer_line(line: &[u8], out: &mut [u8]) -> u8
    ensures { (result ≡ status_in (length out.old) line.now) × (out.new ≡ answered line.now out.old) }
{
    if out.len() < 19 {
        return 7;
    }
    write_answer(fields::read_fields(line), out)
}
