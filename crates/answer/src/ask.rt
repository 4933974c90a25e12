// Answers raw requests, which no caller has checked: the table of statuses from 3 on.
ghost use Rattle.std.specs.Prelude.{◌≡◌};
ghost use Rattle.answer.specs.Asked.{asked, status_of, parts_of};

use crate::answer::Answer;
use crate::{answer, chart};
use request::decode;
use request::decode::Undecoded;
use request::raw::Raw;

#[tactic(auto, unfolding(crate::specs::Asked::asked, crate::specs::Charted::charted, request::specs::Judge::judged))]
fn answer_raw(raw: Raw) -> Answer
    ensures { result ≡ asked raw }
{
    match decode::decode(raw.op, raw.mode) {
        Ok(operation) => chart::chart(raw.with_operation(operation)),
        Err(Undecoded::Unlisted) => answer::zeros(3),
        Err(Undecoded::WrongMode) => answer::zeros(4),
    }
}

// Returns the status and writes flags, steps, R and S. The numbers of a request stand one by one and those of an
// answer in an array, as C has them: a `Raw` goes by address, and with it a request took 1.2 times as long. It is the
// only caller of `answer_raw`, so the compiler makes one function of the two and copies no answer.
pub fn ask_into(op: u8, mode: u8, flags: u16, x: u32, y: u16, parts: &mut [u16; 4]) -> u8
    ensures { (result ≡ status_of op mode flags x y) × (parts.new ≡ parts_of op mode flags x y) }
{
    let a = answer_raw(Raw {
        op,
        mode,
        flags,
        x,
        y,
    });
    *parts = [a.flags, a.steps, a.r, a.s];
    a.status
}

// The same answer as a record.
pub fn ask(raw: Raw) -> Answer
    ensures { result ≡ asked raw }
{
    let mut parts = [0; 4];
    let status = ask_into(raw.op, raw.mode, raw.flags, raw.x, raw.y, &mut parts);
    let [flags, steps, r, s] = parts;
    Answer {
        status,
        flags,
        steps,
        r,
        s,
    }
}
