// A run over many lines.
ghost use Rattle.std.specs.Prelude.{◌≡◌, ◌/◌, length};
ghost use Rattle.line.specs.Run.{done, run_of};

use crate::one;
use text::{found, lines};

#[derive(Clone, Copy, Debug, PartialEq, Eq)]
pub struct Ran {
    pub lines: usize,
    pub used: usize,
}

// Each answer goes in at its own place: the part of the answer bytes from 19 times the line's number
// is lent to the one-line writer.
pub fn run(text: &[u8], out: &mut [u8], at_end: bool) -> Ran
    ensures { done out.new result.lines result.used ≡ run_of (length out.old / 19) at_end text.now out.old }
{
    let room = out.len() / 19;
    let mut used = 0;
    for answered in 0..room {
        let line = found::read_at(text, used);
        let Some(next) = lines::next_start(used, line.end, text.len(), at_end) else {
            return Ran {
                lines: answered,
                used,
            };
        };
        let at = answered * 19;
        one::write_answer(line.read, &mut out[at..at + 19]);
        used = next;
    }
    Ran { lines: room, used }
}
