// The options, which are looked for among the arguments before any work is done.
ghost use Rattle.std.specs.Prelude.{◌≤◌, length, IfOk};

use crate::{Failed, Program};
use std::env::FillError;
use std::rt::Env;

// What the arguments ask for. `Work` holds the place of the word `--`, which names no file, if it is there.
#[derive(Clone, Copy, Debug, PartialEq, Eq)]
pub enum Asked {
    Help,
    Version,
    Work(Option<usize>),
}

// What one argument is.
#[derive(Clone, Copy, Debug, PartialEq, Eq)]
enum Word {
    Help,
    Version,
    Unknown,
    End,
    Name,
}

impl From<&[u8]> for Word {
    // A lone hyphen is a name, that of standard input.
    fn from(argument: &[u8]) -> Word {
        match argument {
            b"--" => Word::End,
            b"-h" | b"--help" => Word::Help,
            b"--version" => Word::Version,
            [b'-', _, ..] => Word::Unknown,
            _ => Word::Name,
        }
    }
}

// How many arguments there are. The program's own name, at place 0, is one of them.
pub fn count(arguments: &impl Env) -> usize {
    let mut room = [0u8; 1];
    (0..usize::MAX)
        .find(|i| matches!(arguments.arg(*i, &mut room), Err(FillError::NotPresent)))
        .unwrap_or(usize::MAX)
}

// Argument i, which is put at the start of the room. std's `args` copies all arguments to the heap, and takes none that
// is no text.
pub fn argument<'a>(
    arguments: &impl Env,
    i: usize,
    room: &'a mut [u8],
) -> Result<&'a [u8], FillError>
    ensures { IfOk result (λ word. length word.now ≤ length room.old) }
{
    let n = arguments.arg(i, room)?;
    Ok(&room[..n])
}

impl Program<'_> {
    // What the arguments ask for, and if they have an unknown option, that it is said. One that does not fit the room is a
    // name.
    pub fn asked_for(&self, arguments: &impl Env) -> Result<Asked, Failed> {
        let mut room = [0u8; 4096];
        for i in 1..count(arguments) {
            let word = argument(arguments, i, &mut room).unwrap_or(b"");
            match Word::from(word) {
                Word::Help => return Ok(Asked::Help),
                Word::Version => return Ok(Asked::Version),
                Word::Unknown => return Err(self.unknown(word)),
                Word::End => return Ok(Asked::Work(Some(i))),
                Word::Name => {}
            }
        }
        Ok(Asked::Work(None))
    }
}
