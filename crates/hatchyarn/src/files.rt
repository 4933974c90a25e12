// The inputs, in order: the files named as arguments, or standard input where there is none. The first
// that fails stops the program, so that no answer stands behind a gap.
ghost use Rattle.std.specs.Prelude.{◌≤◌, length};

use crate::block;
use program::{Failed, Program, options};
use std::io;
use std::io::Read;
use std::rt::{Env, Files};

// Linux's ENAMETOOLONG, of a name that is longer than the system's paths.
const NAME_TOO_LONG: i32 = 36;

// What every input is answered with: the program, and room for a block of the input and for its answers.
#[derive(Drop)]
struct Answerer<'a> {
    program: &'a Program<'a>,
    block: [u8; 65536],
    answers: [u8; 62244],
}

impl Answerer<'_> {
    fn answer_input<I: Read>(&mut self, name: &[u8], input: &mut I) -> Result<(), Failed> {
        block::answer_input(
            self.program,
            name,
            input,
            &mut self.block,
            &mut self.answers,
        )
    }

    fn answer_standard_input(&mut self) -> Result<(), Failed> {
        let mut input = self.program.input;
        self.answer_input(b"standard input", &mut input)
    }

    fn answer_file(&mut self, files: &impl Files, path: &[u8]) -> Result<(), Failed> {
        match path {
            b"-" => self.answer_standard_input(),
            _ => {
                let mut file = self.program.open(files, path)?;
                self.answer_input(path, &mut file)
            }
        }
    }

    // Answers the file that argument i names.
    fn answer_argument<R: Env + Files>(&mut self, rt: &R, i: usize) -> Result<(), Failed> {
        let mut path = [0u8; 4096];
        match options::argument(rt, i, &mut path) {
            Ok(path) => self.answer_file(rt, path),
            Err(_) => Err(too_long(self.program, &path)),
        }
    }
}

// Says that an argument, which starts as the path does, is too long to name a file. It is shown cut.
fn too_long(program: &Program, path: &[u8]) -> Failed
    requires { 60 ≤ length path.now }
{
    let mut shown = [b'.'; 63];
    shown[..60].copy_from_slice(&path[..60]);
    program.fail(&shown, io::Error::from_raw_os_error(NAME_TOO_LONG))
}

// Answers all inputs. The argument at `end` is the word that ends the options, and names none.
pub fn answer_files<R: Env + Files>(
    rt: &R,
    program: &Program,
    end: Option<usize>,
) -> Result<(), Failed> {
    let mut answerer = Answerer {
        program,
        block: [0; 65536],
        answers: [0; 62244],
    };
    let count = options::count(rt);
    if (1..count).all(|i| end == Some(i)) {
        return answerer.answer_standard_input();
    }
    for i in 1..count {
        if end != Some(i) {
            answerer.answer_argument(rt, i)?;
        }
    }
    Ok(())
}
