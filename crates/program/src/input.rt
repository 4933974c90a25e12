// An input: a file, or standard input. It is read block by block into a buffer, where what one block leaves over stands
// before the next.
ghost use Rattle.std.specs.Prelude.{◌≡◌, ◌⊎◌, ◌==◌, ◌-◌, ◌≤◌, length, take, drop, IfOk, IfSome, is_none, Ok};

use crate::{Failed, Program};
use std::fs::File;
use std::io;
use std::io::{ErrorKind, Read};
use std::ops::Range;
use std::rt::Files;

// The library opens files whose names are text.
fn open_path<R: Files>(files: &R, path: &[u8]) -> io::Result<R::File> {
    match std::str::from_utf8(path) {
        Ok(name) => File::open(files, name),
        Err(_) => Err(io::Error::from(ErrorKind::InvalidFilename)),
    }
}

impl Program<'_> {
    // Opens the file for reading.
    pub fn open<R: Files>(&self, files: &R, path: &[u8]) -> Result<R::File, Failed> {
        open_path(files, path).map_err(|error| self.fail(path, error))
    }
}

// What is asked of a buffer is each function's own: a place in it here, and a range of it below.
// Reads once behind the bytes that are kept, and says how many there are then. At the input's end there are no more.
pub fn fill<R: Read>(input: &mut R, buffer: &mut [u8], kept: usize) -> io::Result<usize>
    requires { kept ≤ length buffer.old }
    ensures { IfOk result (λ have. (kept ≤ have) × (have ≤ length buffer.old)) }
{
    let n = input.read(&mut buffer[kept..])?;
    Ok(kept + n)
}

// Moves the bytes to keep to the front of the buffer, and says how many they are.
fn keep_front(buffer: &mut [u8], kept: Range<usize>) -> usize
    requires { (kept.start ≤ kept.end) × (kept.end ≤ length buffer.old) }
    ensures count { result ≡ kept.end - kept.start }
    ensures front { take result buffer.new ≡ drop kept.start (take kept.end buffer.old) }
{
    blocks::keep(buffer, kept.start, kept.end);
    kept.len()
}

// Gives the step the filled block, and moves the bytes that it keeps to the front of the buffer. Says how many they are;
// none at the input's end, where nothing was read behind what was kept. What is kept is what some step kept, or nothing.
fn turn<E, F: FnMut(&[u8], bool) -> Result<Range<usize>, E>>(
    step: &mut F,
    buffer: &mut [u8],
    kept: usize,
    have: usize,
) -> Result<Option<usize>, E>
    requires have { (kept ≤ have) × (have ≤ length buffer.old) }
    requires before { (kept ≡ 0) ⊎ ((f : F) × (block : _) × (at_end : _) × (left : _) × (f' : F) × F.step f block at_end (Ok left) f' × (kept ≡ left.end - left.start)) }
    requires callable { F.IsAlwaysCallable step.old }
    requires within { (f : F) (block : _) (at_end : _) (r : _) → F.post f block at_end r → IfOk r (λ kept. (kept.start ≤ kept.end) × (kept.end ≤ length block.now)) }
    ensures callable_again { F.IsAlwaysCallable step.new }
    ensures inside { IfOk result (λ next. IfSome next (λ n. n ≤ length buffer.old)) }
    ensures more { IfOk result (λ next. is_none next ≡ (have == kept)) }
    ensures kept { IfOk result (λ next. (block : _) × (left : _) × (block.now ≡ take have buffer.old) × F.step step.old block (have == kept) (Ok left) step.new × IfSome next (λ n. (n ≡ left.end - left.start) × (take n buffer.new ≡ drop left.start (take left.end buffer.old)))) }
{
    let at_end = have == kept;
    let left = step(&buffer[..have], at_end)?;
    if at_end {
        return Ok(None);
    }
    Ok(Some(keep_front(buffer, left)))
}

// Gives the step each block, which begins with what is kept of the one before, and whether the input is at its end. The
// step says which bytes of the block to keep. A proved loop has to end, and nothing says that an input does; so the
// turns are counted up to a number that no run reaches.
pub fn each_block<R: Read, E: From<io::Error>, F: FnMut(&[u8], bool) -> Result<Range<usize>, E>>(
    input: &mut R,
    buffer: &mut [u8],
    mut step: F,
) -> Result<(), E>
    requires callable { F.IsAlwaysCallable step }
    requires within { (f : F) (block : _) (at_end : _) (r : _) → F.post f block at_end r → IfOk r (λ kept. (kept.start ≤ kept.end) × (kept.end ≤ length block.now)) }
{
    let mut kept = 0;
    for _ in 0..u64::MAX {
        let have = fill(input, buffer, kept)?;
        let Some(next) = turn(&mut step, buffer, kept, have)? else {
            break;
        };
        kept = next;
    }
    Ok(())
}
