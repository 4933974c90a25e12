// Where lines end, and where the next starts.
ghost use Rattle.std.specs.Prelude.{◌≡◌, ◌≤◌, length};
ghost use Rattle.std.specs.Option.{unwrap_or};
ghost use Rattle.text.specs.Lines.{line_end, next_of, next_line};

// The end of the line that starts at `from`: its line feed, or the end of the text. By `position` over
// the part a malformed line took 2 ns more: the compiled loop had an addition more for each byte.
pub fn line_end(text: &[u8], from: usize) -> usize
    requires { from ≤ length text.now }
    ensures { result ≡ line_end text.now from }
{
    for at in from..text.len() {
        if text[at] == b'\n' {
            return at;
        }
    }
    text.len()
}

// Where the line after the next one starts: past the line feed at `end`, or at the end of a tail that is a
// line too. None where no line is left.
pub fn next_start(from: usize, end: usize, size: usize, at_end: bool) -> Option<usize>
    ensures { (unwrap_or result from ≡ next_of from end size at_end) × (result ≡ next_line from end size at_end) }
{
    if end < size {
        return Some(end + 1);
    }
    if at_end & (from != size) {
        return Some(size);
    }
    None
}
