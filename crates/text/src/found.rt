// A line of a text, found and read.
ghost use Rattle.std.specs.Prelude.{◌≡◌, ◌≤◌, length};
ghost use Rattle.text.specs.Lines.{found_of};

use crate::fields::{Fields, Malformed};
use crate::{fields, lines};

#[derive(Clone, Copy, Debug, PartialEq, Eq)]
pub struct Found {
    pub read: Result<Fields, Malformed>,
    pub end: usize,
}

// Searches for the line feed byte by byte, then reads the line.
fn sought(text: &[u8], from: usize) -> Found
    requires { from ≤ length text.now }
    ensures { result ≡ found_of text.now from }
{
    let end = lines::line_end(text, from);
    Found {
        read: fields::read_fields(&text[from..end]),
        end,
    }
}

// Reads the line that starts at `from`. If 20 digits and a line feed stand there, that is the line: a line
// feed is not a digit, so no search is needed. Nearly every line of a good text is of this kind. All other
// lines go through `sought`.
pub fn read_at(text: &[u8], from: usize) -> Found
    requires { from ≤ length text.now }
    ensures { result ≡ found_of text.now from }
{
    if text.len() - from >= 21 {
        if text[from + 20] == b'\n' {
            if let Ok(fields) = fields::fields_at(text, from) {
                return Found {
                    read: Ok(fields),
                    end: from + 20,
                };
            }
        }
    }
    sought(text, from)
}
