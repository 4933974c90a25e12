// A request line: op (2 digits), mode (2), flags (4), X (8), Y (4).
ghost use Rattle.std.specs.Prelude.{true, [], ◌∷◌, ◌≡◌, ◌+◌, ◌≤◌, length, take, drop};
ghost use Rattle.text.specs.Digits.{below};
ghost use Rattle.text.specs.Fields.{four_at, fields_at, read_of};
ghost use Rattle.text.specs.Lanes.{lanes};
ghost use Rattle.text.specs.Plain.{all_digits, field_at};

use crate::{digits, hex};

// The numbers of a line as they stand in it. `request::Raw` has the same five, and this crate doesn't know it.
#[derive(Clone, Copy, Debug, PartialEq, Eq)]
pub struct Fields {
    pub op: u8,
    pub mode: u8,
    pub flags: u16,
    pub x: u32,
    pub y: u16,
}

// Why a line has no fields. `Length`: it is not 20 bytes long (status 1). `Digit`: a byte is not a digit
// (status 2).
#[derive(Clone, Copy, Debug, PartialEq, Eq)]
pub enum Malformed {
    Length,
    Digit,
}

// The number of the four digits from `at` on, the high digit first.
pub fn four_at(line: &[u8], at: usize) -> Option<u16>
    requires { at + 4 ≤ length line.now }
    ensures { result ≡ below 0x1_0000 (four_at line.now at) }
{
    let a = digits::digit(line[at])?;
    let b = digits::digit(line[at + 1])?;
    let c = digits::digit(line[at + 2])?;
    let d = digits::digit(line[at + 3])?;
    Some(a as u16 * 0x1000 + b as u16 * 0x100 + c as u16 * 0x10 + d as u16)
}

// Eight bytes as one number, the first byte lowest. The compiler merges eight adjacent loads into one.
fn eight_bytes(text: &[u8], at: usize) -> u64
    requires { at + 8 ≤ length text.now }
    ensures { result ≡ lanes 8 (take 8 (drop at text.now)) }
{
    u64::from_le_bytes([
        text[at],
        text[at + 1],
        text[at + 2],
        text[at + 3],
        text[at + 4],
        text[at + 5],
        text[at + 6],
        text[at + 7],
    ])
}

// The numbers of two groups of four digits, read at once: the first in the lower 32 bits, the second in the
// upper. `n` holds the number of each digit: a letter has bit 6, and its low four bits are 1 for A. `p`
// holds the number of each two digits, and the result that of each four.
fn two_fours(text: &[u8], at: usize) -> u64
    requires at_in_bounds { at + 8 ≤ length text.now }
    requires text_value { all_digits (take 8 (drop at text.now)) ≡ true }
    ensures { result ≡ lanes 32 (field_at at 4 text.now ∷ field_at (at + 4) 4 text.now ∷ []) }
{
    let v = eight_bytes(text, at);
    let n = (v & 0x0F0F_0F0F_0F0F_0F0F) + (v & 0x4040_4040_4040_4040) / 0x40 * 9;
    let p = (n & 0x000F_000F_000F_000F) * 0x10 + (n / 0x100 & 0x000F_000F_000F_000F);
    (p & 0x0000_00FF_0000_00FF) * 0x100 + (p / 0x1_0000 & 0x0000_00FF_0000_00FF)
}

// The 20 bytes from `from` on. Op and mode select the operation, and the table gives them soonest. The other
// 16 digits are tested all at once and read eight at a time.
pub fn fields_at(text: &[u8], from: usize) -> Result<Fields, Malformed>
    requires { from + 20 ≤ length text.now }
    ensures { result ≡ fields_at text.now from }
{
    let Some(named) = four_at(text, from) else {
        return Err(Malformed::Digit);
    };
    if !hex::all_digits(text, from + 4, 16) {
        return Err(Malformed::Digit);
    }
    let a = two_fours(text, from + 4);
    let b = two_fours(text, from + 12);
    Ok(Fields {
        op: (named / 0x100) as u8,
        mode: (named % 0x100) as u8,
        flags: (a % 0x1_0000) as u16,
        x: (a / 0x1_0000 + b % 0x1_0000) as u32,
        y: (b / 0x1_0000_0000) as u16,
    })
}

// A line without its line feed. The lower half of X is read twice, because eight digits are read as quickly
// as four. This does not call `fields_at`: the compiler inlines that into `found::read_at`, its only caller.
pub fn read_fields(line: &[u8]) -> Result<Fields, Malformed>
    ensures { result ≡ read_of line.now }
{
    if line.len() != 20 {
        return Err(Malformed::Length);
    }
    if !hex::all_digits(line, 0, 20) {
        return Err(Malformed::Digit);
    }
    let a = two_fours(line, 0);
    let b = two_fours(line, 8);
    let c = two_fours(line, 12);
    Ok(Fields {
        op: (a / 0x100 % 0x100) as u8,
        mode: (a % 0x100) as u8,
        flags: (a / 0x1_0000_0000) as u16,
        x: (b % 0x1_0000 * 0x1_0000 + c % 0x1_0000) as u32,
        y: (c / 0x1_0000_0000) as u16,
    })
}
