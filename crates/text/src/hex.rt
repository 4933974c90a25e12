// Digits read without a table: no function branches on a digit, so the compiler can test many bytes at once.
// These and `fields` take a text and a place in it, and no part of it: the definitions of lines and fields, and the laws
// on them, speak of places.
ghost use Rattle.std.specs.Prelude.{true, ◌≡◌, ◌&&◌, ◌+◌, ◌≤◌, length, take, drop};
ghost use Rattle.std.specs.List.{fold};
ghost use Rattle.text.specs.Digits.{digit_of};
ghost use Rattle.text.specs.Plain.{is_digit, all_digits, field_at};

fn is_digit(byte: u8) -> bool
    ensures { result ≡ is_digit byte }
{
    ((0x30 <= byte) & (byte <= 0x39))
        | ((0x41 <= byte) & (byte <= 0x46))
        | ((0x61 <= byte) & (byte <= 0x66))
}

// Whether all of them are digits. The fold has no early exit, so the compiler can test many bytes at once.
fn are_digits(bytes: &[u8]) -> bool
    ensures { result ≡ fold (λ all b. all && is_digit b) true bytes.now }
{
    bytes.iter().fold(true, |all, byte| all & is_digit(*byte))
}

// Whether the `count` bytes from `from` on are all digits.
pub fn all_digits(text: &[u8], from: usize, count: usize) -> bool
    requires { from + count ≤ length text.now }
    ensures { result ≡ all_digits (take count (drop from text.now)) }
{
    are_digits(&text[from..from + count])
}

// The number of a byte that is a digit. A letter has bit 6, and its low four bits are 1 for A.
fn value(byte: u8) -> u8
    requires { is_digit byte ≡ true }
    ensures { result ≡ digit_of byte }
{
    byte % 16 + byte / 64 * 9
}

// The number of the two digits from `at` on.
pub fn two_digits(text: &[u8], at: usize) -> u8
    requires at_in_bounds { at + 2 ≤ length text.now }
    requires text_value { all_digits (take 2 (drop at text.now)) ≡ true }
    ensures { result ≡ field_at at 2 text.now }
{
    value(text[at]) * 16 + value(text[at + 1])
}

// The number of the four digits from `at` on.
pub fn four_digits(text: &[u8], at: usize) -> u16
    requires at_in_bounds { at + 4 ≤ length text.now }
    requires text_value { all_digits (take 4 (drop at text.now)) ≡ true }
    ensures { result ≡ field_at at 4 text.now }
{
    two_digits(text, at) as u16 * 0x100 + two_digits(text, at + 2) as u16
}
