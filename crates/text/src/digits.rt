// Hexadecimal digits: what a byte stands for, and the capital that stands for a number. Both are read
// from static tables.
ghost use Rattle.std.specs.Prelude.{◌≡◌, ◌<◌};
ghost use Rattle.text.specs.Digits.{DigitTable, CapitalTable, below, digit_of, capital_of};

// 16 where the byte is no digit.
static DIGITS: [u8; 256] = [
    // 00
    16, 16, 16, 16, 16, 16, 16, 16, 16, 16, 16, 16, 16, 16, 16, 16,
    // 10
    16, 16, 16, 16, 16, 16, 16, 16, 16, 16, 16, 16, 16, 16, 16, 16,
    // 20
    16, 16, 16, 16, 16, 16, 16, 16, 16, 16, 16, 16, 16, 16, 16, 16,
    // 30
    0, 1, 2, 3, 4, 5, 6, 7, 8, 9, 16, 16, 16, 16, 16, 16,
    // 40
    16, // @
    10, // A
    11, 12, 13, 14, 15, 16, 16, 16, 16, 16, 16, 16, 16, 16,
    // 50
    16, 16, 16, 16, 16, 16, 16, 16, 16, 16, 16, 16, 16, 16, 16, 16,
    // 60
    16, // `
    10, // a
    11, 12, 13, 14, 15, 16, 16, 16, 16, 16, 16, 16, 16, 16,
    // 70
    16, 16, 16, 16, 16, 16, 16, 16, 16, 16, 16, 16, 16, 16, 16, 16,
    // 80
    16, 16, 16, 16, 16, 16, 16, 16, 16, 16, 16, 16, 16, 16, 16, 16,
    // 90
    16, 16, 16, 16, 16, 16, 16, 16, 16, 16, 16, 16, 16, 16, 16, 16,
    // A0
    16, 16, 16, 16, 16, 16, 16, 16, 16, 16, 16, 16, 16, 16, 16, 16,
    // B0
    16, 16, 16, 16, 16, 16, 16, 16, 16, 16, 16, 16, 16, 16, 16, 16,
    // C0
    16, 16, 16, 16, 16, 16, 16, 16, 16, 16, 16, 16, 16, 16, 16, 16,
    // D0
    16, 16, 16, 16, 16, 16, 16, 16, 16, 16, 16, 16, 16, 16, 16, 16,
    // E0
    16, 16, 16, 16, 16, 16, 16, 16, 16, 16, 16, 16, 16, 16, 16, 16,
    // F0
    16, 16, 16, 16, 16, 16, 16, 16, 16, 16, 16, 16, 16, 16, 16, 16,
];

static CAPITALS: [u8; 16] = [
    48, 49, 50, 51, 52, 53, 54, 55, 56, 57, 65, 66, 67, 68, 69, 70,
];

fn digit_table() -> &'static [u8; 256]
    ensures { DigitTable result.now }
{
    &DIGITS
}

fn capital_table() -> &'static [u8; 16]
    ensures { CapitalTable result.now }
{
    &CAPITALS
}

pub fn digit(byte: u8) -> Option<u8>
    ensures { result ≡ below 16 (digit_of byte) }
{
    let number = digit_table()[byte as usize];
    if number < 16 { Some(number) } else { None }
}

pub fn capital(number: u16) -> u8
    requires { number < 16 }
    ensures { result ≡ capital_of number }
{
    capital_table()[number as usize]
}
