// What the adjusts share: the halves of AX, the test of the low digit, and the answer.
// Tests are joined by `&` and `|`, which look at both sides: no branch, and one way through.
ghost use Rattle.std.specs.Prelude.{◌≡◌};
ghost use Rattle.bcd.specs.Adjust.{ah_of, al_of, adjusts};

use flags::word::Flags;

#[derive(Clone, Copy)]
pub struct Adjusted {
    pub ax: u16,
    pub flags: Flags,
    pub steps: u16,
}

pub fn ah(ax: u16) -> u8
    ensures { result ≡ ah_of ax }
{
    let [ah, _] = ax.to_be_bytes();
    ah
}

pub fn al(ax: u16) -> u8
    ensures { result ≡ al_of ax }
{
    let [_, al] = ax.to_be_bytes();
    al
}

// The same test for all four: it is what A says afterwards.
pub fn low_digit_adjusts(al: u8, aux_carry: bool) -> bool
    ensures { result ≡ adjusts al aux_carry }
{
    (al % 0x10 > 9) | aux_carry
}
