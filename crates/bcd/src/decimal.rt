// DAA and DAS.
ghost use Rattle.std.specs.Prelude.{◌≡◌, ◌+◌, if◌then◌else◌};
ghost use Rattle.bcd.specs.Decimal.{high_adjusts, distance, named, decimal, daa_o, das_o, daa_of, das_of};

use crate::adjust;
use crate::adjust::Adjusted;
use flags::word::Flags;

// The chip checks against 9F where A was set, which the usual pseudocode does not say.
fn high_digit_adjusts(al: u8, aux_carry: bool, carry: bool) -> bool
    ensures { result ≡ high_adjusts al aux_carry carry }
{
    if aux_carry {
        (al > 0x9F) | carry
    } else {
        (al > 0x99) | carry
    }
}

// How far AL moves.
fn distance(low: bool, high: bool) -> u8
    ensures { result ≡ (if low then 0x06 else 0) + (if high then 0x60 else 0) }
{
    low as u8 * 0x06 + high as u8 * 0x60
}

// How far AL moves, and the flags that the tests name: A and C, with the operation's own O.
fn tested(al: u8, overflow: bool, flags: Flags) -> (u8, Flags)
    ensures { result ≡ (distance al flags, named al overflow flags) }
{
    let low = adjust::low_digit_adjusts(al, flags.aux_carry);
    let high = high_digit_adjusts(al, flags.aux_carry, flags.carry);
    (distance(low, high), flags.with_coa(high, overflow, low))
}

// AH is kept, and no step is counted.
fn adjusted(ah: u8, al: u8, flags: Flags) -> Adjusted
    ensures { result ≡ decimal ah al flags }
{
    Adjusted {
        ax: u16::from_be_bytes([ah, al]),
        flags: flags.set_szp_flags_from_result(al),
        steps: 0,
    }
}

fn daa_overflow(al: u8, carry: bool) -> bool
    ensures { result ≡ daa_o al carry }
{
    if carry {
        (0x1A..=0x7F).contains(&al)
    } else {
        (0x7A..=0x7F).contains(&al)
    }
}

fn das_overflow(al: u8, aux_carry: bool, carry: bool) -> bool
    ensures { result ≡ das_o al aux_carry carry }
{
    match (carry, aux_carry) {
        (true, true) => (0x80..=0xE5).contains(&al),
        (true, false) => (0x80..=0xDF).contains(&al),
        (false, true) => (0x80..=0x85).contains(&al) | (0xA0..=0xE5).contains(&al),
        (false, false) => (0x9A..=0xDF).contains(&al),
    }
}

// DAA and DAS share `tested` and `adjusted`. One function for both is no plainer: it would take O and the direction,
// and these are all that is written here.
pub fn daa(ax: u16, flags: Flags) -> Adjusted
    ensures { result ≡ daa_of ax flags }
{
    let al = adjust::al(ax);
    let (by, named) = tested(al, daa_overflow(al, flags.carry), flags);
    adjusted(adjust::ah(ax), al.wrapping_add(by), named)
}

pub fn das(ax: u16, flags: Flags) -> Adjusted
    ensures { result ≡ das_of ax flags }
{
    let al = adjust::al(ax);
    let overflow = das_overflow(al, flags.aux_carry, flags.carry);
    let (by, named) = tested(al, overflow, flags);
    adjusted(adjust::ah(ax), al.wrapping_sub(by), named)
}
