// AAA, AAS and AAD.
ghost use Rattle.std.specs.Prelude.{◌≡◌};
ghost use Rattle.bcd.specs.Ascii.{ascii, aaa_o, aaa_s, aas_o, aas_s, aaa_of, aas_of, aad_of};

use crate::adjust;
use crate::adjust::Adjusted;
use flags::parity;
use flags::word::Flags;

// AL is cut to its low digit; the chip takes Z and P from AL before it is.
fn cut(ah: u8, new_al: u8, adjusted: bool, overflow: bool, sign: bool) -> Adjusted
    ensures { result ≡ ascii ah new_al adjusted overflow sign }
{
    let flags = Flags {
        carry: adjusted,
        parity: parity::parity(new_al),
        aux_carry: adjusted,
        zero: new_al == 0,
        sign,
        overflow,
    };
    Adjusted {
        ax: u16::from_be_bytes([ah, new_al % 0x10]),
        flags,
        steps: 7 - adjusted as u16,
    }
}

fn aaa_overflow(al: u8) -> bool
    ensures { result ≡ aaa_o al }
{
    (0x7A..=0x7F).contains(&al)
}

fn aaa_sign(al: u8) -> bool
    ensures { result ≡ aaa_s al }
{
    (0x7A..=0xF9).contains(&al)
}

// AH goes up by 1 and AL by 6 where the low digit is adjusted, and by nothing where it is not.
pub fn aaa(ax: u16, flags: Flags) -> Adjusted
    ensures { result ≡ aaa_of ax flags }
{
    let al = adjust::al(ax);
    let adjusts = adjust::low_digit_adjusts(al, flags.aux_carry);
    let ah = adjust::ah(ax).wrapping_add(adjusts as u8);
    let new_al = al.wrapping_add(adjusts as u8 * 6);
    cut(ah, new_al, adjusts, aaa_overflow(al), aaa_sign(al))
}

fn aas_overflow(al: u8, aux_carry: bool) -> bool
    ensures { result ≡ aas_o al aux_carry }
{
    aux_carry & (0x80..=0x85).contains(&al)
}

fn aas_sign(al: u8, aux_carry: bool) -> bool
    ensures { result ≡ aas_s al aux_carry }
{
    if aux_carry {
        (al <= 0x05) | (al >= 0x86)
    } else {
        al >= 0x80
    }
}

// As AAA, downward. One function for both is no plainer: it would take the direction, O and S, and these are all that
// is written here.
pub fn aas(ax: u16, flags: Flags) -> Adjusted
    ensures { result ≡ aas_of ax flags }
{
    let al = adjust::al(ax);
    let adjusts = adjust::low_digit_adjusts(al, flags.aux_carry);
    let ah = adjust::ah(ax).wrapping_sub(adjusts as u8);
    let new_al = al.wrapping_sub(adjusts as u8 * 6);
    let overflow = aas_overflow(al, flags.aux_carry);
    let sign = aas_sign(al, flags.aux_carry);
    cut(ah, new_al, adjusts, overflow, sign)
}

// The product of AH and the byte comes by CORX, with its steps.
pub fn aad(ax: u16, imm8: u8, flags: Flags) -> Adjusted
    ensures { result ≡ aad_of ax imm8 flags }
{
    let product = corx::corx(adjust::ah(ax), imm8, false, 3);
    let al = adjust::al(ax).wrapping_add(product.tmpc);
    Adjusted {
        ax: al as u16,
        flags: flags.set_szp_flags_from_result(al),
        steps: product.steps + 2,
    }
}
