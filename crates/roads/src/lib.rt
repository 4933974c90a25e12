// Counts the ones of a divide's quotient by the two roads that make one: a bit shifted out, and no borrow. The
// divide is given as numbers that no caller has checked. The comparison of `trap` refuses before CORD walks.
// CORD is called here, and not `div`. With a second caller the compiler would no longer inline it into `ask`, and
// every divide would take longer.
#![tactic(auto)]

pub mod told;

ghost use Rattle.std.specs.Prelude.{◌≡◌, ◌+◌, ◌^◌, ◌≤◌, ◌<◌};
ghost use Rattle.numbers.specs.Numbers.{magnitude};
ghost use Rattle.cord.specs.Cord.{cord};
ghost use Rattle.cord.specs.Views.{roads};
ghost use Rattle.roads.specs.declared.Refusal.TheVariants.{Divide};
ghost use Rattle.roads.specs.Told.{judged_by, told_as, told_by, roads_told};

use cord::Roads;
use divide::div;
use flags::number::Number;
use trap::{Unasked, compare};

// Why there are no roads: the divide cannot be asked about, or the chip refuses it.
#[derive(Clone, Copy, Debug, PartialEq, Eq)]
pub enum Refusal {
    Unasked(Unasked),
    Divide(div::Refusal),
}

impl From<div::Refusal> for Refusal {
    ghost from_gives = { λ why e. e ≡ Divide why };

    fn from(why: div::Refusal) -> Refusal {
        Refusal::Divide(why)
    }
}

// The number that CORD works on, of a width or of two: `bits` is a number, as in `trap::compare`.
fn magnitude_by(signed: bool, bits: u32, number: u64) -> u64
    requires { (number < 2 ^ bits) × (8 ≤ bits) × (bits ≤ 32) }
    ensures { result ≡ magnitude signed bits number }
{
    if signed {
        compare::magnitude_of(bits, number)
    } else {
        number
    }
}

// One comparison refuses. Only a refused divide is asked why: the divisor is 0, or the magnitudes are refused without
// a sign too, or the sign needs the bit.
#[tactic(auto, using(numbers::proofs::SignLaws::magnitude_lt, crate::proofs::ToldLaws::zero_refused, crate::proofs::ToldLaws::wide_refused, crate::proofs::ToldLaws::range_refused))]
fn judge<N: Number>(dividend: u32, divisor: N, signed: bool) -> Result<(), div::Refusal>
    requires { dividend < 2 ^ (N.BITS + N.BITS) }
    ensures { result ≡ judged_by N.BITS signed dividend (N.value divisor) }
{
    let (dividend, divisor) = (dividend as u64, divisor.wide() as u64);
    if !compare::would_trap(N::BITS, dividend, divisor, signed) {
        return Ok(());
    }
    if divisor == 0 {
        return Err(div::Refusal::ZeroDivisor);
    }
    let whole = magnitude_by(signed, N::BITS + N::BITS, dividend);
    let tmpb = magnitude_by(signed, N::BITS, divisor);
    if compare::would_trap(N::BITS, whole, tmpb, false) {
        Err(div::Refusal::TooWide)
    } else {
        Err(div::Refusal::SignRange)
    }
}

// CORD's two tallies. What it is given has no sign.
fn walk<N: Number>(whole: u64, tmpb: u64) -> Roads
    requires { (whole < 2 ^ (N.BITS + N.BITS)) × (tmpb < 2 ^ N.BITS) }
    ensures { roads result ≡ (cord N.BITS tmpb whole 0).roads }
{
    let upper = N::cut((whole >> N::BITS) as u32);
    let lower = N::cut(whole as u32);
    cord::cord(upper, N::cut(tmpb as u32), lower, 0).roads
}

// A valid divide at either width.
#[tactic(auto, using(numbers::proofs::SignLaws::magnitude_lt, crate::proofs::ToldLaws::judged_refused, crate::proofs::ToldLaws::judged_walked))]
fn roads_at<N: Number>(dividend: u32, divisor: N, signed: bool) -> Result<Roads, Refusal>
    requires { dividend < 2 ^ (N.BITS + N.BITS) }
    ensures { told_as result ≡ told_by N.BITS signed dividend (N.value divisor) }
{
    judge(dividend, divisor, signed)?;
    let whole = magnitude_by(signed, N::BITS + N::BITS, dividend as u64);
    let tmpb = magnitude_by(signed, N::BITS, divisor.wide() as u64);
    Ok(walk::<N>(whole, tmpb))
}

// The limits of a divide are tested here, as they are in `trap`. The laws `told_mode`, `told_large` and
// `told_admitted` hold them to the table of statuses. `request::decode` and `answer::chart` test them too. With a
// second caller the compiler would no longer inline those into `ask`, and every request would take longer. REP
// changes nothing.
#[tactic(auto, using(crate::proofs::Rows::told_mode, crate::proofs::Rows::told_word, crate::proofs::Rows::told_byte_large, crate::proofs::Rows::told_byte))]
pub fn roads(mode: u8, dividend: u32, divisor: u16) -> Result<Roads, Refusal>
    ensures { told_as result ≡ roads_told mode dividend divisor }
{
    if mode > 0x07 {
        return Err(Refusal::Unasked(Unasked::WrongMode));
    }
    let signed = mode & 0x02 != 0;
    if mode & 0x01 != 0 {
        return roads_at::<u16>(dividend, divisor, signed);
    }
    // One test for both: by `try_from` each operand had one of its own, and a refused divide took 1.4 times as long.
    if (dividend > u16::MAX as u32) | (divisor > u8::MAX as u16) {
        return Err(Refusal::Unasked(Unasked::TooLarge));
    }
    roads_at::<u8>(dividend, u8::cut(divisor as u32), signed)
}
