// Each operation over the record by value: the record goes in, and what it holds then comes back. An
// operation is its op and mode in a request, and its operand is Y; `signed` is the mode's 02 and `negate` its
// 04, REP.
ghost use Rattle.std.specs.Prelude.{◌≡◌, true, false, ◌+◌, ◌*◌, ◌^◌};
ghost use Rattle.flags.specs.Word.{flags_of};
ghost use Rattle.divide.specs.Divide.{divide};
ghost use Rattle.answer.specs.Charted.{of_adjusted, of_divided};
ghost use Rattle.registers.specs.Over.{over};
ghost use Rattle.instructions.specs.Named.{mode_by, checked_by, in_ax};

use answer::answer as answers;
use answer::answer::Answer;
use bcd::adjust::Adjusted;
use bcd::{adjust, ascii, decimal};
use divide::div;
use flags::number::Number;
use flags::word::Flags;
use multiply::mul;
use registers::record::{Registers, Settled};

// The answer, or 5 where the word has a flag outside 08D5. Op, mode and operand are in their limits by their
// types, so that nothing else is left to judge.
fn checked(flags: u16, a: Answer) -> Answer
    ensures { result ≡ checked_by flags a }
{
    if Flags::is_flags(flags) {
        a
    } else {
        answers::zeros(5)
    }
}

// AX takes R, and DX stays.
fn in_ax(regs: Registers, made: Answer) -> Settled
    ensures { result ≡ in_ax regs made }
{
    let a = checked(regs.flags, made);
    regs.settle(a, a.r, regs.dx)
}

// An adjust reads AX and the flags.
fn adjust<F: FnOnce(u16, Flags) -> Adjusted>(regs: Registers, operation: F) -> Settled
    requires { F.pre operation regs.ax (flags_of regs.flags) }
    ensures { (made : _) × F.post operation regs.ax (flags_of regs.flags) made × (result ≡ in_ax regs (of_adjusted made)) }
{
    let made = operation(regs.ax, Flags::from_word(regs.flags));
    in_ax(regs, answers::of_adjusted(made))
}

pub fn aaa(regs: Registers) -> Settled
    ensures { result ≡ over 0x18 0x00 0 regs }
{
    adjust(regs, ascii::aaa)
}

pub fn aas(regs: Registers) -> Settled
    ensures { result ≡ over 0x19 0x00 0 regs }
{
    adjust(regs, ascii::aas)
}

pub fn aad(regs: Registers, imm8: u8) -> Settled
    ensures { result ≡ over 0x1A 0x00 imm8 regs }
{
    adjust(regs, |ax, flags| ascii::aad(ax, imm8, flags))
}

pub fn daa(regs: Registers) -> Settled
    ensures { result ≡ over 0x1B 0x00 0 regs }
{
    adjust(regs, decimal::daa)
}

pub fn das(regs: Registers) -> Settled
    ensures { result ≡ over 0x1C 0x00 0 regs }
{
    adjust(regs, decimal::das)
}

// AL times the operand. This and the next are no twins: other registers are read, and the results go to others.
#[tactic(auto, using(crate::proofs::NamedLaws::over_mul8))]
pub fn mul8(regs: Registers, operand: u8, signed: bool, negate: bool) -> Settled
    ensures { result ≡ over 0x10 (mode_by false signed negate) operand regs }
{
    let flags = Flags::from_word(regs.flags);
    let made = mul::mul(adjust::al(regs.ax), operand, signed, negate, flags);
    in_ax(regs, answers::of_product8(made))
}

// AX times the operand: the upper half goes into DX.
#[tactic(auto, using(crate::proofs::NamedLaws::over_mul16))]
pub fn mul16(regs: Registers, operand: u16, signed: bool, negate: bool) -> Settled
    ensures { result ≡ over 0x10 (mode_by true signed negate) operand regs }
{
    let flags = Flags::from_word(regs.flags);
    let made = mul::mul(regs.ax, operand, signed, negate, flags);
    let a = checked(regs.flags, answers::of_product16(made));
    regs.settle(a, a.s, a.r)
}

// A divide reads the two halves of its dividend and the flags.
fn divided<N: Number>(
    regs: Registers,
    upper: N,
    lower: N,
    operand: N,
    signed: bool,
    negate: bool,
) -> Answer
    ensures { result ≡ checked_by regs.flags (of_divided (divide N.BITS signed negate (N.value upper * 2 ^ N.BITS + N.value lower) (N.value operand) (flags_of regs.flags))) }
{
    let flags = Flags::from_word(regs.flags);
    let made = div::div(upper, lower, operand, signed, negate, flags);
    checked(regs.flags, answers::of_divided(made))
}

// AX by the operand: the quotient goes into AL and the remainder into AH. The next reads DX too, and writes both.
#[tactic(auto, using(crate::proofs::NamedLaws::over_div8))]
pub fn div8(regs: Registers, operand: u8, signed: bool, negate: bool) -> Settled
    ensures { result ≡ over 0x11 (mode_by false signed negate) operand regs }
{
    let (ah, al) = (adjust::ah(regs.ax), adjust::al(regs.ax));
    let a = divided(regs, ah, al, operand, signed, negate);
    regs.settle(a, a.s * 0x100 + a.r, regs.dx)
}

// DX with AX below it by the operand: the quotient goes into AX and the remainder into DX.
#[tactic(auto, using(crate::proofs::NamedLaws::over_div16))]
pub fn div16(regs: Registers, operand: u16, signed: bool, negate: bool) -> Settled
    ensures { result ≡ over 0x11 (mode_by true signed negate) operand regs }
{
    let a = divided(regs, regs.dx, regs.ax, operand, signed, negate);
    regs.settle(a, a.r, a.s)
}
