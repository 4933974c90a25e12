// Each operation over a lent record, which it changes in place. Users call the nine by these names.
ghost use Rattle.std.specs.Prelude.{◌≡◌, true, false};
ghost use Rattle.registers.specs.Over.{settled_as, over};
ghost use Rattle.instructions.specs.Named.{mode_by};

use crate::by_value;
use registers::record::{Registers, Settled};

// What a caller is told who lends the record. The status is a number, as in `Settled`.
#[derive(Clone, Copy, Debug, PartialEq, Eq)]
pub struct Told {
    pub status: u8,
    pub steps: u16,
}

// Copies the record, leaves the work to an operation by value and stores the record that comes back, so that a
// field more changes none of the nine.
fn lent<F: FnOnce(Registers) -> Settled>(r: &mut Registers, operation: F) -> Told
    requires { F.pre operation r.old }
    ensures { F.post operation r.old (settled_as result.status result.steps r.new) }
{
    let Settled {
        status,
        steps,
        regs,
    } = operation(*r);
    *r = regs;
    Told { status, steps }
}

pub fn aaa(r: &mut Registers) -> Told
    ensures { settled_as result.status result.steps r.new ≡ over 0x18 0x00 0 r.old }
{
    lent(r, by_value::aaa)
}

pub fn aas(r: &mut Registers) -> Told
    ensures { settled_as result.status result.steps r.new ≡ over 0x19 0x00 0 r.old }
{
    lent(r, by_value::aas)
}

pub fn aad(r: &mut Registers, imm8: u8) -> Told
    ensures { settled_as result.status result.steps r.new ≡ over 0x1A 0x00 imm8 r.old }
{
    lent(r, |regs| by_value::aad(regs, imm8))
}

pub fn daa(r: &mut Registers) -> Told
    ensures { settled_as result.status result.steps r.new ≡ over 0x1B 0x00 0 r.old }
{
    lent(r, by_value::daa)
}

pub fn das(r: &mut Registers) -> Told
    ensures { settled_as result.status result.steps r.new ≡ over 0x1C 0x00 0 r.old }
{
    lent(r, by_value::das)
}

pub fn mul8(r: &mut Registers, operand: u8, signed: bool, negate: bool) -> Told
    ensures { settled_as result.status result.steps r.new ≡ over 0x10 (mode_by false signed negate) operand r.old }
{
    lent(r, |regs| by_value::mul8(regs, operand, signed, negate))
}

pub fn mul16(r: &mut Registers, operand: u16, signed: bool, negate: bool) -> Told
    ensures { settled_as result.status result.steps r.new ≡ over 0x10 (mode_by true signed negate) operand r.old }
{
    lent(r, |regs| by_value::mul16(regs, operand, signed, negate))
}

pub fn div8(r: &mut Registers, operand: u8, signed: bool, negate: bool) -> Told
    ensures { settled_as result.status result.steps r.new ≡ over 0x11 (mode_by false signed negate) operand r.old }
{
    lent(r, |regs| by_value::div8(regs, operand, signed, negate))
}

pub fn div16(r: &mut Registers, operand: u16, signed: bool, negate: bool) -> Told
    ensures { settled_as result.status result.steps r.new ≡ over 0x11 (mode_by true signed negate) operand r.old }
{
    lent(r, |regs| by_value::div16(regs, operand, signed, negate))
}
