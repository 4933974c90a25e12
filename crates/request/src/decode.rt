// Decodes an op and a mode into an operation. Both are matched as one number, with an arm for each, so the compiled
// code reaches the operation's own work by one jump. One arm for both widths, or a match on op and then on mode, is
// shorter, but was tried and a request took 1.2 to 1.3 times as long: the width was branched on again.
ghost use Rattle.std.specs.Prelude.{◌≡◌};
ghost use Rattle.request.specs.Operation.{alu_at, multiplies, divides, operation_of};

use crate::operation::{Alu, Decimal, Mode, Operation, Width};

// Why an op and a mode name no operation: an unlisted op is status 3, a wrong mode status 4.
#[derive(Clone, Copy, Debug, PartialEq, Eq)]
pub enum Undecoded {
    Unlisted,
    WrongMode,
}

// The ALU operations. The only mode bit that they take is the width.
#[tactic(auto, using(crate::proofs::RequestLaws::at_alu), unfolding(crate::specs::Operation::alu_at, crate::specs::Operation::operation_of, crate::specs::Operation::listed, crate::specs::Operation::ops))]
fn alu_at(key: u16) -> Option<(Alu, Width)>
    ensures { result ≡ alu_at key }
{
    match key {
        0x00 => Some((Alu::Add, Width::Byte)),
        0x01 => Some((Alu::Add, Width::Word)),
        0x08 => Some((Alu::Adc, Width::Byte)),
        0x09 => Some((Alu::Adc, Width::Word)),
        0x10 => Some((Alu::Sub, Width::Byte)),
        0x11 => Some((Alu::Sub, Width::Word)),
        0x18 => Some((Alu::Sbb, Width::Byte)),
        0x19 => Some((Alu::Sbb, Width::Word)),
        0x20 => Some((Alu::Neg, Width::Byte)),
        0x21 => Some((Alu::Neg, Width::Word)),
        0x28 => Some((Alu::Shl, Width::Byte)),
        0x29 => Some((Alu::Shl, Width::Word)),
        0x30 => Some((Alu::Shr, Width::Byte)),
        0x31 => Some((Alu::Shr, Width::Word)),
        0x38 => Some((Alu::Sar, Width::Byte)),
        0x39 => Some((Alu::Sar, Width::Word)),
        0x40 => Some((Alu::Rol, Width::Byte)),
        0x41 => Some((Alu::Rol, Width::Word)),
        0x48 => Some((Alu::Ror, Width::Byte)),
        0x49 => Some((Alu::Ror, Width::Word)),
        0x50 => Some((Alu::Rcl, Width::Byte)),
        0x51 => Some((Alu::Rcl, Width::Word)),
        0x58 => Some((Alu::Rcr, Width::Byte)),
        0x59 => Some((Alu::Rcr, Width::Word)),
        0x60 => Some((Alu::ShlAf, Width::Byte)),
        0x61 => Some((Alu::ShlAf, Width::Word)),
        _ => None,
    }
}

// This and the next differ in one constructor, and each has a definition of its own.
fn multiply(width: Width, signed: bool, rep: bool) -> Result<Operation, Undecoded>
    ensures { result ≡ multiplies width signed rep }
{
    Ok(Operation::Multiply(Mode { width, signed, rep }))
}

fn divide(width: Width, signed: bool, rep: bool) -> Result<Operation, Undecoded>
    ensures { result ≡ divides width signed rep }
{
    Ok(Operation::Divide(Mode { width, signed, rep }))
}

// Why a key names no operation: its op is not listed, or it is and the mode does not fit it.
fn refused(op: u8) -> Result<Operation, Undecoded>
    ensures { result ≡ operation_of op 0x08 }
{
    match op {
        0x00..=0x0C => Err(Undecoded::WrongMode),
        0x10..=0x11 => Err(Undecoded::WrongMode),
        0x18..=0x1C => Err(Undecoded::WrongMode),
        _ => Err(Undecoded::Unlisted),
    }
}

// A multiply or divide takes width, sign rule and REP. An adjust takes no mode bit.
#[tactic(auto, using(crate::proofs::RequestLaws::at_key), unfolding(crate::specs::Operation::operation_of, crate::specs::Operation::listed, crate::specs::Operation::ops))]
pub fn decode(op: u8, mode: u8) -> Result<Operation, Undecoded>
    ensures { result ≡ operation_of op mode }
{
    if mode > 0x07 {
        return refused(op);
    }
    let key = op as u16 * 8 + mode as u16;
    if let Some((alu, width)) = alu_at(key) {
        return Ok(Operation::Alu(alu, width));
    }
    match key {
        0x80 => multiply(Width::Byte, false, false),
        0x81 => multiply(Width::Word, false, false),
        0x82 => multiply(Width::Byte, true, false),
        0x83 => multiply(Width::Word, true, false),
        0x84 => multiply(Width::Byte, false, true),
        0x85 => multiply(Width::Word, false, true),
        0x86 => multiply(Width::Byte, true, true),
        0x87 => multiply(Width::Word, true, true),
        0x88 => divide(Width::Byte, false, false),
        0x89 => divide(Width::Word, false, false),
        0x8A => divide(Width::Byte, true, false),
        0x8B => divide(Width::Word, true, false),
        0x8C => divide(Width::Byte, false, true),
        0x8D => divide(Width::Word, false, true),
        0x8E => divide(Width::Byte, true, true),
        0x8F => divide(Width::Word, true, true),
        0xC0 => Ok(Operation::Decimal(Decimal::Aaa)),
        0xC8 => Ok(Operation::Decimal(Decimal::Aas)),
        0xD0 => Ok(Operation::Decimal(Decimal::Aad)),
        0xD8 => Ok(Operation::Decimal(Decimal::Daa)),
        0xE0 => Ok(Operation::Decimal(Decimal::Das)),
        _ => refused(op),
    }
}
