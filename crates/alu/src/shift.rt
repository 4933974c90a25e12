// SHL, SHL with A, SHR and SAR. C is one bit more: above the value leftward, and rightward below it, for
// which the value is doubled first.
#![tactic(auto, using(crate::proofs::WithC::moved_fits))]

ghost use Rattle.std.specs.Prelude.{◌≡◌};
ghost use Rattle.alu.specs.Shift.{shl, shl_af, shr, sar};
ghost use Rattle.alu.specs.Views.{c, co, coa};

use crate::result::{ResultC, ResultCo, ResultCoa};
use crate::{at_once, last};
use flags::number::Number;

pub fn alu_shl<N: Number>(value: N, count: u8) -> ResultCo<N>
    ensures { co N.value result ≡ shl N.BITS (N.value value) count }
{
    let moved = at_once::shl(N::BITS + 1, value.wide() as u64, count) as u32;
    last::left_o(count, N::cut(moved), moved > N::MAX)
}

// One opcode of the chip sets A too, to bit 4 of the last result.
pub fn alu_shl_af<N: Number>(value: N, count: u8) -> ResultCoa<N>
    ensures { coa N.value result ≡ shl_af N.BITS (N.value value) count }
{
    let shifted = alu_shl(value, count);
    ResultCoa {
        result: shifted.result,
        carry: shifted.carry,
        overflow: shifted.overflow,
        aux_carry: last::of_last(count, shifted.result.wide() & 0x10 != 0),
    }
}

// SHR and SAR, as the rotates in `rotate`, differ in what they call: with that as a closure each would be longer.
pub fn alu_shr<N: Number>(value: N, count: u8) -> ResultC<N>
    ensures { c N.value result ≡ shr N.BITS (N.value value) count }
{
    let moved = at_once::shr(N::BITS + 1, value.wide() as u64 * 2, count) as u32;
    ResultC {
        result: N::cut(moved / 2),
        carry: moved & 1 != 0,
    }
}

pub fn alu_sar<N: Number>(value: N, count: u8) -> ResultC<N>
    ensures { c N.value result ≡ sar N.BITS (N.value value) count }
{
    let moved = at_once::sar(N::BITS + 1, value.wide() as u64 * 2, count) as u32;
    ResultC {
        result: N::cut(moved / 2),
        carry: moved & 1 != 0,
    }
}
