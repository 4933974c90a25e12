// ROL, RCL, ROR and RCR. Through C, C is one bit more above the value; else it is the bit that last came
// round, which stands in the result.
#![tactic(auto, using(crate::proofs::WithC::moved_fits))]

ghost use Rattle.std.specs.Prelude.{◌≡◌, ◌+◌, ◌*◌, ◌^◌, ◌<◌};
ghost use Rattle.numbers.specs.Numbers.{bit};
ghost use Rattle.alu.specs.Shift.{rol, rcl, ror, rcr};
ghost use Rattle.alu.specs.Views.{co};

use crate::result::ResultCo;
use crate::{at_once, last};
use flags::number::Number;

// C is put above the value, as one bit more.
fn with_c_above<N: Number>(value: N, carry: bool) -> u64
    ensures value { result ≡ bit carry * 2 ^ N.BITS + N.value value }
    ensures fits { N.value value < 2 ^ N.BITS }
{
    (carry as u64) << N::BITS | value.wide() as u64
}

pub fn alu_rol<N: Number>(value: N, count: u8) -> ResultCo<N>
    ensures { co N.value result ≡ rol N.BITS (N.value value) count }
{
    let result = N::cut(at_once::rol(N::BITS, value.wide() as u64, count) as u32);
    let carry = last::of_last(count, result.wide() & 1 != 0);
    last::left_o(count, result, carry)
}

pub fn alu_rcl<N: Number>(value: N, count: u8, carry: bool) -> ResultCo<N>
    ensures { co N.value result ≡ rcl N.BITS (N.value value) count carry }
{
    let turned = at_once::rol(N::BITS + 1, with_c_above(value, carry), count) as u32;
    last::left_o(count, N::cut(turned), turned > N::MAX)
}

pub fn alu_ror<N: Number>(value: N, count: u8) -> ResultCo<N>
    ensures { co N.value result ≡ ror N.BITS (N.value value) count }
{
    let result = N::cut(at_once::ror(N::BITS, value.wide() as u64, count) as u32);
    let carry = last::of_last(count, result.top_set());
    last::right_o(count, result, carry)
}

pub fn alu_rcr<N: Number>(value: N, count: u8, carry: bool) -> ResultCo<N>
    ensures { co N.value result ≡ rcr N.BITS (N.value value) count carry }
{
    let turned = at_once::ror(N::BITS + 1, with_c_above(value, carry), count) as u32;
    last::right_o(count, N::cut(turned), turned > N::MAX)
}
