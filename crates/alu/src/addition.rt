// ADD and ADC.
ghost use Rattle.std.specs.Prelude.{◌≡◌};
ghost use Rattle.alu.specs.Sum.{add, adc};
ghost use Rattle.alu.specs.Views.{coa};

use crate::result::ResultCoa;
use flags::number::Number;

pub fn alu_add<N: Number>(lhs: N, rhs: N) -> ResultCoa<N>
    ensures { coa N.value result ≡ add N.BITS (N.value lhs) (N.value rhs) }
{
    alu_adc(lhs, rhs, false)
}

pub fn alu_adc<N: Number>(lhs: N, rhs: N, carry_in: bool) -> ResultCoa<N>
    ensures { coa N.value result ≡ adc N.BITS (N.value lhs) (N.value rhs) carry_in }
{
    let (a, b) = (lhs.wide(), rhs.wide());
    let sum = a + b + carry_in as u32;
    let result = N::cut(sum);
    let res = result.wide();
    ResultCoa {
        result,
        carry: sum > N::MAX,
        // Both operands differ in sign from the result.
        overflow: (a ^ res) & (b ^ res) & N::TOP != 0,
        // Bit 4 is not the one that the operands' own bits make: a carry came in from below.
        aux_carry: (a ^ b ^ res) & 0x10 != 0,
    }
}
