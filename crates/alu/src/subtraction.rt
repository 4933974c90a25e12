// SUB, SBB and NEG.
ghost use Rattle.std.specs.Prelude.{◌≡◌};
ghost use Rattle.alu.specs.Sum.{sub, sbb, neg};
ghost use Rattle.alu.specs.Views.{coa};

use crate::result::ResultCoa;
use flags::number::Number;

pub fn alu_neg<N: Number>(value: N) -> ResultCoa<N>
    ensures { coa N.value result ≡ neg N.BITS (N.value value) }
{
    alu_sub(N::cut(0), value)
}

pub fn alu_sub<N: Number>(lhs: N, rhs: N) -> ResultCoa<N>
    ensures { coa N.value result ≡ sub N.BITS (N.value lhs) (N.value rhs) }
{
    alu_sbb(lhs, rhs, false)
}

pub fn alu_sbb<N: Number>(lhs: N, rhs: N, carry_in: bool) -> ResultCoa<N>
    ensures { coa N.value result ≡ sbb N.BITS (N.value lhs) (N.value rhs) carry_in }
{
    let (a, b) = (lhs.wide(), rhs.wide());
    let taken = b + carry_in as u32;
    // One more than the largest number is lent, so that the difference is not below 0.
    let result = N::cut(N::MAX + 1 + a - taken);
    let res = result.wide();
    ResultCoa {
        result,
        carry: a < taken,
        // What is left and what is taken away both differ in sign from the whole.
        overflow: (res ^ a) & (b ^ a) & N::TOP != 0,
        aux_carry: (res ^ b ^ a) & 0x10 != 0,
    }
}
