// The flags of the last step of a shift or rotate.
ghost use Rattle.std.specs.Prelude.{◌≡◌};
ghost use Rattle.alu.specs.Shift.{of_last, left_o, right_o};
ghost use Rattle.alu.specs.Step.{before};
ghost use Rattle.alu.specs.Views.{co};

use crate::result::ResultCo;
use flags::number::Number;

// A flag of the last step. A count of 0 makes none, and clears the flag; a full turn makes one.
pub fn of_last(count: u8, flag: bool) -> bool
    ensures { result ≡ of_last count flag }
{
    if count == 0 { false } else { flag }
}

// O of SHL, ROL and RCL: C against the new top bit.
pub fn left_o<N: Number>(count: u8, res: N, carry: bool) -> ResultCo<N>
    ensures { co N.value result ≡ left_o N.BITS count (before (N.value res) carry) }
{
    ResultCo {
        result: res,
        carry,
        overflow: of_last(count, carry != res.top_set()),
    }
}

// O of ROR and RCR: the new top bit against the one below it.
pub fn right_o<N: Number>(count: u8, res: N, carry: bool) -> ResultCo<N>
    ensures { co N.value result ≡ right_o N.BITS count (before (N.value res) carry) }
{
    let below_top = res.wide() & (N::TOP >> 1) != 0;
    ResultCo {
        result: res,
        carry,
        overflow: of_last(count, res.top_set() != below_top),
    }
}
