// NEGATE, the microcode routine that signed multiply and divide share, after cpu_808x/muldiv.rs of
// MartyPC. A pair of halves is negated unless the routine is entered past that; then the second
// operand is made positive. The steps so far go in and come out.
#![tactic(auto)]

ghost use Rattle.std.specs.Prelude.{◌≡◌, ◌<◌};
ghost use Rattle.negate.specs.Negate.{pair, second, cor_negate};
ghost use Rattle.negate.specs.Views.{pair_of, negate_of};

use alu::subtraction;
use flags::number::Number;

#[derive(Clone, Copy)]
pub struct Pair<N> {
    pub tmpa: N,
    pub tmpc: N,
    pub neg_flag: bool,
    pub steps: u16,
}

#[derive(Clone, Copy)]
pub struct Negate<N> {
    pub tmpa: N,
    pub tmpb: N,
    pub tmpc: N,
    pub carry: bool,
    pub neg_flag: bool,
    pub steps: u16,
}

// A routine hands on more steps than it is handed, so each asks for a bound of its own, here and in `corx`, `cord`,
// `multiply` and `idiv`.

// Both halves are taken from 0, the upper one with the lower one's borrow.
fn negate_pair<N: Number>(from: Pair<N>) -> Pair<N>
    requires { from.steps < 1000 }
    ensures { pair_of N.value result ≡ pair N.BITS (pair_of N.value from) }
{
    // A number is known to have no more bits than its type once it is read as a wide one.
    let _known = (from.tmpa.wide(), from.tmpc.wide());
    let lower = subtraction::alu_neg(from.tmpc);
    let upper = subtraction::alu_sbb(N::cut(0), from.tmpa, lower.carry);
    Pair {
        tmpa: upper.result,
        tmpc: lower.result,
        neg_flag: !from.neg_flag,
        steps: from.steps + 5,
    }
}

fn make_positive<N: Number>(from: Pair<N>, tmpb: N) -> Negate<N>
    requires { from.steps < 2000 }
    ensures { negate_of N.value result ≡ second N.BITS (N.value tmpb) (pair_of N.value from) }
{
    if tmpb.top_set() {
        let positive = subtraction::alu_neg(tmpb);
        Negate {
            tmpa: from.tmpa,
            tmpb: positive.result,
            tmpc: from.tmpc,
            carry: true,
            neg_flag: !from.neg_flag,
            steps: from.steps + 5,
        }
    } else {
        Negate {
            tmpa: from.tmpa,
            tmpb,
            tmpc: from.tmpc,
            carry: false,
            neg_flag: from.neg_flag,
            steps: from.steps + 6,
        }
    }
}

// `skip` is MartyPC's: where the routine is entered.
pub fn cor_negate<N: Number>(from: Pair<N>, tmpb: N, skip: bool) -> Negate<N>
    requires { from.steps < 1000 }
    ensures { negate_of N.value result ≡ cor_negate N.BITS (pair_of N.value from) (N.value tmpb) skip }
{
    if skip {
        make_positive(from, tmpb)
    } else {
        make_positive(negate_pair(from), tmpb)
    }
}
