// The multiplies: PREIMUL makes signed factors positive, CORX multiplies, NEGATE puts the sign back
// or does what REP asks, and IMULCOF or MULCOF sets the flags.
ghost use Rattle.std.specs.Prelude.{◌≡◌, cond, ◌^◌, ◌<◌};
ghost use Rattle.corx.specs.Views.{halves};
ghost use Rattle.negate.specs.Views.{negate_of};
ghost use Rattle.multiply.specs.Routines.{preimul, multiplied, mulcof, widened, imulcof};
ghost use Rattle.multiply.specs.Multiply.{multiply};
ghost use Rattle.multiply.specs.Views.{product};

use alu::{addition, subtraction};
use corx::Halves;
use flags::number::Number;
use flags::word::Flags;
use negate::{Negate, Pair};

#[derive(Clone, Copy)]
pub struct Product<N> {
    pub upper: N,
    pub lower: N,
    pub flags: Flags,
    pub steps: u16,
}

// The first factor's sign goes into the flag here, the second's in NEGATE.
fn preimul<N: Number>(factor: N, operand: N, negate: bool) -> Negate<N>
    ensures { negate_of N.value result ≡ preimul N.BITS (N.value factor) (N.value operand) negate }
{
    let from = Pair {
        tmpa: N::cut(0),
        tmpc: factor,
        neg_flag: negate,
        steps: 6,
    };
    if factor.top_set() {
        let positive = Pair {
            tmpc: subtraction::alu_neg(factor).result,
            neg_flag: !negate,
            steps: 8,
            ..from
        };
        negate::cor_negate(positive, operand, true)
    } else {
        negate::cor_negate(from, operand, true)
    }
}

// The product of two factors that are no longer signed, negated where the flag says so.
fn multiplied<N: Number>(factors: Negate<N>) -> Halves<N>
    requires { factors.steps < 100 }
    ensures { halves N.value result ≡ multiplied N.BITS (negate_of N.value factors) }
{
    // A number is known to have no more bits than its type once it is read as a wide one.
    let _known = factors.tmpc.wide();
    let product = corx::corx(factors.tmpb, factors.tmpc, factors.carry, factors.steps + 2);
    let steps = product.steps + 2;
    if factors.neg_flag {
        let from = Pair {
            tmpa: product.tmpa,
            tmpc: product.tmpc,
            neg_flag: true,
            steps,
        };
        let negated = negate::cor_negate(from, factors.tmpb, false);
        Halves {
            tmpa: negated.tmpa,
            tmpc: negated.tmpc,
            steps: negated.steps + 1,
        }
    } else {
        Halves { steps, ..product }
    }
}

// The steps of MULCOF and IMULCOF: clearing the flags takes one more than setting them.
fn cof_tail(carry: bool) -> u16
    ensures { (result ≡ cond carry 9 10) × (result < 11) }
{
    if carry { 9 } else { 10 }
}

fn mulcof<N: Number>(from: Halves<N>, flags: Flags) -> Product<N>
    requires { from.steps < 2000 }
    ensures product { product N.BITS N.value result ≡ mulcof N.BITS (halves N.value from) flags }
    ensures lower { result.lower ≡ from.tmpc }
{
    let carry = from.tmpa.wide() != 0;
    Product {
        upper: from.tmpa,
        lower: from.tmpc,
        flags: flags.with_co(carry, carry),
        steps: from.steps + cof_tail(carry),
    }
}

// A half as a signed word: a byte's top bit is repeated above it, and a word is one already.
fn sign_extended<N: Number>(half: N) -> u16
    ensures { result ≡ widened N.BITS (N.value half) }
{
    if half.top_set() {
        (half.wide() + (0xFFFF - N::MAX)) as u16
    } else {
        half.wide() as u16
    }
}

// The upper half with the lower half's top bit added is 0 exactly where it only repeats that bit. The sum has 16 bits
// at either width: S of 7F and 1 is clear, as of 007F and 1.
fn imulcof<N: Number>(from: Halves<N>, flags: Flags) -> Product<N>
    requires { from.steps < 2000 }
    ensures product { product N.BITS N.value result ≡ imulcof N.BITS (halves N.value from) flags }
    ensures lower { result.lower ≡ from.tmpc }
{
    let upper = sign_extended(from.tmpa);
    let sum = addition::alu_adc(upper, 0, from.tmpc.top_set());
    let carry = sum.result != 0;
    let named = flags.with_coa(carry, carry, sum.aux_carry);
    Product {
        upper: from.tmpa,
        lower: from.tmpc,
        flags: named.set_szp_flags_from_result(sum.result),
        steps: from.steps + cof_tail(carry),
    }
}

pub fn mul<N: Number>(factor: N, operand: N, signed: bool, negate: bool, flags: Flags) -> Product<N>
    ensures product { product N.BITS N.value result ≡ multiply N.BITS signed negate (N.value factor) (N.value operand) flags }
    ensures lower { N.value result.lower < 2 ^ N.BITS }
{
    // A number is known to have no more bits than its type once it is read as a wide one.
    let _known = (factor.wide(), operand.wide());
    if signed {
        let factors = preimul(factor, operand, negate);
        imulcof(multiplied(factors), flags)
    } else {
        let factors = Negate {
            tmpa: N::cut(0),
            tmpb: operand,
            tmpc: factor,
            carry: factor.top_set(),
            neg_flag: negate,
            steps: 2,
        };
        mulcof(multiplied(factors), flags)
    }
}
