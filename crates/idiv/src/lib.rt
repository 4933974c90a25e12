// PREIDIV, which makes dividend and divisor positive, and POSTIDIV, which gives quotient and remainder
// their signs or refuses a quotient that is too large for them, after cpu_808x/muldiv.rs of MartyPC.
#![tactic(auto)]

ghost use Rattle.std.specs.Prelude.{◌≡◌, ◌<◌};
ghost use Rattle.negate.specs.Views.{pair_of, negate_of};
ghost use Rattle.idiv.specs.Idiv.{pre_idiv, post_idiv, with_sign};
ghost use Rattle.cord.specs.Views.{results};
ghost use Rattle.idiv.specs.Views.{post_answer};

use alu::subtraction;
use cord::Results;
use flags::number::Number;
use negate::{Negate, Pair};

// Quotient and remainder with their signs, or none where the quotient is too large for its sign; and the steps.
#[derive(Clone, Copy)]
pub struct PostIdiv<N> {
    pub outcome: Option<Results<N>>,
    pub steps: u16,
}

pub fn pre_idiv<N: Number>(dividend: Pair<N>, tmpb: N) -> Negate<N>
    requires { dividend.steps < 100 }
    ensures { negate_of N.value result ≡ pre_idiv N.BITS (pair_of N.value dividend) (N.value tmpb) }
{
    // Past the pair the lower half stays as it is. Read as a wide one, it is known to have no more bits than its type.
    let _known = dividend.tmpc.wide();
    if dividend.tmpa.top_set() {
        let from = Pair {
            steps: dividend.steps + 2,
            ..dividend
        };
        negate::cor_negate(from, tmpb, false)
    } else {
        let from = Pair {
            steps: dividend.steps + 3,
            ..dividend
        };
        negate::cor_negate(from, tmpb, true)
    }
}

// A magnitude with its sign, in two's complement.
fn with_sign<N: Number>(negative: bool, magnitude: N) -> N
    ensures { N.value result ≡ with_sign N.BITS negative (N.value magnitude) }
{
    if negative {
        subtraction::alu_neg(magnitude).result
    } else {
        magnitude
    }
}

// The remainder takes the sign of the dividend, whose upper half tells it.
pub fn post_idiv<N: Number>(
    magnitudes: Results<N>,
    upper: N,
    carry: bool,
    negate: bool,
    steps: u16,
) -> PostIdiv<N>
    requires { steps < 1000 }
    ensures { post_answer N.value result ≡ post_idiv N.BITS (results N.value magnitudes) (N.value upper) carry negate steps }
{
    if !carry {
        return PostIdiv {
            outcome: None,
            steps: steps + 2,
        };
    }
    PostIdiv {
        outcome: Some(Results {
            quotient: with_sign(negate, magnitudes.quotient),
            remainder: with_sign(upper.top_set(), magnitudes.remainder),
        }),
        steps: steps + 10,
    }
}
