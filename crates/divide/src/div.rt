// The divides. CORD tells which compare it made last and what C is then, so that the flags are those
// of one compare, accepted or refused.
ghost use Rattle.std.specs.Prelude.{◌≡◌, true, false, ◌+◌, ◌*◌, ◌^◌};
ghost use Rattle.cord.specs.Views.{roads};
ghost use Rattle.divide.specs.Flags.{compare_flags};
ghost use Rattle.divide.specs.Divide.{divide};
ghost use Rattle.divide.specs.Finish.{first_refusal, finished};
ghost use Rattle.idiv.specs.Views.{post_answer};
ghost use Rattle.divide.specs.Views.{divided};

use alu::subtraction;
use cord::{CordAnswer, Results, Roads};
use flags::number::Number;
use flags::word::Flags;
use idiv::PostIdiv;
use negate::{Negate, Pair};

// Why a divide was refused: by a divisor of 0, a quotient that its width does not hold, or one that
// the width holds, but not with a sign.
#[derive(Clone, Copy, Debug, PartialEq, Eq)]
pub enum Refusal {
    ZeroDivisor,
    TooWide,
    SignRange,
}

// CORD's first compare refuses for either of two reasons, and the divisor tells which.
fn first_refusal<N: Number>(divisor: N) -> Refusal
    ensures { result ≡ first_refusal (N.value divisor) }
{
    if divisor.wide() == 0 {
        Refusal::ZeroDivisor
    } else {
        Refusal::TooWide
    }
}

// The ones by each road are CORD's, and none where the divide is refused.
#[derive(Clone, Copy)]
pub struct Divided<N> {
    pub outcome: Result<Results<N>, Refusal>,
    pub flags: Flags,
    pub roads: Roads,
    pub steps: u16,
}

// The flags of a compare. The setter is that of 16 bits at either width, so S is clear at 8.
fn compare_flags<N: Number>(flags: Flags, left: N, right: N, carry: bool) -> Flags
    ensures { result ≡ compare_flags N.BITS (N.value left) (N.value right) carry flags }
{
    let compare = subtraction::alu_sub(left, right);
    let named = flags.with_coa(carry, compare.overflow, compare.aux_carry);
    named.set_szp_flags_from_result(compare.result.wide() as u16)
}

fn unsigned_div<N: Number>(upper: N, lower: N, divisor: N, flags: Flags) -> Divided<N>
    ensures { divided N.value result ≡ divide N.BITS false false (N.value upper * 2 ^ N.BITS + N.value lower) (N.value divisor) flags }
{
    // Read as a wide one, it is known to have no more bits than its type.
    let _known = divisor.wide();
    let CordAnswer {
        outcome,
        carry,
        compared,
        roads,
        steps,
    } = cord::cord(upper, divisor, lower, 5);
    let compare = compare_flags(flags, compared, divisor, carry);
    match outcome {
        Some(results) => Divided {
            outcome: Ok(results),
            flags: compare,
            roads,
            steps: steps + 2,
        },
        None => Divided {
            outcome: Err(first_refusal(divisor)),
            flags: compare,
            roads: Roads::NONE,
            steps,
        },
    }
}

// What POSTIDIV's answer makes of the divide. Only where it is accepted are C and O cleared, and the ones of
// CORD's walk passed on.
fn finish<N: Number>(post: PostIdiv<N>, compare: Flags, walk: Roads) -> Divided<N>
    ensures { divided N.value result ≡ finished (post_answer N.value post) compare (roads walk) }
{
    let PostIdiv { outcome, steps } = post;
    match outcome {
        Some(results) => Divided {
            outcome: Ok(results),
            flags: compare.with_co(false, false),
            roads: walk,
            steps,
        },
        None => Divided {
            outcome: Err(Refusal::SignRange),
            flags: compare,
            roads: Roads::NONE,
            steps,
        },
    }
}

fn signed_div<N: Number>(upper: N, lower: N, divisor: N, negate: bool, flags: Flags) -> Divided<N>
    ensures { divided N.value result ≡ divide N.BITS true negate (N.value upper * 2 ^ N.BITS + N.value lower) (N.value divisor) flags }
{
    // Read as wide ones, they are known to have no more bits than their type.
    let _known = (upper.wide(), lower.wide(), divisor.wide());
    let from = Pair {
        tmpa: upper,
        tmpc: lower,
        neg_flag: negate,
        steps: 4,
    };
    let Negate {
        tmpa,
        tmpb,
        tmpc,
        neg_flag,
        steps,
        ..
    } = idiv::pre_idiv(from, divisor);
    let CordAnswer {
        outcome,
        carry,
        compared,
        roads,
        steps,
    } = cord::cord(tmpa, tmpb, tmpc, steps + 2);
    let compare = compare_flags(flags, compared, tmpb, carry);
    match outcome {
        Some(results) => {
            let post = idiv::post_idiv(results, upper, carry, neg_flag, steps + 3);
            finish(post, compare, roads)
        }
        None => Divided {
            outcome: Err(first_refusal(divisor)),
            flags: compare,
            roads: Roads::NONE,
            steps,
        },
    }
}

// REP negates a signed quotient and changes nothing else. The arguments are plain, as MartyPC's are. The dividend is given as its two halves, as the chip
// holds it.
pub fn div<N: Number>(
    upper: N,
    lower: N,
    divisor: N,
    signed: bool,
    negate: bool,
    flags: Flags,
) -> Divided<N>
    ensures { divided N.value result ≡ divide N.BITS signed negate (N.value upper * 2 ^ N.BITS + N.value lower) (N.value divisor) flags }
{
    if signed {
        signed_div(upper, lower, divisor, negate, flags)
    } else {
        unsigned_div(upper, lower, divisor, flags)
    }
}
