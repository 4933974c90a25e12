// CORD, the microcode's divide of magnitudes, after cpu_808x/muldiv.rs of MartyPC. Each round shifts one bit of
// the dividend out on the left and one bit of the quotient in on the right. The chip collects the quotient's
// complement and inverts it at the end; here the quotient itself is collected.
#![tactic(auto)]

ghost use Rattle.std.specs.Prelude.{◌≡◌, ◌+◌, ◌*◌, ◌/◌, ◌^◌, ◌<◌};
ghost use Rattle.cord.specs.Round.{cord_round};
ghost use Rattle.cord.specs.Cord.{cord};
ghost use Rattle.cord.specs.Views.{round, cord_answer};

use flags::number::Number;

// How many ones of the quotient came by each road that makes a one.
#[derive(Clone, Copy)]
pub struct Roads {
    pub shifted_out: u16,
    pub no_borrow: u16,
}

impl Roads {
    // Where there is no quotient, or no round yet. The name is that of the definition, `no_roads`.
    pub const NONE: Roads = Roads {
        shifted_out: 0,
        no_borrow: 0,
    };
}

// `both` holds the two halves as one number, the upper half on top. `compared` is `both` as it stood in the last
// compare; its upper half sets the flags. The steps follow from the ones by no borrow. The two counts stand by
// themselves here: as one `Roads` in each round they cost CORD 4 parts in 10 more time at 16 bits.
#[derive(Clone, Copy)]
pub struct CordRound {
    pub both: u64,
    pub compared: u64,
    pub shifted_out: u16,
    pub no_borrow: u16,
}

#[derive(Clone, Copy)]
pub struct Results<N> {
    pub quotient: N,
    pub remainder: N,
}

// Accepted, with its results, or refused, CORD returns C, the left side of the last compare, the ones by each road
// and the steps.
#[derive(Clone, Copy)]
pub struct CordAnswer<N> {
    pub outcome: Option<Results<N>>,
    pub carry: bool,
    pub compared: N,
    pub roads: Roads,
    pub steps: u16,
}

// One round, by one of three roads: a bit shifted out, no borrow, borrow. `with_one` is the shifted number with the
// quotient's one already in it, so the subtraction does not wait for that bit.
fn cord_round<N: Number>(from: CordRound, tmpb: N) -> CordRound
    requires { (from.both / 2 ^ N.BITS < N.value tmpb) × (from.shifted_out < 100) × (from.no_borrow < 100) }
    ensures { round N.BITS result ≡ cord_round N.BITS (N.value tmpb) (round N.BITS from) }
{
    let divisor = (tmpb.wide() as u64) << N::BITS;
    let shifted = from.both * 2;
    let with_one = shifted + 1;
    if 1 << (2 * N::BITS) <= shifted {
        return CordRound {
            both: with_one - divisor,
            shifted_out: from.shifted_out + 1,
            ..from
        };
    }
    if divisor <= shifted {
        CordRound {
            both: with_one - divisor,
            compared: shifted,
            no_borrow: from.no_borrow + 1,
            ..from
        }
    } else {
        CordRound {
            both: shifted,
            compared: shifted,
            ..from
        }
    }
}

// The quotient fits its half exactly if the upper half is below the divisor, so one compare decides. If it fits,
// there are 3 steps before the rounds, 7 in each, 1 for each jump back and 4 at the end: 6, and 8 a round.
// A one by no borrow takes 1 more, and an odd quotient 2.
pub fn cord<N: Number>(tmpa: N, tmpb: N, tmpc: N, steps: u16) -> CordAnswer<N>
    requires { steps < 100 }
    ensures { cord_answer N.value result ≡ cord N.BITS (N.value tmpb) (N.value tmpa * 2 ^ N.BITS + N.value tmpc) steps }
{
    let whole = ((tmpa.wide() as u64) << N::BITS) + tmpc.wide() as u64;
    if tmpb.wide() <= tmpa.wide() {
        return CordAnswer {
            outcome: None,
            carry: false,
            compared: tmpa,
            roads: Roads::NONE,
            steps: steps + 4,
        };
    }
    let mut at = CordRound {
        both: whole,
        compared: whole,
        shifted_out: 0,
        no_borrow: 0,
    };
    for _ in 0..N::BITS {
        at = cord_round(at, tmpb);
    }
    let quotient = N::cut(at.both as u32);
    let remainder = N::cut((at.both >> N::BITS) as u32);
    CordAnswer {
        outcome: Some(Results {
            quotient,
            remainder,
        }),
        carry: !quotient.top_set(),
        compared: N::cut((at.compared >> N::BITS) as u32),
        roads: Roads {
            shifted_out: at.shifted_out,
            no_borrow: at.no_borrow,
        },
        steps: steps + 6 + 8 * N::BITS as u16 + at.no_borrow + 2 * (quotient.wide() & 1) as u16,
    }
}
