// CORX, the microcode's multiply: each round takes the lowest bit off the multiplier. The chip adds to the upper
// half and shifts both halves right. Here the product stays in place and the addend shifts left, so no round
// waits for the sum of the round before. The law `chip_walks` says that both ways give the same halves and steps.
#![tactic(auto)]

ghost use Rattle.std.specs.Prelude.{◌≡◌, ◌<◌};
ghost use Rattle.corx.specs.Corx.{corx};
ghost use Rattle.corx.specs.InPlace.{add_round};
ghost use Rattle.corx.specs.Views.{halves};

use flags::number::Number;

// The product: tmpa above, tmpc below.
#[derive(Clone, Copy)]
pub struct Halves<N> {
    pub tmpa: N,
    pub tmpc: N,
    pub steps: u16,
}

// The product so far, the addend of the next round, and the bits of the multiplier that are left. 32 bits hold them
// at either width.
#[derive(Clone, Copy)]
pub struct AddRound {
    pub product: u32,
    pub addend: u32,
    pub multiplier: u32,
    pub steps: u16,
}

// One round, without the jump back. It adds if the multiplier's lowest bit is 1. A branch on that bit would be
// mispredicted half the time, so the addend is multiplied by the bit.
fn corx_round(from: AddRound) -> AddRound
    requires { (from.product < 0x8000_0000) × (from.addend < 0x8000_0000) × (from.steps < 2000) }
    ensures { result ≡ add_round from }
{
    let bit = from.multiplier % 2;
    AddRound {
        product: from.product + from.addend * bit,
        addend: from.addend * 2,
        multiplier: from.multiplier / 2,
        steps: from.steps + 5 + bit as u16,
    }
}

// The last round leaves the loop before the jump back. The carry enters above the multiplier's top bit, and no
// round reaches it there. A loop that yields by `break`, and no `for`: docs/DECISIONS.md, 'Forms'.
pub fn corx<N: Number>(tmpb: N, tmpc: N, carry: bool, steps: u16) -> Halves<N>
    requires { steps < 1000 }
    ensures { halves N.value result ≡ corx N.BITS (N.value tmpb) (N.value tmpc) steps }
{
    let mut at = AddRound {
        product: 0,
        addend: tmpb.wide(),
        multiplier: ((carry as u32) << N::BITS) + tmpc.wide(),
        steps: steps + 2,
    };
    let mut internal_counter = N::BITS - 1;
    loop {
        at = corx_round(at);
        if internal_counter == 0 {
            break Halves {
                tmpa: N::cut(at.product >> N::BITS),
                tmpc: N::cut(at.product),
                steps: at.steps + 2,
            };
        }
        internal_counter -= 1;
        at.steps += 1;
    }
}
