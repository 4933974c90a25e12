// A single step of a shift. A shift or rotate by a count is in `at_once`.
ghost use Rattle.std.specs.Prelude.{◌≡◌};
ghost use Rattle.alu.specs.Step.{left, right};
ghost use Rattle.alu.specs.Views.{stepped};

use flags::number::Number;

// A value and the bit that last left it.
#[derive(Drop)]
pub struct Step<N> {
    pub value: N,
    pub carry: bool,
}

#[tactic(auto, unfolding(crate::specs::Step::left))]
pub fn left<N: Number>(enters: bool, value: N) -> Step<N>
    ensures { stepped N.value result ≡ left N.BITS enters (N.value value) }
{
    Step {
        value: N::cut(value.wide() * 2 + enters as u32),
        carry: value.top_set(),
    }
}

#[tactic(auto, unfolding(crate::specs::Step::right))]
pub fn right<N: Number>(enters: bool, value: N) -> Step<N>
    ensures { stepped N.value result ≡ right N.BITS enters (N.value value) }
{
    // A bit that enters stands above the value, and comes down with it.
    let entered = if enters { N::MAX + 1 } else { 0 };
    let wide = value.wide();
    Step {
        value: N::cut((entered + wide) / 2),
        carry: wide & 1 != 0,
    }
}
