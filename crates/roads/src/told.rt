// What a program in another language is told.
ghost use Rattle.std.specs.Prelude.{◌≡◌};
ghost use Rattle.roads.specs.Told.{tallied, told_as, status_of};

use crate::Refusal;
use cord::Roads;
use divide::div;
use trap::Unasked;

impl From<Refusal> for u8 {
    fn from(why: Refusal) -> u8
        ensures { result ≡ status_of why }
    {
        match why {
            Refusal::Unasked(Unasked::WrongMode) => 4,
            Refusal::Unasked(Unasked::TooLarge) => 5,
            Refusal::Divide(div::Refusal::ZeroDivisor) => 6,
            Refusal::Divide(div::Refusal::TooWide) => 8,
            Refusal::Divide(div::Refusal::SignRange) => 9,
        }
    }
}

// Returns the status, and both tallies go into `roads`. A divide that is not done has no ones to count.
pub fn tell(answer: Result<Roads, Refusal>, roads: &mut [u16; 2]) -> u8
    ensures { tallied result roads.new ≡ told_as answer }
{
    match answer {
        Ok(tallies) => {
            *roads = [tallies.shifted_out, tallies.no_borrow];
            0
        }
        Err(why) => {
            *roads = [0, 0];
            u8::from(why)
        }
    }
}
