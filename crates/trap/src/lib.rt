// Whether a divide given as numbers, which no caller has checked, would trap.
#![tactic(auto)]

pub mod compare;
pub mod told;

ghost use Rattle.std.specs.Prelude.{◌≡◌};
ghost use Rattle.trap.specs.declared.Unasked.TheVariants.{TooLarge};
ghost use Rattle.trap.specs.Told.{told_as, would_trap};

use flags::number::Number;
use std::num::TryFromIntError;

// Why a divide cannot be asked about: it has no such mode, which is status 4, or takes no such operand, status 5.
#[derive(Clone, Copy, Debug, PartialEq, Eq)]
pub enum Unasked {
    WrongMode,
    TooLarge,
}

// An operand that does not fit its width.
impl From<TryFromIntError> for Unasked {
    ghost from_gives = { λ _ e. e ≡ TooLarge };

    fn from(_: TryFromIntError) -> Unasked {
        Unasked::TooLarge
    }
}

// The limits of a divide are tested here and in `roads`, each time for the types that follow. They are in `answer` too,
// and the law `told_by-rows` holds them to the table of statuses. With a second caller the compiler would no longer
// inline `request::decode` into `ask`, and every request would take longer.
#[tactic(auto, using(crate::proofs::Rows::told_mode, crate::proofs::Rows::told_word, crate::proofs::Rows::told_byte_large, crate::proofs::Rows::told_byte))]
pub fn would_trap(mode: u8, dividend: u32, divisor: u16) -> Result<bool, Unasked>
    ensures { told_as result ≡ would_trap mode dividend divisor }
{
    if mode > 0x07 {
        return Err(Unasked::WrongMode);
    }
    let signed = mode & 0x02 != 0;
    if mode & 0x01 != 0 {
        let (upper, lower) = (u16::cut(dividend >> 16), u16::cut(dividend));
        return Ok(compare::divide_traps(upper, lower, divisor, signed));
    }
    let [upper, lower] = u16::try_from(dividend)?.to_be_bytes();
    let divisor = u8::try_from(divisor)?;
    Ok(compare::divide_traps(upper, lower, divisor, signed))
}
