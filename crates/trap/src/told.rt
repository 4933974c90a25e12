// What a program in another language is told.
ghost use Rattle.std.specs.Prelude.{◌≡◌};
ghost use Rattle.trap.specs.Told.{trap_told, told_as};

use crate::Unasked;

// Returns the status, and 0 or 1 goes into `trap`. What cannot be asked is said to trap, so that who looks at nothing
// else sees closed.
pub fn tell(answer: Result<bool, Unasked>, trap: &mut u8) -> u8
    ensures { trap_told result trap.new ≡ told_as answer }
{
    *trap = answer.unwrap_or(true) as u8;
    match answer {
        Ok(_) => 0,
        Err(Unasked::WrongMode) => 4,
        Err(Unasked::TooLarge) => 5,
    }
}
