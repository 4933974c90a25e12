// What a program in another language is told.
ghost use Rattle.std.specs.Prelude.{◌≡◌};
ghost use Rattle.packed.specs.Told.{status_of, carry_left};

use crate::judge::Refusal;

// Returns the status, a number as C has it. The carry or borrow goes in as 0 or 1; a refusal leaves the byte as it was.
pub fn tell(outcome: Result<bool, Refusal>, carry_out: &mut u8) -> u8
    ensures { (result ≡ status_of outcome) × (carry_out.new ≡ carry_left outcome carry_out.old) }
{
    match outcome {
        Ok(carry) => {
            *carry_out = carry as u8;
            0
        }
        Err(why) => u8::from(why),
    }
}
