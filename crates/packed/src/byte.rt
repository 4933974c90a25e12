// One byte of two digits: ADC and DAA, or SBB and DAS, with the carry handed on.
ghost use Rattle.std.specs.Prelude.{◌≡◌, Bool, true, false};
ghost use Rattle.packed.specs.Digits.{is_packed};
ghost use Rattle.packed.specs.Sum.{operation_of};
ghost use Rattle.packed.specs.Byte.{byte_by, flags_after, of_adjusted};

use alu::result::ResultCoa;
use alu::{addition, subtraction};
use bcd::adjust::Adjusted;
use bcd::{adjust, decimal};
use flags::word::Flags;

#[derive(Clone, Copy, Debug, PartialEq, Eq)]
pub struct Byte {
    pub byte: u8,
    pub carry: bool,
}

// C, O and A as ADC or SBB left them. The adjust reads A and C alone, and sets all six.
fn flags_after(made: ResultCoa<u8>) -> Flags
    ensures { result ≡ flags_after made }
{
    Flags {
        carry: made.carry,
        parity: false,
        aux_carry: made.aux_carry,
        zero: false,
        sign: false,
        overflow: made.overflow,
    }
}

// What the adjust leaves in AL and C. No `From`: an `Adjusted` has more, and the name says what is taken of it.
fn of_adjusted(adjusted: Adjusted) -> Byte
    ensures { result ≡ of_adjusted adjusted }
{
    Byte {
        byte: adjust::al(adjusted.ax),
        carry: adjusted.flags.carry,
    }
}

// What a string is worked out by, byte after byte. It is a type, so that the code for strings is compiled for each.
pub trait Operation {
    ghost subtracts: { Bool };

    fn work_byte(x: u8, y: u8, carry: bool) -> Byte
        requires { (is_packed x ≡ true) × (is_packed y ≡ true) }
        ensures { result ≡ byte_by (operation_of subtracts) x y carry };
}

pub struct Sum;

pub struct Difference;

impl Operation for Sum {
    ghost subtracts = { false };

    #[tactic(auto, using(crate::proofs::ByteLaws::by_adc_daa))]
    fn work_byte(x: u8, y: u8, carry: bool) -> Byte {
        let sum = addition::alu_adc(x, y, carry);
        of_adjusted(decimal::daa(sum.result as u16, flags_after(sum)))
    }
}

impl Operation for Difference {
    ghost subtracts = { true };

    #[tactic(auto, using(crate::proofs::ByteLaws::by_sbb_das))]
    fn work_byte(x: u8, y: u8, borrow: bool) -> Byte {
        let difference = subtraction::alu_sbb(x, y, borrow);
        of_adjusted(decimal::das(difference.result as u16, flags_after(difference)))
    }
}
