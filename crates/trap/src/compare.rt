// Whether a divide is refused, with no quotient worked out: one comparison of the dividend's magnitude
// with the divisor's. Both are held in 64 bits, since a negative dividend of 32 bits is taken from 2 ^ 32.
// The width is a number of bits, and only `divide_traps` is over the trait Number: a dividend may have 32, which no
// Number has.
ghost use Rattle.std.specs.Prelude.{true, not, ◌≡◌, ◌+◌, ◌*◌, ◌^◌, ◌≤◌, ◌<◌};
ghost use Rattle.numbers.specs.Numbers.{magnitude};
ghost use Rattle.divide.specs.Divide.{accepts};

use flags::number::Number;

fn power(bits: u32) -> u64
    requires { bits ≤ 32 }
    ensures { result ≡ 2 ^ bits }
{
    1 << bits
}

// The magnitude of a signed number.
pub fn magnitude_of(bits: u32, number: u64) -> u64
    requires { (number < 2 ^ bits) × (8 ≤ bits) × (bits ≤ 32) }
    ensures { result ≡ magnitude true bits number }
{
    if number >> (bits - 1) != 0 {
        power(bits) - number
    } else {
        number
    }
}

// Whether the dividend is at least 2 ^ bits times the divisor. Signed, half as many times are too many: the
// quotient needs a bit for its sign.
pub fn would_trap(bits: u32, dividend: u64, divisor: u64, signed: bool) -> bool
    requires { (dividend < 2 ^ (bits + bits)) × (divisor < 2 ^ bits) × (8 ≤ bits) × (bits ≤ 16) }
    ensures { result ≡ not (accepts bits signed dividend divisor) }
{
    if signed {
        let dividend_magnitude = magnitude_of(bits + bits, dividend);
        let divisor_magnitude = magnitude_of(bits, divisor);
        power(bits - 1) * divisor_magnitude <= dividend_magnitude
    } else {
        power(bits) * divisor <= dividend
    }
}

// The dividend is given as its two halves, as the divide takes it. REP changes nothing of it, so there is none here.
pub fn divide_traps<N: Number>(upper: N, lower: N, divisor: N, signed: bool) -> bool
    ensures { result ≡ not (accepts N.BITS signed (N.value upper * 2 ^ N.BITS + N.value lower) (N.value divisor)) }
{
    let dividend = ((upper.wide() as u64) << N::BITS) + lower.wide() as u64;
    would_trap(N::BITS, dividend, divisor.wide() as u64, signed)
}
