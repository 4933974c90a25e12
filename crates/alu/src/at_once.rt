// A number of 8, 9, 16 or 17 bits, shifted or rotated by a whole count at once. Where C is wanted, the
// number has one bit more than its operation, above the value or below it: what stands there after the
// move is C.
// So the bits are an argument and no type. What a function asks of them and of the number stays in its contract:
// a struct with that as its invariant would ask more of a caller.
ghost use Rattle.std.specs.Prelude.{false, ◌≡◌, min, ◌+◌, ◌-◌, ◌*◌, ◌/◌, ◌%◌, ◌^◌, ◌≤◌, ◌<◌};
ghost use Rattle.numbers.specs.Numbers.{bit, top_set};
ghost use Rattle.alu.specs.Step.{Shl, Shr, Sar, Rol, Ror, before, steps};

// The largest number of so many bits.
fn ones(bits: u32) -> u64
    requires { bits ≤ 17 }
    ensures { result ≡ 2 ^ bits - 1 }
{
    (1 << bits) - 1
}

// A shift that has moved all places of a number changes nothing more.
fn places(bits: u32, count: u8) -> u32
    requires { (8 ≤ bits) × (bits ≤ 17) }
    ensures { result ≡ min count bits }
{
    (count as u32).min(bits)
}

// What leaves above is cut off.
pub fn shl(bits: u32, number: u64, count: u8) -> u64
    requires { (number < 2 ^ bits) × (8 ≤ bits) × (bits ≤ 17) }
    ensures { result ≡ (steps bits Shl count (before number false)).value }
{
    (number << places(bits, count)) & ones(bits)
}

// Nothing enters above, so nothing has to be put there.
pub fn shr(bits: u32, number: u64, count: u8) -> u64
    requires { (number < 2 ^ bits) × (8 ≤ bits) × (bits ≤ 17) }
    ensures { result ≡ (steps bits Shr count (before number false)).value }
{
    number >> places(bits, count)
}

// The upper half is put above the lower; of that number, as many bits as a half has, from a place on.
fn window(bits: u32, upper: u64, lower: u64, place: u32) -> u64
    requires { (upper < 2 ^ bits) × (lower < 2 ^ bits) × (bits ≤ 17) × (place ≤ bits) }
    ensures { result ≡ (upper * 2 ^ bits + lower) / 2 ^ place % 2 ^ bits }
{
    (((upper << bits) | lower) >> place) & ones(bits)
}

// The top bit of a number, as a digit.
fn sign(bits: u32, number: u64) -> u64
    requires { (number < 2 ^ bits) × (8 ≤ bits) × (bits ≤ 17) }
    ensures { result ≡ bit (top_set bits number) }
{
    number >> (bits - 1)
}

// The sign stands above the number at as many places as a shift can move.
pub fn sar(bits: u32, number: u64, count: u8) -> u64
    requires { (number < 2 ^ bits) × (8 ≤ bits) × (bits ≤ 17) }
    ensures { result ≡ (steps bits Sar count (before number false)).value }
{
    let signs = sign(bits, number) * ones(bits);
    window(bits, signs, number, places(bits, count))
}

// Two copies of a number, one above the other, hold every rotation of it. A full turn changes nothing, so
// what the count leaves of full turns is enough.
pub fn ror(bits: u32, number: u64, count: u8) -> u64
    requires { (number < 2 ^ bits) × (8 ≤ bits) × (bits ≤ 17) }
    ensures { result ≡ (steps bits Ror count (before number false)).value }
{
    window(bits, number, number, count as u32 % bits)
}

// Leftward it is read from the other end.
pub fn rol(bits: u32, number: u64, count: u8) -> u64
    requires { (number < 2 ^ bits) × (8 ≤ bits) × (bits ≤ 17) }
    ensures { result ≡ (steps bits Rol count (before number false)).value }
{
    window(bits, number, number, bits - count as u32 % bits)
}
