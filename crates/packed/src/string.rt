// Strings of bytes.
ghost use Rattle.std.specs.Prelude.{◌≡◌, ◌≤◌, length, drop};
ghost use Rattle.packed.specs.Sum.{plus, minus, operation_of};
ghost use Rattle.packed.specs.Packed.{strung, left, packed_by};
ghost use Rattle.packed.specs.Halves.{Operands, half_of, WorkSpace, Made, chosen, onto};

use crate::byte::{Difference, Operation, Sum};
use crate::judge;
use crate::judge::Refusal;

// Each byte for either carry into it: without one in the first half of the work space, with one in the
// second, which begins at 32. No byte waits for the one before, so that the compiler makes many at a time.
//
// The work space is two slices that are lent. As a struct of two arrays it was tried: a call took 1.4 times as long
// at 16 and 32 bytes; as an array of `Byte` for each carry, 2.4 times at 32 bytes and 2.6 at 16.
#[tactic(auto, using(crate::proofs::HalvesLaws::digits_at))]
fn make_both<O: Operation>(x: &[u8], y: &[u8], bytes: &mut [u8], halves: &mut [u8])
    requires operands { Operands x.now y.now }
    requires work_space { WorkSpace bytes.old halves.old }
    ensures { Made (operation_of O.subtracts) x.now y.now (length x.now) bytes.new halves.new }
{
    for i in 0..x.len() {
        let without = O::work_byte(x[i], y[i], false);
        let with = O::work_byte(x[i], y[i], true);
        bytes[i] = without.byte;
        bytes[32 + i] = with.byte;
        halves[i] = without.carry as u8 * 32;
        halves[32 + i] = with.carry as u8 * 32;
    }
}

// The bytes by the carries that come, the lowest first: each names the half that the next is taken from. All of `out` is
// lent, since what stands past the operands is promised to stay.
#[tactic(auto, using(crate::proofs::HalvesLaws::choosing_more, crate::proofs::HalvesLaws::all_chosen))]
fn choose(bytes: &[u8], halves: &[u8], size: usize, carry: bool, out: &mut [u8]) -> bool
    requires work_space { WorkSpace bytes.now halves.now }
    requires size_bound { (size ≤ 32) × (size ≤ length out.old) }
    ensures { strung out.new result ≡ onto (chosen bytes.now halves.now size 0 (half_of carry)) (drop size out.old) }
{
    let mut half = carry as u8 * 32;
    for i in 0..size {
        let at = half as usize + i;
        out[i] = bytes[at];
        half = halves[at];
    }
    half != 0
}

// The result goes into `out`; bytes past the operands' length stay as they were. Returns the carry or borrow out of
// the last byte, or why nothing was written.
fn work_string<O: Operation>(
    x: &[u8],
    y: &[u8],
    carry: bool,
    out: &mut [u8],
) -> Result<bool, Refusal>
    ensures { left result out.new ≡ packed_by (operation_of O.subtracts) x.now y.now carry out.old }
{
    judge::judge(x, y, out.len())?;
    let mut bytes = [0u8; 64];
    let mut halves = [0u8; 64];
    make_both::<O>(x, y, &mut bytes, &mut halves);
    Ok(choose(&bytes, &halves, x.len(), carry, out))
}

// The sum, and its carry.
pub fn add(x: &[u8], y: &[u8], carry: bool, out: &mut [u8]) -> Result<bool, Refusal>
    ensures { left result out.new ≡ packed_by plus x.now y.now carry out.old }
{
    work_string::<Sum>(x, y, carry, out)
}

// The difference, x less y, and its borrow.
pub fn subtract(x: &[u8], y: &[u8], borrow: bool, out: &mut [u8]) -> Result<bool, Refusal>
    ensures { left result out.new ≡ packed_by minus x.now y.now borrow out.old }
{
    work_string::<Difference>(x, y, borrow, out)
}
