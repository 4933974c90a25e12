// The buffer of a program that reads block by block: what one block leaves over is moved to the front,
// and the next is read behind it.
#![tactic(auto)]

ghost use Rattle.std.specs.Prelude.{◌≡◌, ◌++◌, ◌-◌, ◌≤◌, length, take, drop};

// Moves the bytes from `from` to `to` to the front.
pub fn keep(buffer: &mut [u8], from: usize, to: usize)
    requires { (from ≤ to) × (to ≤ length buffer.old) }
    ensures { buffer.new ≡ take (to - from) (drop from buffer.old) ++ drop (to - from) buffer.old }
{
    buffer.copy_within(from..to, 0);
}
