// An answer line: status (2 digits), flags (4), steps (4), R (4), S (4) and a line feed, 19 bytes.
ghost use Rattle.std.specs.Prelude.{◌≡◌, ◌++◌, ◌+◌, ◌≤◌, length, drop};
ghost use Rattle.std.proofs.lemmas.List.Edits.{sets};
ghost use Rattle.text.specs.Digits.{capital_of};
ghost use Rattle.text.specs.Lanes.{lanes};
ghost use Rattle.text.specs.Written.{four, written};

use crate::digits;

// The eight digits of two numbers as capitals, one in each byte, the first digit in the lowest. `p` holds the
// bytes of the numbers, and `n` their digits. A digit above 9 has bit 4 set once 6 is added. It gets 7 more,
// since A stands 8 places after 9.
fn eight_capitals(first: u16, second: u16) -> u64
    ensures { result ≡ lanes 8 (four capital_of first ++ four capital_of second) }
{
    let q = first as u64 + second as u64 * 0x1_0000_0000;
    let p = (q & 0x0000_FF00_0000_FF00) / 0x100 + (q & 0x0000_00FF_0000_00FF) * 0x1_0000;
    let n = (p & 0x00F0_00F0_00F0_00F0) / 0x10 + (p & 0x000F_000F_000F_000F) * 0x100;
    n + 0x3030_3030_3030_3030 + ((n + 0x0606_0606_0606_0606) & 0x1010_1010_1010_1010) / 0x10 * 7
}

// Writes the four digits of `first` and then those of `second`, from `at` on.
fn put_eight(first: u16, second: u16, out: &mut [u8], at: usize)
    requires { at + 8 ≤ length out.old }
    ensures { out.new ≡ sets out.old at (four capital_of first ++ four capital_of second) }
{
    out[at..at + 8].copy_from_slice(&eight_capitals(first, second).to_le_bytes());
}

// Writes 19 bytes. The bytes after them stay as they were. Five numbers and no struct: this crate doesn't know
// `answer::Answer`, and a struct of its own would be that one once more.
pub fn write(status: u8, flags: u16, steps: u16, r: u16, s: u16, out: &mut [u8])
    requires { 19 ≤ length out.old }
    ensures { out.new ≡ written capital_of status flags steps r s ++ drop 19 out.old }
{
    out[0] = digits::capital((status / 0x10) as u16);
    out[1] = digits::capital((status % 0x10) as u16);
    put_eight(flags, steps, out, 2);
    put_eight(r, s, out, 10);
    out[18] = b'\n';
}
