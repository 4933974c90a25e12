// Operations over a register record that remembers its steps: AX, DX, the flags and a running total. A divide
// that the chip refuses leaves AX and DX; its flags are stored, and its steps go into the total. An op, a mode, a Y
// or flags that cannot be asked are refused with 3, 4 and 5, and a total that would pass its end with 10; the
// record then stays as it was.
#![tactic(auto)]

pub mod by_number;
pub mod record;
