// An operation over the record, given as numbers that no caller has checked.
ghost use Rattle.std.specs.Prelude.{◌≡◌, ◌<◌};
ghost use Rattle.registers.specs.Over.{is_over, read_by, ax_by, dx_by, over};

use crate::record::{Registers, Settled};
use answer::answer::Answer;
use answer::ask;
use request::raw::Raw;

// An op stays a number here. `decode` has one caller for speed, and an enum of these ops would be a second table of them.
const MULTIPLY: u8 = 0x10;

const DIVIDE: u8 = 0x11;

// Multiply and divide, and the adjusts.
fn is_over(op: u8) -> bool
    ensures { result ≡ is_over op }
{
    matches!(op, MULTIPLY | DIVIDE | 0x18..=0x1C)
}

fn read(op: u8, mode: u8, regs: Registers) -> u32
    ensures { result ≡ read_by op mode regs.ax regs.dx }
{
    let ax = regs.ax as u32;
    match (op, mode & 0x01 != 0) {
        (MULTIPLY, false) => ax % 0x100,
        (DIVIDE, true) => regs.dx as u32 * 0x1_0000 + ax,
        _ => ax,
    }
}

// The results of an 8-bit divide are bytes, so that AX has room for both.
fn ax_taken(op: u8, mode: u8, a: Answer) -> u16
    requires { ax_by op mode a < 0x1_0000 }
    ensures { result ≡ ax_by op mode a }
{
    match (op, mode & 0x01 != 0) {
        (MULTIPLY, true) => a.s,
        (DIVIDE, false) => a.s * 0x100 + a.r,
        _ => a.r,
    }
}

fn dx_taken(op: u8, mode: u8, dx: u16, a: Answer) -> u16
    ensures { result ≡ dx_by op mode dx a }
{
    match (op, mode & 0x01 != 0) {
        (MULTIPLY, true) => a.r,
        (DIVIDE, true) => a.s,
        _ => dx,
    }
}

#[tactic(auto, using(crate::proofs::OverLaws::ax_fits), unfolding(crate::specs::Over::over))]
pub fn operate(op: u8, mode: u8, y: u16, regs: Registers) -> Settled
    ensures { result ≡ over op mode y regs }
{
    if !is_over(op) {
        return Settled {
            status: 3,
            steps: 0,
            regs,
        };
    }
    let raw = Raw {
        op,
        mode,
        flags: regs.flags,
        x: read(op, mode, regs),
        y,
    };
    let a = ask::ask(raw);
    regs.settle(a, ax_taken(op, mode, a), dx_taken(op, mode, regs.dx, a))
}
