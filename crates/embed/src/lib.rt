// What a program in another language calls, by way of `embed_c`: a request given as numbers, whether a divide
// would trap, by which roads the ones of its quotient came, an operation over registers that remember their
// steps, one line, a run over many lines, packed decimal strings added and subtracted, and answer lines read
// back. Nothing is required of a caller but that each pointer leads to as many bytes as it says, and that what
// is written overlaps nothing else that is lent.
#![tactic(auto)]

ghost use Rattle.std.specs.Prelude.{◌≡◌, ◌/◌, length};
ghost use Rattle.line.specs.One.{status_in, answered};
ghost use Rattle.line.specs.Run.{done, run_of};
ghost use Rattle.answer.specs.Asked.{status_of, parts_of};
ghost use Rattle.trap.specs.Told.{trap_told, would_trap};
ghost use Rattle.roads.specs.Told.{tallied, roads_told};
ghost use Rattle.registers.specs.Over.{over, registers_of, settled_as};
ghost use Rattle.packed.specs.Sum.{plus, minus};
ghost use Rattle.packed.specs.Told.{told, told_by};
ghost use Rattle.readback.specs.Judge.{read_back};
ghost use Rattle.readback.specs.Told.{status_of as readStatus, record_left, turn, turn_at};

use answer::ask;
use line::{one, run};
use packed::{string, told};
use registers::by_number;
use registers::record::Registers;

// The table of statuses from 3 on. The answer's flags, steps, R and S go in, in this order.
pub fn hatchyarn_ask(op: u8, mode: u8, flags: u16, x: u32, y: u16, answer: &mut [u16; 4]) -> u8
    ensures { (result ≡ status_of op mode flags x y) × (answer.new ≡ parts_of op mode flags x y) }
{
    ask::ask_into(op, mode, flags, x, y, answer)
}

// Whether the divide of mode, dividend and divisor would trap goes into `trap`, as 0 or 1; returns 0. What
// cannot be asked returns 4 or 5, and `trap` becomes 1.
pub fn hatchyarn_would_trap(mode: u8, dividend: u32, divisor: u16, trap: &mut u8) -> u8
    ensures { trap_told result trap.new ≡ would_trap mode dividend divisor }
{
    trap::told::tell(trap::would_trap(mode, dividend, divisor), trap)
}

// By which roads the ones of a divide's quotient came: how many by a bit shifted out, then how many by no
// borrow, go into `roads`. Both are 0 unless the status returned is 0.
pub fn hatchyarn_roads(mode: u8, dividend: u32, divisor: u16, roads: &mut [u16; 2]) -> u8
    ensures { tallied result roads.new ≡ roads_told mode dividend divisor }
{
    roads::told::tell(roads::roads(mode, dividend, divisor), roads)
}

// An operation over AX, DX, the flags and the total of steps, which it changes in place; its steps go into
// `steps`, and the status is returned. A divide that the chip refuses leaves AX and DX; its flags are stored,
// and its steps go into the total. After 3, 4, 5 and 10 the four are as they were, and the steps are 0. What of
// the four is not changed is not written.
pub fn hatchyarn_registers(
    op: u8,
    mode: u8,
    y: u16,
    ax: &mut u16,
    dx: &mut u16,
    flags: &mut u16,
    total: &mut u32,
    steps: &mut u16,
) -> u8
    ensures { settled_as result steps.new (registers_of ax.new dx.new flags.new total.new) ≡ over op mode y (registers_of ax.old dx.old flags.old total.old) }
{
    let regs = Registers {
        ax: *ax,
        dx: *dx,
        flags: *flags,
        total: *total,
    };
    let settled = by_number::operate(op, mode, y, regs);
    if settled.regs.ax != *ax {
        *ax = settled.regs.ax;
    }
    if settled.regs.dx != *dx {
        *dx = settled.regs.dx;
    }
    if settled.regs.flags != *flags {
        *flags = settled.regs.flags;
    }
    if settled.regs.total != *total {
        *total = settled.regs.total;
    }
    *steps = settled.steps;
    settled.status
}

// One line without its line feed: the whole table.
pub fn hatchyarn_line(line: &[u8], out: &mut [u8]) -> u8
    ensures { (result ≡ status_in (length out.old) line.now) × (out.new ≡ answered line.now out.old) }
{
    one::answer_line(line, out)
}

// As many lines of the text as there is room for answers; returns how many, and through `used` how many
// bytes of the text they are.
pub fn hatchyarn_run(text: &[u8], out: &mut [u8], at_end: bool, used: &mut usize) -> usize
    ensures { done out.new result used.new ≡ run_of (length out.old / 19) at_end text.now out.old }
{
    let ran = run::run(text, out, at_end);
    *used = ran.used;
    ran.lines
}

// The sum of two packed decimal strings goes into `out` and its carry into `carry_out`, as 0 or 1; returns 0.
// A refusal, 20 to 23, writes nothing.
pub fn hatchyarn_packed_add(
    x: &[u8],
    y: &[u8],
    carry: bool,
    out: &mut [u8],
    carry_out: &mut u8,
) -> u8
    ensures { told result out.new carry_out.new ≡ told_by plus x.now y.now carry out.old carry_out.old }
{
    told::tell(string::add(x, y, carry, out), carry_out)
}

// The same for their difference, x less y, and its borrow.
pub fn hatchyarn_packed_subtract(
    x: &[u8],
    y: &[u8],
    borrow: bool,
    out: &mut [u8],
    borrow_out: &mut u8,
) -> u8
    ensures { told result out.new borrow_out.new ≡ told_by minus x.now y.now borrow out.old borrow_out.old }
{
    told::tell(string::subtract(x, y, borrow, out), borrow_out)
}

// One answer line without its line feed: its five numbers go into `record`; returns 0. A refusal, 30 to 34,
// writes nothing.
pub fn hatchyarn_read_answer(line: &[u8], record: &mut [u16; 5]) -> u8
    ensures { (result ≡ readStatus (read_back line.now)) × («record».new ≡ record_left (read_back line.now) «record».old) }
{
    readback::told::tell(readback::one::read_answer(line), record)
}

// The answer line from `place` on: the same, and `start` becomes where it starts, `place` where the next
// does. Where no byte is left returns 255 and writes nothing.
pub fn hatchyarn_next_answer(
    text: &[u8],
    place: &mut usize,
    record: &mut [u16; 5],
    start: &mut usize,
) -> u8
    ensures { turn result place.new «record».new start.new ≡ turn_at text.now place.old «record».old start.old }
{
    readback::told::tell_next(
        readback::reader::next_at(text, *place),
        place,
        record,
        start,
    )
}
