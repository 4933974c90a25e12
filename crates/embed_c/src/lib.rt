// The static library: each function of `embed` under its name in C, with its clauses. What they do is said there.
#![tactic(auto)]

ghost use Rattle.std.specs.Prelude.{◌≡◌, ◌/◌, length};
ghost use Rattle.line.specs.One.{status_in, answered};
ghost use Rattle.line.specs.Run.{done, run_of};
ghost use Rattle.answer.specs.Asked.{status_of, parts_of};
ghost use Rattle.trap.specs.Told.{trap_told, would_trap};
ghost use Rattle.roads.specs.Told.{tallied, roads_told};
ghost use Rattle.registers.specs.Over.{over, registers_of, settled_as};
ghost use Rattle.packed.specs.Sum.{plus, minus};
ghost use Rattle.packed.specs.Told.{told, told_by};
ghost use Rattle.readback.specs.Judge.{read_back};
ghost use Rattle.readback.specs.Told.{status_of as readStatus, record_left, turn, turn_at};

#[unsafe(no_mangle)]
pub extern "C" fn hatchyarn_ask(
    op: u8,
    mode: u8,
    flags: u16,
    x: u32,
    y: u16,
    answer: &mut [u16; 4],
) -> u8
    ensures { (result ≡ status_of op mode flags x y) × (answer.new ≡ parts_of op mode flags x y) }
{
    embed::hatchyarn_ask(op, mode, flags, x, y, answer)
}

#[unsafe(no_mangle)]
pub extern "C" fn hatchyarn_would_trap(mode: u8, dividend: u32, divisor: u16, trap: &mut u8) -> u8
    ensures { trap_told result trap.new ≡ would_trap mode dividend divisor }
{
    embed::hatchyarn_would_trap(mode, dividend, divisor, trap)
}

#[unsafe(no_mangle)]
pub extern "C" fn hatchyarn_roads(mode: u8, dividend: u32, divisor: u16, roads: &mut [u16; 2]) -> u8
    ensures { tallied result roads.new ≡ roads_told mode dividend divisor }
{
    embed::hatchyarn_roads(mode, dividend, divisor, roads)
}

#[unsafe(no_mangle)]
pub extern "C" fn hatchyarn_registers(
    op: u8,
    mode: u8,
    y: u16,
    ax: &mut u16,
    dx: &mut u16,
    flags: &mut u16,
    total: &mut u32,
    steps: &mut u16,
) -> u8
    ensures { settled_as result steps.new (registers_of ax.new dx.new flags.new total.new) ≡ over op mode y (registers_of ax.old dx.old flags.old total.old) }
{
    embed::hatchyarn_registers(op, mode, y, ax, dx, flags, total, steps)
}

#[unsafe(no_mangle)]
pub extern "C" fn hatchyarn_line(line: &[u8], out: &mut [u8]) -> u8
    ensures { (result ≡ status_in (length out.old) line.now) × (out.new ≡ answered line.now out.old) }
{
    embed::hatchyarn_line(line, out)
}

#[unsafe(no_mangle)]
pub extern "C" fn hatchyarn_run(
    text: &[u8],
    out: &mut [u8],
    at_end: bool,
    used: &mut usize,
) -> usize
    ensures { done out.new result used.new ≡ run_of (length out.old / 19) at_end text.now out.old }
{
    embed::hatchyarn_run(text, out, at_end, used)
}

#[unsafe(no_mangle)]
pub extern "C" fn hatchyarn_packed_add(
    x: &[u8],
    y: &[u8],
    carry: bool,
    out: &mut [u8],
    carry_out: &mut u8,
) -> u8
    ensures { told result out.new carry_out.new ≡ told_by plus x.now y.now carry out.old carry_out.old }
{
    embed::hatchyarn_packed_add(x, y, carry, out, carry_out)
}

#[unsafe(no_mangle)]
pub extern "C" fn hatchyarn_packed_subtract(
    x: &[u8],
    y: &[u8],
    borrow: bool,
    out: &mut [u8],
    borrow_out: &mut u8,
) -> u8
    ensures { told result out.new borrow_out.new ≡ told_by minus x.now y.now borrow out.old borrow_out.old }
{
    embed::hatchyarn_packed_subtract(x, y, borrow, out, borrow_out)
}

#[unsafe(no_mangle)]
pub extern "C" fn hatchyarn_read_answer(line: &[u8], record: &mut [u16; 5]) -> u8
    ensures { (result ≡ readStatus (read_back line.now)) × («record».new ≡ record_left (read_back line.now) «record».old) }
{
    embed::hatchyarn_read_answer(line, record)
}

#[unsafe(no_mangle)]
pub extern "C" fn hatchyarn_next_answer(
    text: &[u8],
    place: &mut usize,
    record: &mut [u16; 5],
    start: &mut usize,
) -> u8
    ensures { turn result place.new «record».new start.new ≡ turn_at text.now place.old «record».old start.old }
{
    embed::hatchyarn_next_answer(text, place, record, start)
}
