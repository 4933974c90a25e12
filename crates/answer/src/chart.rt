// The charts: each operation's work and the limits of its operands. Operands are cut to the operation's width, which
// changes none that is within its limits. Each arm checks its own limits, so that no code stands between the jump to
// an operation and its work.
ghost use Rattle.std.specs.Prelude.{◌≡◌, ◌%◌, ◌^◌};
ghost use Rattle.flags.specs.Word.{flags_of};
ghost use Rattle.multiply.specs.Multiply.{multiply};
ghost use Rattle.multiply.specs.Views.{product};
ghost use Rattle.request.specs.declared.operation.Operation.TheVariants.{Alu as OfAlu, Multiply, Divide, Decimal as OfDecimal};
ghost use Rattle.answer.specs.Charted.{limited_to, of_bits, sized, of_adjusted, charted_as};

use crate::answer;
use crate::answer::Answer;
use alu::{addition, rotate, shift, subtraction};
use bcd::adjust::Adjusted;
use bcd::{ascii, decimal};
use divide::div;
use flags::number::Number;
use flags::word::Flags;
use multiply::mul;
use multiply::mul::Product;
use request::operation::{Alu, Decimal, Mode, Operation, Width};
use request::raw::Request;

fn carry_in(request: Request) -> bool
    ensures { result ≡ (flags_of request.flags).carry }
{
    Flags::from_word(request.flags).carry
}

// A right operand has the operation's width; a shift's count is a byte at either.
fn alu<N: Number>(alu: Alu, request: Request) -> Answer
    ensures { result ≡ charted_as (OfAlu alu (of_bits N.BITS)) request }
{
    let x = N::cut(request.x);
    let y = N::cut(request.y as u32);
    let y_most = N::MAX as u16;
    let count = (request.y % 0x100) as u8;
    match alu {
        Alu::Add => answer::of_coa(addition::alu_add(x, y), request, y_most),
        Alu::Adc => answer::of_coa(addition::alu_adc(x, y, carry_in(request)), request, y_most),
        Alu::Sub => answer::of_coa(subtraction::alu_sub(x, y), request, y_most),
        Alu::Sbb => answer::of_coa(
            subtraction::alu_sbb(x, y, carry_in(request)),
            request,
            y_most,
        ),
        Alu::Neg => answer::of_coa(subtraction::alu_neg(x), request, 0),
        Alu::Shl => answer::of_co(shift::alu_shl(x, count), request, 0xFF),
        Alu::Shr => answer::of_c(shift::alu_shr(x, count), request, 0xFF),
        Alu::Sar => answer::of_c(shift::alu_sar(x, count), request, 0xFF),
        Alu::Rol => answer::of_co(rotate::alu_rol(x, count), request, 0xFF),
        Alu::Ror => answer::of_co(rotate::alu_ror(x, count), request, 0xFF),
        Alu::Rcl => answer::of_co(rotate::alu_rcl(x, count, carry_in(request)), request, 0xFF),
        Alu::Rcr => answer::of_co(rotate::alu_rcr(x, count, carry_in(request)), request, 0xFF),
        Alu::ShlAf => answer::of_coa(shift::alu_shl_af(x, count), request, 0xFF),
    }
}

// The operands are cut to the width.
fn cut_product<N: Number>(mode: Mode, request: Request) -> Product<N>
    ensures { product N.BITS N.value result ≡ multiply N.BITS mode.signed mode.rep (request.x % 2 ^ N.BITS) (request.y % 2 ^ N.BITS) (flags_of request.flags) }
{
    let flags = Flags::from_word(request.flags);
    mul::mul(
        N::cut(request.x),
        N::cut(request.y as u32),
        mode.signed,
        mode.rep,
        flags,
    )
}

fn multiplied(mode: Mode, request: Request) -> Answer
    ensures { result ≡ charted_as (Multiply mode) request }
{
    match mode.width {
        Width::Byte => {
            if !request.fits(0xFF, 0xFF) {
                return answer::zeros(5);
            }
            answer::of_product8(cut_product(mode, request))
        }
        Width::Word => {
            if !request.fits(0xFFFF, 0xFFFF) {
                return answer::zeros(5);
            }
            answer::of_product16(cut_product(mode, request))
        }
    }
}

// A dividend is two numbers, one above the other.
fn divided<N: Number>(mode: Mode, request: Request) -> Answer
    ensures { result ≡ charted_as (Divide (sized N.BITS mode)) request }
{
    let most = N::MAX;
    let dividend_most = most << N::BITS | most;
    if !request.fits(dividend_most, most as u16) {
        return answer::zeros(5);
    }
    let flags = Flags::from_word(request.flags);
    let upper = N::cut(request.x >> N::BITS);
    let lower = N::cut(request.x);
    let divisor = N::cut(request.y as u32);
    answer::of_divided(div::div(upper, lower, divisor, mode.signed, mode.rep, flags))
}

fn in_ax(made: Adjusted, request: Request, y_most: u16) -> Answer
    ensures { result ≡ limited_to 0xFFFF y_most request (of_adjusted made) }
{
    answer::limited(request, 0xFFFF, y_most, answer::of_adjusted(made))
}

fn adjusted(decimal: Decimal, request: Request) -> Answer
    ensures { result ≡ charted_as (OfDecimal decimal) request }
{
    let flags = Flags::from_word(request.flags);
    let ax = (request.x % 0x1_0000) as u16;
    let byte = (request.y % 0x100) as u8;
    match decimal {
        Decimal::Aaa => in_ax(ascii::aaa(ax, flags), request, 0),
        Decimal::Aas => in_ax(ascii::aas(ax, flags), request, 0),
        Decimal::Aad => in_ax(ascii::aad(ax, byte, flags), request, 0xFF),
        Decimal::Daa => in_ax(decimal::daa(ax, flags), request, 0),
        Decimal::Das => in_ax(decimal::das(ax, flags), request, 0),
    }
}

// Answers a request by the chart of its operation, or with 5 if X, Y or the flags exceed their limits.
pub fn chart(request: Request) -> Answer
    ensures { result ≡ charted_as request.operation request }
{
    match request.operation {
        Operation::Alu(operation, Width::Byte) => alu::<u8>(operation, request),
        Operation::Alu(operation, Width::Word) => alu::<u16>(operation, request),
        Operation::Multiply(mode) => multiplied(mode, request),
        Operation::Divide(mode) => match mode.width {
            Width::Byte => divided::<u8>(mode, request),
            Width::Word => divided::<u16>(mode, request),
        },
        Operation::Decimal(decimal) => adjusted(decimal, request),
    }
}
