// An answer, and how it is made from what an operation returns: which result is R and which S, the flags, the steps
// and the status. The flags that an operation sets replace those of the request; the others stay.
ghost use Rattle.std.specs.Prelude.{◌≡◌};
ghost use Rattle.alu.specs.Views.{c, co, coa};
ghost use Rattle.multiply.specs.Views.{product};
ghost use Rattle.divide.specs.Views.{divided};
ghost use Rattle.flags.specs.Word.{flags_of};
ghost use Rattle.answer.specs.Charted.{whole_of, zeros as zerosOf, plain_of, limited_to, of_c, of_co, of_coa, of_product8, of_product16, refusal_status, of_divided, of_adjusted};

use alu::result::{ResultC, ResultCo, ResultCoa};
use bcd::adjust::Adjusted;
use divide::div::{Divided, Refusal};
use flags::number::Number;
use flags::word::Flags;
use multiply::mul::Product;
use request::raw::Request;

// A status is a number, as C and an answer line have it.
#[derive(Clone, Copy, Debug, PartialEq, Eq)]
pub struct Answer {
    pub status: u8,
    pub flags: u16,
    pub steps: u16,
    pub r: u16,
    pub s: u16,
}

// The one place that makes a word of an answer's flags.
fn whole(status: u8, flags: Flags, steps: u16, r: u16, s: u16) -> Answer
    ensures { result ≡ whole_of status flags steps r s }
{
    Answer {
        status,
        flags: u16::from(flags),
        steps,
        r,
        s,
    }
}

// A refusal before any operation ran: flags, steps and results are 0.
pub fn zeros(status: u8) -> Answer
    ensures { result ≡ zerosOf status }
{
    Answer {
        status,
        flags: 0,
        steps: 0,
        r: 0,
        s: 0,
    }
}

// Status 0, no steps and one result.
pub fn plain(flags: Flags, r: u16) -> Answer
    ensures { result ≡ plain_of flags r }
{
    whole(0, flags, 0, r, 0)
}

// The answer `a` if X, Y and the flags are within their limits. If not, status 5.
pub fn limited(request: Request, x_most: u32, y_most: u16, a: Answer) -> Answer
    ensures { result ≡ limited_to x_most y_most request a }
{
    if request.fits(x_most, y_most) {
        return a;
    }
    zeros(5)
}

// R and S are words, and a byte stands in one as it is.
fn word<N: Number>(number: N) -> u16
    ensures { result ≡ N.value number }
{
    number.wide() as u16
}

// The three below answer an ALU operation. X may be as wide as the operation; `y_most` is its limit of Y. One for all
// three results would need a trait that is longer than they are.
pub fn of_c<N: Number>(made: ResultC<N>, request: Request, y_most: u16) -> Answer
    ensures { result ≡ limited_to N.MAX y_most request (of_c (c N.value made) (flags_of request.flags)) }
{
    let flags = Flags::from_word(request.flags).with_c(made.carry);
    limited(request, N::MAX, y_most, plain(flags, word(made.result)))
}

pub fn of_co<N: Number>(made: ResultCo<N>, request: Request, y_most: u16) -> Answer
    ensures { result ≡ limited_to N.MAX y_most request (of_co (co N.value made) (flags_of request.flags)) }
{
    let flags = Flags::from_word(request.flags).with_co(made.carry, made.overflow);
    limited(request, N::MAX, y_most, plain(flags, word(made.result)))
}

pub fn of_coa<N: Number>(made: ResultCoa<N>, request: Request, y_most: u16) -> Answer
    ensures { result ≡ limited_to N.MAX y_most request (of_coa (coa N.value made) (flags_of request.flags)) }
{
    let flags = Flags::from_word(request.flags).with_coa(made.carry, made.overflow, made.aux_carry);
    limited(request, N::MAX, y_most, plain(flags, word(made.result)))
}

// One function for each width: the product of bytes is one result, that of words is two. No `From`, here and below:
// a name says whose R and S these are, and the definition has it too.
pub fn of_product8(made: Product<u8>) -> Answer
    ensures { result ≡ of_product8 (product 8 (λ k. k) made) }
{
    let product = u16::from_be_bytes([made.upper, made.lower]);
    whole(0, made.flags, made.steps, product, 0)
}

pub fn of_product16(made: Product<u16>) -> Answer
    ensures { result ≡ of_product16 (product 16 (λ k. k) made) }
{
    whole(0, made.flags, made.steps, made.upper, made.lower)
}

// No `From` of a refusal: that would stand in `divide`, which knows no status.
fn refusal_status(why: Refusal) -> u8
    ensures { result ≡ refusal_status why }
{
    match why {
        Refusal::ZeroDivisor => 6,
        Refusal::TooWide => 8,
        Refusal::SignRange => 9,
    }
}

pub fn of_divided<N: Number>(made: Divided<N>) -> Answer
    ensures { result ≡ of_divided (divided N.value made) }
{
    let Divided {
        outcome,
        flags,
        steps,
        ..
    } = made;
    match outcome {
        Ok(results) => whole(
            0,
            flags,
            steps,
            word(results.quotient),
            word(results.remainder),
        ),
        Err(why) => whole(refusal_status(why), flags, steps, 0, 0),
    }
}

pub fn of_adjusted(made: Adjusted) -> Answer
    ensures { result ≡ of_adjusted made }
{
    whole(0, made.flags, made.steps, made.ax, 0)
}
