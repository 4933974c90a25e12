// What is refused of a record, whose digits are all there.
ghost use Rattle.std.specs.Prelude.{◌≡◌};
ghost use Rattle.readback.specs.Judge.{is_status, not_zero, judged, refusal_status};
ghost use Rattle.readback.specs.Quick.{reason_of};

use answer::answer::Answer;
use flags::word::Flags;

// In the order in which they are tested: 30 to 34. The first two are of a line.
#[derive(Clone, Copy, Debug, PartialEq, Eq)]
pub enum Refusal {
    Length,
    Digit,
    Status,
    Flags,
    NotZero,
}

// The tests of this and the next are those of the definitions, in their words: a `matches!` is no plainer.
fn is_status(status: u8) -> bool
    ensures { result ≡ is_status status }
{
    (status <= 6) | (status == 8) | (status == 9)
}

// A status of 1 to 5 with anything but zeros, or a refused divide with R or S not 0.
fn not_zero(a: Answer) -> bool
    ensures { result ≡ not_zero a }
{
    let status = a.status;
    let results = (a.r == 0) & (a.s == 0);
    let zeros = (a.flags == 0) & (a.steps == 0) & results;
    ((1 <= status) & (status <= 5) & !zeros)
        | (((status == 6) | (status == 8) | (status == 9)) & !results)
}

// Which of the three it is, of a record that is refused.
fn reason(a: Answer) -> Refusal
    ensures { result ≡ reason_of a }
{
    if !is_status(a.status) {
        return Refusal::Status;
    }
    if !Flags::is_flags(a.flags) {
        return Refusal::Flags;
    }
    Refusal::NotZero
}

// All three are looked at without a branch: statuses come in no order, and a guess at each would often be
// wrong.
pub fn judge(a: Answer) -> Result<Answer, Refusal>
    ensures { result ≡ judged a }
{
    if is_status(a.status) & Flags::is_flags(a.flags) & !not_zero(a) {
        return Ok(a);
    }
    Err(reason(a))
}

impl From<Refusal> for u8 {
    fn from(refusal: Refusal) -> u8
        ensures { result ≡ refusal_status refusal }
    {
        match refusal {
            Refusal::Length => 30,
            Refusal::Digit => 31,
            Refusal::Status => 32,
            Refusal::Flags => 33,
            Refusal::NotZero => 34,
        }
    }
}
