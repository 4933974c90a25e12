// What is refused, before a byte is written.
ghost use Rattle.std.specs.Prelude.{◌≡◌, ◌&&◌, length};
ghost use Rattle.numbers.specs.Numbers.{between};
ghost use Rattle.packed.specs.Digits.{is_packed, all_packed};
ghost use Rattle.packed.specs.Judge.{judged, refusal_status};

// In the order in which they are tested, with their statuses.
#[derive(Clone, Copy, Debug, PartialEq, Eq)]
pub enum Refusal {
    LengthsDiffer = 20,
    Length = 21,
    Digit = 22,
    Room = 23,
}

// The longest string, in bytes.
const LONGEST: usize = 32;

fn is_length(size: usize) -> bool
    ensures { result ≡ between 1 32 size }
{
    (1..=LONGEST).contains(&size)
}

fn is_packed(byte: u8) -> bool
    ensures { result ≡ is_packed byte }
{
    (byte / 0x10 <= 9) & (byte % 0x10 <= 9)
}

// Whether all digits of two strings of one length are at most 9. Every byte is looked at: with no way
// out of the loop the compiler takes many at a time.
fn both_packed(x: &[u8], y: &[u8]) -> bool
    requires { length x.now ≡ length y.now }
    ensures { result ≡ all_packed x.now && all_packed y.now }
{
    let mut packed = true;
    for (left, right) in x.iter().zip(y) {
        packed = packed & is_packed(*left) & is_packed(*right);
    }
    packed
}

#[tactic(auto, using(crate::proofs::JudgeLaws::differ, crate::proofs::JudgeLaws::misfit, crate::proofs::JudgeLaws::unpacked, crate::proofs::JudgeLaws::roomless, crate::proofs::JudgeLaws::admits))]
pub fn judge(x: &[u8], y: &[u8], room: usize) -> Result<(), Refusal>
    ensures { result ≡ judged x.now y.now room }
{
    if x.len() != y.len() {
        return Err(Refusal::LengthsDiffer);
    }
    if !is_length(x.len()) {
        return Err(Refusal::Length);
    }
    if !both_packed(x, y) {
        return Err(Refusal::Digit);
    }
    if room < x.len() {
        return Err(Refusal::Room);
    }
    Ok(())
}

impl From<Refusal> for u8 {
    fn from(refusal: Refusal) -> u8
        ensures { result ≡ refusal_status refusal }
    {
        refusal as u8
    }
}
