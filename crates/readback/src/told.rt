// What a program in another language is told.
ghost use Rattle.std.specs.Prelude.{◌≡◌};
ghost use Rattle.readback.specs.Told.{status_of, record_left, turn, turn_by};

use crate::judge::Refusal;
use crate::reader::Stepped;
use answer::answer::Answer;

// Returns the status, a number as C has it. The record goes in as five numbers; a refusal leaves them as they were.
pub fn tell(read: Result<Answer, Refusal>, record: &mut [u16; 5]) -> u8
    ensures { (result ≡ status_of read) × («record».new ≡ record_left read «record».old) }
{
    match read {
        Ok(a) => {
            *record = [a.status as u16, a.flags, a.steps, a.r, a.s];
            0
        }
        Err(why) => u8::from(why),
    }
}

// Returns the status of what was handed out at `place`, and moves the place past the line. At the end all
// is as it was.
pub fn tell_next(
    stepped: Stepped,
    place: &mut usize,
    record: &mut [u16; 5],
    start: &mut usize,
) -> u8
    ensures { turn result place.new «record».new start.new ≡ turn_by stepped.handed stepped.place place.old «record».old start.old }
{
    match stepped.handed {
        Some(Ok(a)) => {
            *record = [a.status as u16, a.flags, a.steps, a.r, a.s];
            *start = *place;
            *place = stepped.place;
            0
        }
        Some(Err(line)) => {
            *start = line.start;
            *place = stepped.place;
            u8::from(line.why)
        }
        None => 255,
    }
}
