// A request as it comes in, and with its operation decoded.
ghost use Rattle.std.specs.Prelude.{◌≡◌};
ghost use Rattle.request.specs.Judge.{request_of};
ghost use Rattle.request.specs.Limits.{fits_in};

use crate::operation::Operation;
use flags::word::Flags;

// Nothing in it has been checked.
#[derive(Clone, Copy, Debug, PartialEq, Eq)]
pub struct Raw {
    pub op: u8,
    pub mode: u8,
    pub flags: u16,
    pub x: u32,
    pub y: u16,
}

impl Raw {
    // The request, once its op and mode are known to name this operation.
    pub fn with_operation(self, operation: Operation) -> Request
        ensures { result ≡ request_of operation self }
    {
        Request {
            operation,
            flags: self.flags,
            x: self.x,
            y: self.y,
        }
    }
}

// The operation is known. X, Y and the flags are checked against its limits where its work is done. They stand one by
// one, as in `Raw`: no function takes the three alone.
#[derive(Clone, Copy, Debug, PartialEq, Eq)]
pub struct Request {
    pub operation: Operation,
    pub flags: u16,
    pub x: u32,
    pub y: u16,
}

impl Request {
    // Whether X and Y are within these limits and no flag is outside 08D5. If not, the status is 5.
    pub fn fits(self, x_most: u32, y_most: u16) -> bool
        ensures { result ≡ fits_in x_most y_most self.flags self.x self.y }
    {
        (self.x <= x_most) & (self.y <= y_most) & Flags::is_flags(self.flags)
    }
}
