// The register record, and what an operation over it comes to. The one place that counts an operation's steps, or
// refuses it for its total.
ghost use Rattle.std.specs.Prelude.{◌≡◌};
ghost use Rattle.registers.specs.Over.{counted_of, leaving, settled_of};

use answer::answer::Answer;

#[derive(Clone, Copy, Debug, PartialEq, Eq)]
pub struct Registers {
    pub ax: u16,
    pub dx: u16,
    pub flags: u16,
    pub total: u32,
}

// The status is the number that docs/CHARTS.md has for it, and the definition `over` and its laws too: it goes
// out to C as it is.
#[derive(Clone, Copy, Debug, PartialEq, Eq)]
pub struct Settled {
    pub status: u8,
    pub steps: u16,
    pub regs: Registers,
}

impl Registers {
    // AX and DX stay. After 1 to 5, and where the total has no room for the steps, all of the record does.
    #[tactic(auto, unfolding(crate::specs::Over::counted_of))]
    pub fn count(self, a: Answer) -> Settled
        ensures { result ≡ leaving (counted_of self.flags self.total a) self.ax self.dx }
    {
        let stays = Settled {
            status: a.status,
            steps: 0,
            regs: self,
        };
        if matches!(a.status, 1..=5) {
            return stays;
        }
        match self.total.checked_add(a.steps as u32) {
            None => Settled {
                status: 10,
                ..stays
            },
            Some(total) => Settled {
                status: a.status,
                steps: a.steps,
                regs: Registers {
                    flags: a.flags,
                    total,
                    ..self
                },
            },
        }
    }

    // AX and DX take what they are given only where all is done.
    #[tactic(auto, unfolding(crate::specs::Over::settled_of))]
    pub fn settle(self, a: Answer, ax_taken: u16, dx_taken: u16) -> Settled
        ensures { result ≡ settled_of self a ax_taken dx_taken }
    {
        let counted = self.count(a);
        if counted.status != 0 {
            return counted;
        }
        Settled {
            regs: Registers {
                ax: ax_taken,
                dx: dx_taken,
                ..counted.regs
            },
            ..counted
        }
    }
}
