// The caller: what a call is told of it, and how it ends the call or is not fit for it.
ghost use Rattle.std.specs.Prelude.{◌≡◌, ◌≤◌, false, true, MatchOption};
ghost use Rattle.machine.specs.Store.{own};
ghost use Rattle.kernel.specs.declared.answer.Act.TheVariants.{Unfit};
ghost use Rattle.kernel.specs.Did.{able, answered};

use crate::answer::{Act, Decision};
use crate::fit::Fit;
use image::Header;
use machine::{Device, Machine, Process};
use word::Fault;

// What a call is told of the machine by who has it in hand: the caller's number and record, and the fields that calls read; and no
// machine in its place: (a) `decide` is public, and its contract speaks of Caller.
#[derive(Clone, Copy)]
pub struct Caller {
    pub number: u8,
    pub process: Process,
    pub seconds: u16,
    pub created: u8,
    pub made: u8,
    pub length: u16,
    pub present: u16,
    pub devices: [Device; 5],
}

// Where process i has an address of its own part.
pub(crate) fn own(i: u8, a: u16) -> usize
    requires { 2048 ≤ a }
    ensures { result ≡ own i a }
{
    Machine::PART * usize::from(i) + (usize::from(a) - Machine::OWN_AT)
}

impl Caller {
    // The caller, where it is as a sound state has it.
    pub(crate) fn fit(self) -> Option<Fit>
        ensures { MatchOption result (able self ≡ false) (λ x. (x.caller ≡ self) × (able self ≡ true)) }
    {
        let r = self.process.regs;
        if self.number < Machine::NOBODY
            && 1 <= self.created
            && self.made <= Machine::GATES
            && Machine::OWN <= r.s
            && r.s <= r.b
            && r.b <= Machine::CEILING
            && r.address <= Header::MOST_LENGTH
        {
            return Some(Fit { caller: self });
        }
        None
    }

    // The machine is to stop, at the caller's last line.
    pub(crate) fn stops(self, fault: Fault) -> Decision
        ensures { result ≡ answered self (Err fault) }
    {
        let process = self.process;
        Decision {
            process,
            act: Act::Stop(fault.into(), process.regs.line),
        }
    }

    pub(crate) fn unfit(self) -> Decision
        ensures { result ≡ record { process = self.process; act = Unfit } }
    {
        Decision {
            process: self.process,
            act: Act::Unfit,
        }
    }
}
