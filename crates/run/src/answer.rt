// What an offer is answered.
ghost use Rattle.std.specs.Prelude.{◌≡◌};

use image::Refusal;
use machine::Machine;

// How it ended: with nothing to tell; nobody ran; a device has started; the machine has stopped.
#[derive(Clone, Copy, PartialEq, Eq)]
pub enum Ended {
    Onward,
    Idle,
    Starting(u8),
    Stopped,
}

// The machine after an offer, the answer, and how many instructions it counts.
#[derive(Clone, Copy)]
pub struct Offered {
    pub machine: Machine,
    pub reply: Result<Ended, Refusal>,
    pub count: u32,
}

impl Offered {
    // An event has happened: there is nothing to tell, and no instruction is counted.
    pub(crate) fn event(machine: Machine) -> Offered
        ensures { result ≡ record { machine = machine; reply = Ok Ended.Onward; count = 0 } }
    {
        Offered {
            machine,
            reply: Ok(Ended::Onward),
            count: 0,
        }
    }

    // A refused offer leaves the machine as it was.
    pub(crate) fn refused(machine: Machine, refusal: Refusal) -> Offered
        ensures { result ≡ record { machine = machine; reply = Err refusal; count = 0 } }
    {
        Offered {
            machine,
            reply: Err(refusal),
            count: 0,
        }
    }
}

// The machine after some instructions, how they ended, and how many they were.
#[derive(Clone, Copy)]
pub struct Ran {
    pub machine: Machine,
    pub ended: Ended,
    pub count: u32,
}
