// The machine's state, its limits and the fresh machine. What it does is defined in specs/.
#![tactic(auto)]

mod classes;
mod clock;
mod gates;
mod queues;

ghost use Rattle.std.specs.Prelude.{◌≡◌};
ghost use Rattle.machine.specs.State.{started, fresh};

pub use classes::{Selection, class_of, is_better_ready, joined, selected};
use image::Header;

// The state's numbers, lengths and flags are those that the definitions, the theorems and the state's words speak of (specs/State,
// specs/Sound; the crate layout): nobody is the number 10 and no Option, and a length stands beside its places.
// Processes in order: the first len of at.
#[derive(Clone, Copy)]
pub struct Queue {
    pub len: u8,
    pub at: [u8; Machine::PROCESSES as usize],
}

// A gate is open where its holder is nobody.
#[derive(Clone, Copy)]
pub struct Gate {
    pub holder: u8,
    pub queue: Queue,
    pub cells: [u8; Machine::CELLS as usize],
}

// The registers of the virtual code, with a job's: reason 0 says that no stop is pending.
#[derive(Clone, Copy)]
pub struct Regs {
    pub address: u16,
    pub line: u16,
    pub s: u16,
    pub b: u16,
    pub c: u16,
    pub in_job: bool,
    pub saved_s: u16,
    pub saved_b: u16,
    pub saved_address: u16,
    pub p: u16,
    pub reason: u16,
}

// The gates held are the first holds of held, in the order entered.
#[derive(Clone, Copy)]
pub struct Process {
    pub regs: Regs,
    pub variables: u16,
    pub slice: u8,
    pub class: u8,
    pub holds: u8,
    pub held: [u8; Machine::HELD as usize],
    pub ended: bool,
}

// A device is busy where a process waits for it; operation and the record's address are kept from the start.
#[derive(Clone, Copy)]
pub struct Device {
    pub process: u8,
    pub operation: u8,
    pub address: u16,
}

pub type Processes = [Process; Machine::PROCESSES as usize];

pub type Gates = [Gate; Machine::GATES as usize];

// The count is of selections from class 0 or 1 while class 2 is not empty; the mark is the running process's.
// Nobody runs, holds, sits or waits where the number is 10; the machine is stopped unless stop is 10.
#[derive(Clone, Copy)]
pub struct Machine {
    pub processes: Processes,
    pub gates: Gates,
    pub ready: [Queue; 3],
    pub clock: Queue,
    pub bell: Queue,
    pub devices: [Device; 5],
    pub running: u8,
    pub created: u8,
    pub made: u8,
    pub stop: u8,
    pub line: u16,
    pub seconds: u16,
    pub fraction: u16,
    pub edition: u16,
    pub length: u16,
    pub present: u16,
    pub count: u8,
    pub mark: bool,
}

impl Process {
    // A process as it starts: at an address, with its variables, its stack empty.
    #[tactic(auto, unfolding(crate::specs::State::started))]
    pub fn started(address: u16, variables: u16) -> Process
        ensures { result ≡ started address variables }
    {
        let regs = Regs {
            address,
            line: 0,
            s: Machine::CEILING,
            b: Machine::CEILING,
            c: Machine::CEILING,
            in_job: false,
            saved_s: 0,
            saved_b: 0,
            saved_address: 0,
            p: 0,
            reason: 0,
        };
        Process {
            regs,
            variables,
            slice: 0,
            class: 2,
            holds: 0,
            held: [0; Machine::HELD as usize],
            ended: false,
        }
    }
}

impl Device {
    pub(crate) const IDLE: Device = Device {
        process: Machine::NOBODY,
        operation: 0,
        address: 0,
    };
}

impl Machine {
    pub const PROCESSES: u8 = 10;

    pub const GATES: u8 = 25;

    pub const CELLS: u8 = 8;

    pub const LAST_CELL: u8 = Machine::CELLS - 1;

    pub const HELD: u8 = 8;

    // Who waits at a gate has room for one more.
    pub const LAST_HELD: u8 = Machine::HELD - 1;

    // A tick is 10 units; a slice ends at 200, so that 190 is its last multiple.
    pub const UNITS: u8 = 10;

    pub const SLICE: u8 = 200;

    pub const LAST_UNITS: u8 = Machine::SLICE - Machine::UNITS;

    // The same as a word; a second has 10,000 units, and 32,767 is the last second.
    pub const TICK: u16 = Machine::UNITS as u16;

    pub const LAST_FRACTION: u16 = 10000 - Machine::TICK;

    pub const LAST_SECOND: u16 = 32767;

    // A process's number that is popped is a word.
    pub const NO_PROCESS: u16 = Machine::PROCESSES as u16;

    // The reasons of a stop.
    pub const FIRST_REASON: u16 = 16;

    pub const LAST_REASON: u16 = 255;

    // After so many selections from class 0 or 1 while class 2 is not empty, the next is from class 2.
    pub const MOST_COUNT: u8 = 8;

    pub const NOBODY: u8 = 10;

    pub const GOING: u8 = 10;

    pub const COMMON: usize = 2048;

    pub const PRIVATE: usize = 20480;

    // Each process's own part of it.
    pub const PART: usize = 2048;

    // An address from this one on is in the running process's own part of the private store; and the one past it.
    pub const OWN: u16 = 2048;

    pub const CEILING: u16 = 4096;

    // The same, where it is reckoned beyond a word.
    pub const OWN_AT: usize = Machine::OWN as usize;

    pub const CEILING_AT: usize = Machine::CEILING as usize;

    pub const MOST_CODE: usize = Header::MOST_LENGTH as usize;

    // The machine after loading: process 0 runs, and nothing else is there.
    #[tactic(auto, unfolding(crate::specs::State::fresh))]
    pub fn fresh(header: Header) -> Machine
        ensures { result ≡ fresh header }
    {
        let mut processes = [Process::started(0, 0); Machine::PROCESSES as usize];
        processes[0] = Process::started(0, header.variables);
        Machine {
            processes,
            gates: [Gate::OPEN; Machine::GATES as usize],
            ready: [Queue::EMPTY; 3],
            clock: Queue::EMPTY,
            bell: Queue::EMPTY,
            devices: [Device::IDLE; 5],
            running: 0,
            created: 1,
            made: 0,
            stop: Machine::GOING,
            line: 0,
            seconds: 0,
            fraction: 0,
            edition: header.edition,
            length: header.length,
            present: header.devices,
            count: 0,
            mark: false,
        }
    }
}
