// The test of a sound state.
#![tactic(auto)]

ghost use Rattle.std.specs.Prelude.{◌≡◌, true, ◌≤◌};
ghost use Rattle.machine.specs.Sound.{sound};
ghost use Rattle.sound.specs.Test.{parts_ok, processes_ok};

use machine::{Machine, Process};

mod device;
mod gate;
mod held;
mod numbers;
mod process;
mod queue;
mod ready;
mod tally;

// "A sound state", exactly. The numbers come first: what is tested after them stands on their ranges.
#[tactic(auto, using(crate::proofs::Whole::tested))]
pub fn is_sound(m: Machine) -> bool
    ensures { result ≡ sound m }
{
    numbers::are_ok(&m) && parts_are_ok(&m) && processes_are_ok(&m)
}

// The ready, the clock, the bell, the devices and the gates, each by itself.
#[tactic(auto, using(crate::proofs::Whole::parts_row))]
fn parts_are_ok(m: &Machine) -> bool
    requires { m.now.created ≤ 10 }
    ensures { result ≡ parts_ok m.now }
{
    // First, since the proof knows the lengths of the arrays by the slices lent here.
    let classes = ready::are_ok(&m.processes, m.created, &m.ready);
    let devices = device::are_ok(&m.devices, m.created, m.present);
    let gates = gate::are_ok(&m.gates, m.created, m.made);
    classes
        && queue::is_ok(&m.clock, m.created)
        && queue::is_ok(&m.bell, m.created)
        && devices
        && gates
}

// The created processes: one pass over the parts counts how often each stands where.
#[tactic(auto, using(crate::proofs::Whole::few))]
fn processes_are_ok(m: &Machine) -> bool
    requires { (m.now.created ≤ 10) × (parts_ok m.now ≡ true) }
    ensures { result ≡ processes_ok m.now }
{
    let here = tally::of_ready(m.running, &m.ready);
    let at_gates = tally::of_gates(&m.gates);
    let elsewhere = tally::of_waits(&m.clock, &m.bell, &m.devices);
    let holders = held::holders_of(&m.gates);
    // By a slice of all the proof knows their number.
    let processes: &[Process] = &m.processes;
    let created = &processes[..usize::from(m.created)];
    process::are_ok(m.length, &holders, &here, &at_gates, &elsewhere, created)
}
