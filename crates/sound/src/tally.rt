// How often each process stands where: a tally has a count for each.
ghost use Rattle.std.specs.Prelude.{ℕ, ◌+◌, ◌≤◌, ◌<◌, length, get_or, sum_by, ◌≡◌};
ghost use Rattle.notation.specs.Upto.{sum_to};
ghost use Rattle.machine.specs.State.{no_gate, no_queue, no_device};
ghost use Rattle.machine.specs.Sound.{sits, in_queue, at_gate};
ghost use Rattle.sound.specs.Tally.{Room, Grown, Counts};

use crate::gate;
use crate::queue::standing;
use machine::{Device, Gate, Machine, Queue};

// One more for each seat of a number below N, and none for nobody's.
pub(crate) fn count<const N: usize>(t: &mut [u16; N], seats: &[u8])
    requires { (length seats.now ≤ 10) × Room N 50000 t.old }
    ensures { Grown N t.old t.new (λ q. sum_by (sits q) seats.now) }
{
    for &x in seats {
        let x = usize::from(x);
        if x < N {
            t[x] += 1;
        }
    }
}

// One more for each who stands in a queue.
#[tactic(auto, using(crate::proofs::Tallies::counted))]
fn queue(t: &mut [u16; Machine::PROCESSES as usize], w: &Queue)
    requires { (w.now.len ≤ 10) × Room 10 50000 t.old }
    ensures { Grown 10 t.old t.new (λ q. in_queue q w.now) }
{
    count(t, standing(w));
}

// One more for each who waits or is delayed at a gate.
#[tactic(auto, using(crate::proofs::Tallies::counted, crate::proofs::Parts::quiet_away))]
fn at_gate(t: &mut [u16; Machine::PROCESSES as usize], w: &Gate)
    requires { (w.now.queue.len ≤ 10) × Room 10 40000 t.old }
    ensures { Grown 10 t.old t.new (λ q. at_gate q w.now) }
{
    if !gate::is_quiet(w) {
        queue(t, &w.queue);
        count(t, &w.cells);
    }
}

// Who runs or is ready.
#[tactic(auto, using(crate::proofs::Tallies::zeros), unfolding(notation::specs::Upto::sum_to))]
pub(crate) fn of_ready(running: u8, ready: &[Queue; 3]) -> [u16; Machine::PROCESSES as usize]
    requires { (c : ℕ) → c < 3 → (get_or ready.now c no_queue).len ≤ 10 }
    ensures { Counts result (λ q. sits q running + sum_to (λ c. in_queue q (get_or ready.now c no_queue)) 3) }
{
    let mut t = [0; Machine::PROCESSES as usize];
    count(&mut t, &[running]);
    for w in ready {
        queue(&mut t, w);
    }
    t
}

// Who waits or is delayed at the gates.
#[tactic(auto, using(crate::proofs::Tallies::zeros), unfolding(notation::specs::Upto::sum_to))]
pub(crate) fn of_gates(
    gates: &[Gate; Machine::GATES as usize],
) -> [u16; Machine::PROCESSES as usize]
    requires { (g : ℕ) → g < 25 → (get_or gates.now g no_gate).queue.len ≤ 10 }
    ensures { Counts result (λ q. sum_to (λ g. at_gate q (get_or gates.now g no_gate)) 25) }
{
    let mut t = [0; Machine::PROCESSES as usize];
    for w in gates {
        at_gate(&mut t, w);
    }
    t
}

fn waiting(devices: &[Device; 5]) -> [u8; 5]
    ensures { (d : ℕ) → d < 5 → get_or result d 0 ≡ (get_or devices.now d no_device).process }
{
    devices.map(|d| d.process)
}

// Who waits for the clock, the bell or a device.
#[tactic(auto, using(crate::proofs::Tallies::counted))]
pub(crate) fn of_waits(
    clock: &Queue,
    bell: &Queue,
    devices: &[Device; 5],
) -> [u16; Machine::PROCESSES as usize]
    requires { (clock.now.len ≤ 10) × (bell.now.len ≤ 10) }
    ensures { Counts result (λ q. in_queue q clock.now + in_queue q bell.now + sum_to (λ d. sits q (get_or devices.now d no_device).process) 5) }
{
    let mut t = [0; Machine::PROCESSES as usize];
    queue(&mut t, clock);
    queue(&mut t, bell);
    count(&mut t, &waiting(devices));
    t
}
