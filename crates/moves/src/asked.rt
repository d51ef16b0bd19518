// What fault 8 asks of the caller, the processes and the gates; one that is not there has none.
ghost use Rattle.std.specs.Prelude.{◌≡◌};
ghost use Rattle.machine.specs.declared.Machine.{Machine};
ghost use Rattle.machine.specs.State.{proc};
ghost use Rattle.machine.specs.Gate.{latest, may_enter, may_leave, may_continue, may_delay};

use machine::{Gates, Machine, Process};

// The latest gate entered; of none the first of the list, of a list too long 0.
#[tactic(auto, using(machine::proofs::Laws::past))]
fn latest(p: Process) -> u8
    ensures { result ≡ latest p }
{
    let last = usize::from(p.holds.saturating_sub(1));
    p.held.get(last).copied().unwrap_or(0)
}

// Each question is given the caller's record and the parts of the machine that it reads: a kernel call, which asks, has those in
// hand and no machine.
// A gate there is, not held by the caller, which is process i and has room for one more.
#[tactic(auto, unfolding(machine::specs::Gate::may_enter))]
pub fn may_enter(p: Process, i: u8, gates: Gates, made: u8, g: u8) -> bool
    ensures { (m : Machine) → m.running ≡ i → proc m m.running ≡ p → m.gates ≡ gates → m.made ≡ made → result ≡ may_enter m g }
{
    let holder = gates.get(usize::from(g)).map_or(0, |w| w.holder);
    g < made && holder != i && p.holds < Machine::HELD
}

// A gate there is, and the latest that the caller entered.
#[tactic(auto, unfolding(machine::specs::Gate::may_leave))]
pub fn may_leave(p: Process, made: u8, g: u8) -> bool
    ensures { (m : Machine) → proc m m.running ≡ p → m.made ≡ made → result ≡ may_leave m g }
{
    g < made && 0 < p.holds && latest(p) == g
}

#[tactic(auto, unfolding(machine::specs::Gate::may_continue))]
pub fn may_continue(p: Process, made: u8, g: u8, c: u8) -> bool
    ensures { (m : Machine) → proc m m.running ≡ p → m.made ≡ made → result ≡ may_continue m g c }
{
    may_leave(p, made, g) && c <= Machine::LAST_CELL
}

#[tactic(auto, unfolding(machine::specs::Gate::may_delay))]
pub fn may_delay(p: Process, gates: Gates, made: u8, g: u8, c: u8) -> bool
    ensures { (m : Machine) → proc m m.running ≡ p → m.gates ≡ gates → m.made ≡ made → result ≡ may_delay m g c }
{
    let sits = gates.get(usize::from(g)).map_or(0, |w| w.cell(c));
    may_continue(p, made, g, c) && Machine::NOBODY <= sits
}
