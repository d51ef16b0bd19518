// A gate: its holder, its waiters and its cells.
ghost use Rattle.std.specs.Prelude.{◌≡◌, ◌≤◌, ◌&&◌, true, not, ltb, eqb};
ghost use Rattle.std.specs.List.{list_all, fold, enumerate_from};
ghost use Rattle.machine.specs.Sound.{at_gate};
ghost use Rattle.sound.specs.Test.{someone_in, quiet_in, shut_in, gate_in};

use crate::queue::{self, standing};
use machine::{Gate, Machine};

// With no end before the last, as in `held::agree`.
fn are_empty(cells: &[u8]) -> bool
    ensures { result ≡ fold (λ ok x. ok && eqb x 10) true cells.now }
{
    cells
        .iter()
        .fold(true, |ok, &x| ok & (x == Machine::NOBODY))
}

// Nobody waits or is delayed.
#[tactic(auto, using(crate::proofs::Parts::quiet_cells), unfolding(crate::specs::Test::quiet_in))]
pub(crate) fn is_quiet(w: &Gate) -> bool
    ensures { result ≡ quiet_in w.now }
{
    w.queue.len == 0 && are_empty(&w.cells)
}

fn are_filled_well(cells: &[u8], created: u8) -> bool
    ensures { result ≡ list_all (someone_in created) cells.now }
{
    cells.iter().all(|&x| x == Machine::NOBODY || x < created)
}

// x waits or is delayed.
#[tactic(auto, using(crate::proofs::Parts::there))]
fn is_there(w: &Gate, x: u8) -> bool
    requires { w.now.queue.len ≤ 10 }
    ensures { result ≡ not (eqb (at_gate x w.now) 0) }
{
    standing(&w.queue).contains(&x) || w.cells.contains(&x)
}

// "an open one has no waiter"; "nobody waits or is delayed at a gate he holds". "A gate is shut exactly if it has a holder" and "a cell
// has one process at most" hold by the type.
#[tactic(auto, using(crate::proofs::Parts::shut))]
fn is_shut_well(w: &Gate, created: u8) -> bool
    ensures { result ≡ shut_in created w.now }
{
    if !queue::is_ok(&w.queue, created) || !are_filled_well(&w.cells, created) {
        return false;
    }
    let holder = w.holder;
    if holder == Machine::NOBODY {
        w.queue.len == 0
    } else {
        holder < created && !is_there(w, holder)
    }
}

// "other gates have nobody". Most gates are quiet, and are soon done.
#[tactic(auto, using(crate::proofs::Parts::told))]
fn is_ok(w: &Gate, created: u8, made: bool) -> bool
    ensures { result ≡ gate_in created made w.now }
{
    if is_quiet(w) {
        w.holder == Machine::NOBODY || (made && w.holder < created)
    } else {
        made && is_shut_well(w, created)
    }
}

// All 25.
pub(crate) fn are_ok(gates: &[Gate], created: u8, made: u8) -> bool
    ensures { result ≡ list_all (λ x. gate_in created (ltb x.0 made) x.1) (enumerate_from 0 gates.now) }
{
    gates
        .iter()
        .enumerate()
        .all(|(g, w)| is_ok(w, created, g < usize::from(made)))
}
