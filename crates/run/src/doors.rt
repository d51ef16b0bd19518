// The machine's operations, each taken or refused: the first refusal in the table's order returns at once.
ghost use Rattle.std.specs.Prelude.{◌≡◌, List, ℕ};
ghost use Rattle.run.specs.Said.{world, given, step_outcome, run_outcome, tick_outcome, bell_outcome, done_outcome};

use crate::answer::Offered;
use crate::checks::{check_event, check_machine, check_run};
use crate::turn::turns;
use machine::Machine;

// Tick: 10 units of 1/10,000 s.
pub fn tick(m: Machine) -> Offered
    ensures { (c q : List ℕ) → given result c q ≡ tick_outcome (world m c q) }
{
    if let Err(refusal) = check_machine(m) {
        return Offered::refused(m, refusal);
    }
    Offered::event(m.tick())
}

// Bell: all its waiters wake in order. Tick and bell differ in the move alone, and one function that takes it would be no shorter.
pub fn bell(m: Machine) -> Offered
    ensures { (c q : List ℕ) → given result c q ≡ bell_outcome (world m c q) }
{
    if let Err(refusal) = check_machine(m) {
        return Offered::refused(m, refusal);
    }
    Offered::event(m.ring())
}

// Done: the device's process wakes, with the status, and after a read the argument, in its record.
pub fn done(
    m: Machine,
    d: u16,
    status: u16,
    arg: u16,
    common: &mut [u16],
    private: &mut [u16],
) -> Offered
    ensures { given result common.new private.new ≡ done_outcome d status arg (world m common.old private.old) }
{
    if let Err(refusal) = check_event(m, d, status, common.len(), private.len()) {
        return Offered::refused(m, refusal);
    }
    Offered::event(kernel::device_done(m, d as u8, status, arg, common, private))
}

// A run: up to a budget of instructions.
pub fn run(
    m: Machine,
    code: &[u16],
    budget: u32,
    common: &mut [u16],
    private: &mut [u16],
) -> Offered
    ensures { given result common.new private.new ≡ run_outcome code.now budget (world m common.old private.old) }
{
    if let Err(refusal) = check_run(m, code.len(), common.len(), private.len()) {
        return Offered::refused(m, refusal);
    }
    let x = turns(m, code, budget, common, private);
    Offered {
        machine: x.machine,
        reply: Ok(x.ended),
        count: x.count,
    }
}

// One instruction.
pub fn step(m: Machine, code: &[u16], common: &mut [u16], private: &mut [u16]) -> Offered
    ensures { given result common.new private.new ≡ step_outcome code.now (world m common.old private.old) }
{
    run(m, code, 1, common, private)
}
