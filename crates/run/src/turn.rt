// Turns: a burst of the running process, and the selection, the kernel call or the stop that follows it.
ghost use Rattle.std.specs.Prelude.{◌≡◌, ◌≤◌, ◌<◌, length, set};
ghost use Rattle.notation.specs.If.{if};
ghost use Rattle.machine.specs.State.{proc};
ghost use Rattle.machine.specs.Classes.{selects, select};
ghost use Rattle.machine.specs.Run.{run};
ghost use Rattle.machine.specs.Step.{view};
ghost use Rattle.engine.specs.Burst.{end_says, bursts};
ghost use Rattle.kernel.specs.Did.{caller_of, decided, end_of as endOfAct};
ghost use Rattle.run.specs.Turn.{quota_of, turn};
ghost use Rattle.run.specs.Said.{world, end_of};
ghost use Rattle.run.specs.Ran.{ran, is_stopped, Accepted, moved_on, Leaves, counted, Countable, following, settled};

use crate::answer::{Ended, Ran};
use engine::{Burst, End};
use kernel::{Act, Caller, Decision};
use machine::{Machine, Regs};

// What a turn has decided, and how many instructions it counts: a struct, since a pair would not name them.
#[derive(Clone, Copy)]
struct Turned {
    decision: Decision,
    count: u32,
}

// Whether a selection changes the machine: a class is ready that comes before the one that runs, and no mark holds it.
fn selects(m: &Machine) -> bool
    ensures { result ≡ selects m.now }
{
    if Machine::NOBODY <= m.running {
        return machine::is_better_ready(m.ready, 3);
    }
    let class = m.processes[usize::from(m.running)].class;
    machine::is_better_ready(m.ready, class) && !m.mark
}

// Where a better class is ready when the turn begins, it is one instruction long, unless a mark holds the process.
fn quota_of(m: &Machine, budget: u32) -> u32
    ensures { result ≡ quota_of m.now budget }
{
    if selects(m) { 1 } else { budget }
}

// That somebody runs is asked of each of four functions below: the machine's type does not hold it, and stays what the theorems
// speak of.

// A burst of the running process, on its own part of the private store.
fn burst(m: &Machine, code: &[u16], quota: u32, common: &mut [u16], private: &mut [u16]) -> Burst
    requires { (m.now.running < 10) × ((proc m.now m.now.running).variables ≤ 2048) × (length private.old ≡ 20480) }
    ensures { Leaves (bursts quota (view code.now (world m.now common.old private.old))) m.now result private.old common.new private.new }
{
    let i = usize::from(m.running);
    let p = m.processes[i];
    let at = Machine::PART * i;
    engine::run_burst(
        code,
        Machine::OWN + p.variables,
        0 < p.holds,
        p.regs,
        quota,
        common,
        &mut private[at..at + Machine::PART],
    )
}

// The caller after a burst, which left it these registers.
fn caller_after(m: &Machine, regs: Regs) -> Caller
    requires { m.now.running < 10 }
    ensures told { result ≡ caller_of (moved_on m.now regs) }
    ensures there { (moved_on m.now regs).processes ≡ set m.now.processes result.number result.process }
{
    let mut process = m.processes[usize::from(m.running)];
    process.regs = regs;
    Caller {
        number: m.running,
        process,
        seconds: m.seconds,
        created: m.created,
        made: m.made,
        length: m.length,
        present: m.present,
        devices: m.devices,
    }
}

// What follows a burst, by its end.
fn follow(m: &Machine, x: Burst, common: &mut [u16], private: &mut [u16]) -> Decision
    requires { m.now.running < 10 }
    ensures { decided (moved_on m.now x.regs) result common.new private.new ≡ following (end_says x.end) (world (moved_on m.now x.regs) common.old private.old) }
{
    let who = caller_after(m, x.regs);
    let process = who.process;
    match x.end {
        End::Budget | End::Job => Decision {
            process,
            act: Act::Go,
        },
        End::Call(k) => kernel::decide(who, m.processes, m.gates, k, common, private),
        End::Fault(f) => Decision {
            process,
            act: Act::Stop(u8::from(f), process.regs.line),
        },
        End::Unfit => Decision {
            process,
            act: Act::Unfit,
        },
    }
}

// A call and a fault are not counted by their burst.
fn total(end: End, count: u32) -> u32
    requires { Countable (end_says end) count }
    ensures { result ≡ counted (end_says end) count }
{
    match end {
        End::Budget | End::Job => count,
        End::Call(_) | End::Fault(_) => count + 1,
        End::Unfit => 0,
    }
}

// A burst of the running process, and what is decided after it.
fn turn(m: &Machine, code: &[u16], budget: u32, common: &mut [u16], private: &mut [u16]) -> Turned
    requires accepted { Accepted code.now (world m.now common.old private.old) }
    requires runs { m.now.running < 10 }
    requires some { 0 < budget }
    ensures { settled (decided m.now result.decision common.new private.new) result.count ≡ turn code.now (quota_of m.now budget) (world m.now common.old private.old) }
{
    let x = burst(m, code, quota_of(m, budget), common, private);
    Turned {
        decision: follow(m, x, common, private),
        count: total(x.end, x.count),
    }
}

fn ended_of(act: Act) -> Ended
    ensures { end_of result ≡ endOfAct act }
{
    match act {
        Act::Unfit | Act::Stop(_, _) => Ended::Stopped,
        Act::Start(d, _, _) => Ended::Starting(d),
        _ => Ended::Onward,
    }
}

// The selection follows each turn that does not stop; it is made where it changes the machine, since it copies it.
#[tactic(auto, using(crate::proofs::Course::unless_selects, crate::proofs::Course::when_stopped))]
fn select_after(m: &mut Machine, ended: Ended)
    ensures { m.new ≡ if (is_stopped (end_of ended)) m.old (select m.old) }
{
    if ended != Ended::Stopped && selects(m) {
        *m = m.select();
    }
}

// Turns to the budget, to idle, to a device's start or to a stop: a `while`, since a turn counts as many as it will.
pub(crate) fn turns(
    mut m: Machine,
    code: &[u16],
    budget: u32,
    common: &mut [u16],
    private: &mut [u16],
) -> Ran
    requires { Accepted code.now (world m common.old private.old) }
    ensures { ran result common.new private.new ≡ run code.now budget (world m common.old private.old) }
{
    let mut count = 0;
    while count < budget {
        let i = m.running;
        if Machine::NOBODY <= i {
            return Ran {
                machine: m,
                ended: Ended::Idle,
                count,
            };
        }
        let x = turn(&m, code, budget - count, common, private);
        m.processes[usize::from(i)] = x.decision.process;
        m = kernel::perform(m, x.decision.act);
        let ended = ended_of(x.decision.act);
        select_after(&mut m, ended);
        count += x.count;
        if ended != Ended::Onward {
            return Ran {
                machine: m,
                ended,
                count,
            };
        }
    }
    Ran {
        machine: m,
        ended: Ended::Onward,
        count,
    }
}
