// KTRAP k by its number, where the caller and the stores are fit for it: first the decision, then the move of the machine.
ghost use Rattle.std.specs.Prelude.{◌≡◌};
ghost use Rattle.machine.specs.State.{timed};
ghost use Rattle.kernel.specs.Did.{performed, CallOf, CallDecided, answered};

use crate::answer::{Act, Decision};
use crate::caller::Caller;
use crate::fit::Fit;
use crate::{create, io, on_gate, small};
use machine::{Gate, Machine, Process};
use word::Fault;

// The call of a number; any other is 7. The numbers are document 01's. Each call is given other parts, so a table of closures would
// be no plainer than this match; nor would it be in `perform`.
#[tactic(auto, unfolding(machine::specs::Call::kernel))]
fn call_of(
    who: Fit,
    processes: &[Process; Machine::PROCESSES as usize],
    gates: &[Gate; Machine::GATES as usize],
    k: u16,
    common: &mut [u16; Machine::COMMON],
    private: &mut [u16; Machine::PRIVATE],
) -> Result<Decision, Fault>
    ensures { CallOf who.caller processes.now gates.now k (answered who.caller result) common.old common.new private.old private.new }
{
    match k {
        0 => Ok(small::call0(who)),
        1 => small::call1(who, private),
        2 => small::call2(who, private),
        3 => create::call3(who, private),
        4 => small::call4(who),
        5 => small::call5(who, processes, private),
        6 => on_gate::call6(who, gates, private),
        7 => on_gate::call7(who, gates, private),
        8 => on_gate::call8(who, gates, private),
        9 => on_gate::call9(who, gates, private),
        10 => on_gate::call10(who, private),
        11 => io::call11(who, common, private),
        _ => Err(Fault::Code),
    }
}

// What a kernel call of the running process does to its record and to the stores, and the move of the machine that is left to do.
// The promise is for each machine of which the caller is told; of the processes only the others are looked at. Of a caller that is
// not able there may be no such machine: it is answered alike.
pub fn decide(
    who: Caller,
    processes: [Process; Machine::PROCESSES as usize],
    gates: [Gate; Machine::GATES as usize],
    k: u16,
    common: &mut [u16],
    private: &mut [u16],
) -> Decision
    ensures { CallDecided who processes gates k result common.old common.new private.old private.new }
{
    let Some(common) = common.as_mut_array() else {
        return who.unfit();
    };
    let Some(private) = private.as_mut_array() else {
        return who.unfit();
    };
    let Some(fit) = who.fit() else {
        return who.unfit();
    };
    call_of(fit, &processes, &gates, k, common, private).unwrap_or_else(|fault| who.stops(fault))
}

// The machine stops with a fault, at a line.
fn halt(mut m: Machine, number: u8, line: u16) -> Machine
    ensures { result ≡ timed m number line m.seconds m.fraction }
{
    m.stop = number;
    m.line = line;
    m
}

// The move that was decided; the caller's record has been put in its place.
pub fn perform(m: Machine, act: Act) -> Machine
    ensures { result ≡ performed m act }
{
    match act {
        Act::Unfit => m,
        Act::Stop(number, line) => halt(m, number, line),
        Act::Go => m,
        Act::WaitClock => m.clock_wait(),
        Act::WaitBell => m.bell_wait(),
        Act::Create(t, v) => moves::create_process(m, t, v),
        Act::Finish => moves::finish(m),
        Act::StopJob(q, reason) => moves::stop_job(m, q, reason),
        Act::Enter(g) => m.enter(g),
        Act::Leave(g) => m.leave(g),
        Act::Delay(g, c) => m.delay(g, c),
        Act::Continue(g, c) => m.continue_cell(g, c),
        Act::MakeGate => m.make_gate(),
        Act::Start(d, operation, a) => moves::device_start(m, d, operation, a),
    }
}
