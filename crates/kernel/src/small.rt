// Calls 0, 1, 2, 4 and 5: the clock, a stop of the machine, the end of a process, a stop for a job.
ghost use Rattle.std.specs.Prelude.{◌≡◌, leb, set};
ghost use Rattle.notation.specs.If.{if};
ghost use Rattle.machine.specs.declared.Machine.{Machine};
ghost use Rattle.machine.specs.Call.{call0, call1, call2, call4, call5};
ghost use Rattle.word.specs.Word.{number_of};
ghost use Rattle.kernel.specs.Did.{OnMachine, OnPrivate, Told, answered};

use crate::answer::{Act, Decision};
use crate::caller::{Caller, own};
use crate::fit::Fit;
use machine::{Machine, Process};
use word::Fault;

// 0 wait for the next second.
pub(crate) fn call0(who: Fit) -> Decision
    ensures { (m : Machine) → Told who.caller m → OnMachine result m call0 }
{
    who.goes(who.caller.process.regs.s, Act::WaitClock)
}

// 1 push seconds.
pub(crate) fn call1(who: Fit, private: &mut [u16; Machine::PRIVATE]) -> Result<Decision, Fault>
    ensures { (m : Machine) → Told who.caller m → OnPrivate (answered who.caller result) m private.old private.new call1 }
{
    let s = who.push(who.caller.seconds, private)?;
    Ok(who.goes(s, Act::Go))
}

// The faults with which a process may stop the machine, by their numbers 0 to 6.
const STOPS: [Fault; 7] = [
    Fault::Terminated,
    Fault::Overflow,
    Fault::Pointer,
    Fault::Range,
    Fault::Variant,
    Fault::HeapLimit,
    Fault::StackLimit,
];

// The fault of a number; of any other it is 7.
fn asked(number: u16) -> Fault
    ensures { number_of result ≡ if (leb number 6) number 7 }
{
    STOPS
        .get(usize::from(number))
        .copied()
        .unwrap_or(Fault::Code)
}

// 2 pop r, stop the machine with r.
pub(crate) fn call2(who: Fit, private: &[u16; Machine::PRIVATE]) -> Result<Decision, Fault>
    ensures { (m : Machine) → Told who.caller m → OnPrivate (answered who.caller result) m private.now private.now call2 }
{
    let [number] = who.words::<1>(private)?;
    Err(asked(number))
}

// 4 end.
pub(crate) fn call4(who: Fit) -> Result<Decision, Fault>
    ensures { (m : Machine) → Told who.caller m → OnMachine (answered who.caller result) m call4 }
{
    if 0 < who.caller.process.holds {
        return Err(Fault::Gate);
    }
    Ok(who.goes(who.caller.process.regs.s, Act::Finish))
}

// 5 stop job: pop reason, process; push the answer.
pub(crate) fn call5(
    who: Fit,
    processes: &[Process; Machine::PROCESSES as usize],
    private: &mut [u16; Machine::PRIVATE],
) -> Result<Decision, Fault>
    ensures { (m : Machine) → Told who.caller m → m.processes ≡ set processes.now who.caller.number who.caller.process → OnPrivate (answered who.caller result) m private.old private.new call5 }
{
    let [reason, q] = who.words::<2>(private)?;
    let Caller {
        number,
        process,
        created,
        ..
    } = who.caller;
    let s = process.regs.s + 1;
    private[own(number, s)] = moves::stop_answer(*processes, number, process, created, q, reason);
    Ok(who.goes(s, Act::StopJob(q, reason)))
}
