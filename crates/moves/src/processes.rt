// Processes: a new one, the end of one, a stop for a job.
ghost use Rattle.std.specs.Prelude.{◌≡◌, ◌||◌, not, eqb, ltb, get_or, set};
ghost use Rattle.notation.specs.If.{if};
ghost use Rattle.machine.specs.declared.Machine.{Machine};
ghost use Rattle.machine.specs.State.{more, no_process, started};
ghost use Rattle.machine.specs.Call.{create_process, over, finish, stop_answer, stop_job};
ghost use Rattle.moves.specs.Stop.{number_of, answered};

use crate::ready::{set_running, wake};
use machine::{Machine, Process, Processes};

// ---- call 3
// The child's record, as process 0 started; of an eleventh there is none.
#[tactic(auto, using(machine::proofs::Laws::cases, machine::proofs::Laws::past))]
fn born(processes: &mut Processes, created: &mut u8, t: u16, v: u16)
    ensures child { processes.new ≡ set processes.old created.old (started t v) }
    ensures one_more { created.new ≡ more created.old 10 }
{
    if *created < Machine::PROCESSES {
        processes[usize::from(*created)] = Process::started(t, v);
        *created += 1;
    }
}

// The parent goes to the tail of its class, and the child to the tail of class 2, in which it starts.
#[tactic(auto, unfolding(machine::specs::Call::create_process, machine::specs::Call::born))]
pub fn create_process(mut m: Machine, t: u16, v: u16) -> Machine
    ensures { result ≡ create_process m t v }
{
    let parent = m.running;
    let child = m.created;
    set_running(&mut m, Machine::NOBODY);
    wake(&mut m, parent);
    born(&mut m.processes, &mut m.created, t, v);
    wake(&mut m, child);
    m
}

// ---- call 4
#[tactic(auto, unfolding(machine::specs::Call::finish, machine::specs::Classes::set_running, machine::specs::State::with_process))]
pub fn finish(mut m: Machine) -> Machine
    ensures { result ≡ finish m }
{
    let i = m.running;
    set_running(&mut m, Machine::NOBODY);
    set_ended(&mut m.processes, i);
    m
}

// A guarded write, as a device's and as the machine's `seat`: one generic `set` for them would have to be public in machine.
#[tactic(auto, using(machine::proofs::Laws::past))]
fn set_ended(processes: &mut Processes, h: u8)
    ensures { processes.new ≡ set processes.old h (over (get_or processes.old h no_process)) }
{
    if h < Machine::PROCESSES {
        processes[usize::from(h)].ended = true;
    }
}

// ---- call 5
// Why call 5 stops no job.
#[derive(Clone, Copy)]
enum NotStopped {
    NoProcess = 1,
    NoJob = 2,
    Reason = 3,
    Already = 4,
}

impl From<NotStopped> for u16 {
    ghost from_gives = { λ e n. n ≡ number_of e };

    fn from(e: NotStopped) -> u16 {
        e as u16
    }
}

// Whether the job of process q may be stopped; of a process that is not there, there is no job.
#[tactic(auto, using(machine::proofs::Laws::cases, machine::proofs::Laws::past), unfolding(machine::specs::Call::stop_answer))]
fn check_stop(processes: &Processes, created: u8, q: u16, reason: u16) -> Result<(), NotStopped>
    ensures { (m : Machine) → m.processes ≡ processes.now → m.created ≡ created → answered result ≡ stop_answer m q reason }
{
    if u16::from(created) <= q {
        return Err(NotStopped::NoProcess);
    }
    let Some(p) = processes.get(usize::from(q)) else {
        return Err(NotStopped::NoJob);
    };
    let r = p.regs;
    if !r.in_job {
        return Err(NotStopped::NoJob);
    }
    if !(Machine::FIRST_REASON..=Machine::LAST_REASON).contains(&reason) {
        return Err(NotStopped::Reason);
    }
    if r.reason != 0 {
        return Err(NotStopped::Already);
    }
    Ok(())
}

// Where nothing forbids it, the job of process q has a stop pending.
#[tactic(auto, using(machine::proofs::Laws::cases, machine::proofs::Laws::past), unfolding(machine::specs::Call::stop_job, machine::specs::State::with_process))]
pub fn stop_job(mut m: Machine, q: u16, reason: u16) -> Machine
    ensures { result ≡ stop_job m q reason }
{
    if check_stop(&m.processes, m.created, q, reason).is_ok() && q < Machine::NO_PROCESS {
        m.processes[usize::from(q)].regs.reason = reason;
    }
    m
}

// Call 5 pushes the answer as a number: 0, or why there is no stop; p is the record of process i, whatever stands there.
#[tactic(auto, using(machine::proofs::Laws::past))]
pub fn stop_answer(
    mut processes: Processes,
    i: u8,
    p: Process,
    created: u8,
    q: u16,
    reason: u16,
) -> u16
    ensures { (m : Machine) → m.processes ≡ set processes i p → m.created ≡ created → result ≡ stop_answer m q reason }
{
    if i < Machine::PROCESSES {
        processes[usize::from(i)] = p;
    }
    check_stop(&processes, created, q, reason).map_or_else(u16::from, |()| 0)
}
