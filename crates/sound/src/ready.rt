// The ready processes, by class.
ghost use Rattle.std.specs.Prelude.{◌≡◌, ◌&&◌, ◌≤◌, ltb, eqb, get_or};
ghost use Rattle.std.specs.List.{list_all, enumerate_from};
ghost use Rattle.machine.specs.State.{no_process};
ghost use Rattle.sound.specs.Test.{class_in};

use crate::queue;
use machine::{Machine, Process, Queue};

// They are created processes, and "ready in its class". At most 10 are created: asked in each contract here, since the machine's types,
// which stay, do not hold it.
fn are_of(
    who: &[u8],
    processes: &[Process; Machine::PROCESSES as usize],
    created: u8,
    class: usize,
) -> bool
    requires { created ≤ 10 }
    ensures { result ≡ list_all (λ x. ltb x created && eqb (get_or processes.now x no_process).class class) who.now }
{
    who.iter().all(|&x| x < created && usize::from(processes[usize::from(x)].class) == class)
}

#[tactic(auto, using(crate::proofs::Parts::class_row, crate::proofs::Parts::class_long))]
fn is_ok(
    processes: &[Process; Machine::PROCESSES as usize],
    created: u8,
    class: usize,
    q: &Queue,
) -> bool
    requires { created ≤ 10 }
    ensures { result ≡ class_in created processes.now class q.now }
{
    q.len <= Machine::PROCESSES && are_of(queue::standing(q), processes, created, class)
}

// All three classes.
pub(crate) fn are_ok(
    processes: &[Process; Machine::PROCESSES as usize],
    created: u8,
    ready: &[Queue],
) -> bool
    requires { created ≤ 10 }
    ensures { result ≡ list_all (λ x. class_in created processes.now x.0 x.1) (enumerate_from 0 ready.now) }
{
    ready
        .iter()
        .enumerate()
        .all(|(c, q)| is_ok(processes, created, c, q))
}
