// Calls 6 to 10: enter, leave, delay, continue, new gate.
ghost use Rattle.std.specs.Prelude.{◌≡◌, ◌+◌, ◌≤◌, ltb};
ghost use Rattle.notation.specs.If.{if};
ghost use Rattle.machine.specs.declared.Machine.{Machine};
ghost use Rattle.machine.specs.Call.{call6, call7, call8, call9, call10};
ghost use Rattle.kernel.specs.Did.{OnPrivate, Told, answered, gone, may_make};

use crate::answer::{Act, Decision};
use crate::caller::Caller;
use crate::fit::Fit;
use machine::{Gate, Machine};
use word::Fault;

// A word as a number of a gate or a cell: there is none of 255, nor of more.
pub(crate) fn byte(x: u16) -> u8
    ensures { result ≡ if (ltb x 256) x 255 }
{
    u8::try_from(x).unwrap_or(u8::MAX)
}

// Whether a move of a gate is no fault. Each is asked of other parts, as in `call_of`.
fn may(who: Caller, gates: &[Gate; Machine::GATES as usize], act: Act) -> bool
    ensures { (m : Machine) → Told who m → m.gates ≡ gates.now → result ≡ may_make m act }
{
    match act {
        Act::Enter(g) => moves::may_enter(who.process, who.number, *gates, who.made, g),
        Act::Leave(g) => moves::may_leave(who.process, who.made, g),
        Act::Delay(g, c) => moves::may_delay(who.process, *gates, who.made, g, c),
        Act::Continue(g, c) => moves::may_continue(who.process, who.made, g, c),
        _ => true,
    }
}

// The move, where the caller may make it, with k words popped.
fn make(
    who: Fit,
    gates: &[Gate; Machine::GATES as usize],
    k: u16,
    act: Act,
) -> Result<Decision, Fault>
    requires { k ≤ 2 }
    ensures { (m : Machine) → Told who.caller m → m.gates ≡ gates.now → result ≡ if (may_make m act) (Ok (gone who.caller (who.caller.process.regs.s + k) act)) (Err Fault.Gate) }
{
    if !may(who.caller, gates, act) {
        return Err(Fault::Gate);
    }
    Ok(who.goes(who.caller.process.regs.s + k, act))
}

// Calls 6 and 7, and 8 and 9, are twins but for the move. One function that takes it as a closure would have a contract of that
// closure's predicates, longer than the two.

// 6 enter: pop gate.
pub(crate) fn call6(
    who: Fit,
    gates: &[Gate; Machine::GATES as usize],
    private: &[u16; Machine::PRIVATE],
) -> Result<Decision, Fault>
    ensures { (m : Machine) → Told who.caller m → m.gates ≡ gates.now → OnPrivate (answered who.caller result) m private.now private.now call6 }
{
    let [gate] = who.words::<1>(private)?;
    make(who, gates, 1, Act::Enter(byte(gate)))
}

// 7 leave: pop gate.
pub(crate) fn call7(
    who: Fit,
    gates: &[Gate; Machine::GATES as usize],
    private: &[u16; Machine::PRIVATE],
) -> Result<Decision, Fault>
    ensures { (m : Machine) → Told who.caller m → m.gates ≡ gates.now → OnPrivate (answered who.caller result) m private.now private.now call7 }
{
    let [gate] = who.words::<1>(private)?;
    make(who, gates, 1, Act::Leave(byte(gate)))
}

// 8 delay: pop cell, gate.
pub(crate) fn call8(
    who: Fit,
    gates: &[Gate; Machine::GATES as usize],
    private: &[u16; Machine::PRIVATE],
) -> Result<Decision, Fault>
    ensures { (m : Machine) → Told who.caller m → m.gates ≡ gates.now → OnPrivate (answered who.caller result) m private.now private.now call8 }
{
    let [cell, gate] = who.words::<2>(private)?;
    make(who, gates, 2, Act::Delay(byte(gate), byte(cell)))
}

// 9 continue: pop cell, gate.
pub(crate) fn call9(
    who: Fit,
    gates: &[Gate; Machine::GATES as usize],
    private: &[u16; Machine::PRIVATE],
) -> Result<Decision, Fault>
    ensures { (m : Machine) → Told who.caller m → m.gates ≡ gates.now → OnPrivate (answered who.caller result) m private.now private.now call9 }
{
    let [cell, gate] = who.words::<2>(private)?;
    make(who, gates, 2, Act::Continue(byte(gate), byte(cell)))
}

// 10 new gate: push its number.
pub(crate) fn call10(who: Fit, private: &mut [u16; Machine::PRIVATE]) -> Result<Decision, Fault>
    ensures { (m : Machine) → Told who.caller m → OnPrivate (answered who.caller result) m private.old private.new call10 }
{
    if Machine::GATES <= who.caller.made {
        return Err(Fault::Limit);
    }
    if Machine::HELD <= who.caller.process.holds {
        return Err(Fault::Gate);
    }
    let s = who.push(u16::from(who.caller.made), private)?;
    Ok(who.goes(s, Act::MakeGate))
}
