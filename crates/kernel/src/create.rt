// Call 3: new process.
ghost use Rattle.std.specs.Prelude.{◌≡◌, ◌+◌, ◌≤◌, ◌<◌};
ghost use Rattle.machine.specs.declared.Machine.{Machine};
ghost use Rattle.machine.specs.Call.{call3};
ghost use Rattle.kernel.specs.Did.{OnPrivate, Told, answered};
ghost use Rattle.kernel.specs.Part.{child_part};

use crate::answer::{Act, Decision};
use crate::caller::own;
use crate::fit::Fit;
use image::Header;
use machine::Machine;
use word::Fault;

// The child's part is cleared, then the p words stand first in the order pushed: the first pushed lies deepest.
fn new_part(child: u8, s: u16, p: u16, private: &mut [u16; Machine::PRIVATE])
    requires { (1 ≤ child) × (child < 10) × (2048 ≤ s) × (s + (3 + p) ≤ 4096) × (p ≤ 1024) }
    ensures { private.new ≡ child_part private.old child s p }
{
    let at = Machine::PART * usize::from(child);
    let p = usize::from(p);
    let last = own(0, s + 3);
    private[at..at + Machine::PART].fill(0);
    private.copy_within(last..last + p, at);
    private[at..at + p].reverse();
}

// 3 new process: pop t, v, p, then p words.
pub(crate) fn call3(who: Fit, private: &mut [u16; Machine::PRIVATE]) -> Result<Decision, Fault>
    ensures { (m : Machine) → Told who.caller m → OnPrivate (answered who.caller result) m private.old private.new call3 }
{
    let [t, v, p] = who.words::<3>(private)?;
    if who.caller.number != 0 || Machine::PROCESSES <= who.caller.created {
        return Err(Fault::Limit);
    }
    if Header::MOST_VARIABLES < v || v < p {
        return Err(Fault::Range);
    }
    who.has_words(3 + usize::from(p))?;
    if who.caller.length <= t {
        return Err(Fault::Code);
    }
    let s = who.caller.process.regs.s;
    new_part(who.caller.created, s, p, private);
    Ok(who.goes(s + (3 + p), Act::Create(t, v)))
}
