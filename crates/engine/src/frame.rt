// Frames: codes 23 to 25.
ghost use Rattle.machine.specs.Instruction.{call, enter, exit};
ghost use Rattle.engine.specs.Did.{OnOwn};

use crate::sight::{Own, Sight};
use crate::stack::push;
use machine::{Machine, Regs};
use word::Fault;

// 23 CALL t.
#[tactic(auto, using(machine::proofs::Laws::cases), unfolding(machine::specs::Instruction::call))]
pub(crate) fn call(v: &Sight, own: &mut Own) -> Result<Regs, Fault>
    ensures { OnOwn result v.now own.old own.new call }
{
    let [t] = v.arguments::<1>()?;
    if v.code.len() <= usize::from(t) {
        return Err(Fault::Code);
    }
    push(v, t, v.regs.address + 2, own)
}

// 24 ENTER m.
#[tactic(auto, using(machine::proofs::Laws::cases), unfolding(machine::specs::Instruction::enter))]
pub(crate) fn enter(v: &Sight, own: &mut Own) -> Result<Regs, Fault>
    ensures { OnOwn result v.now own.old own.new enter }
{
    let [m] = v.arguments::<1>()?;
    if usize::from(v.regs.s) < usize::from(v.floor) + usize::from(m) + 1 {
        return Err(Fault::StackLimit);
    }
    let b = v.regs.s - 1;
    let s = b - m;
    let frame = usize::from(b - Machine::OWN);
    own[frame] = v.regs.b;
    own[usize::from(s - Machine::OWN)..frame].fill(0);
    let mut next = v.at(v.regs.address + 2, s);
    next.b = b;
    Ok(next)
}

// 25 EXIT p.
#[tactic(auto, using(machine::proofs::Laws::cases), unfolding(machine::specs::Instruction::exit))]
pub(crate) fn exit(v: &Sight, own: &Own) -> Result<Regs, Fault>
    ensures { OnOwn result v.now own.now own.now exit }
{
    let [p] = v.arguments::<1>()?;
    let s = usize::from(v.regs.b) + 2 + usize::from(p);
    if usize::from(v.regs.c) < s {
        return Err(Fault::Code);
    }
    let frame = usize::from(v.regs.b - Machine::OWN);
    let b = own[frame];
    let back = own[frame + 1];
    if usize::from(b) < s || v.regs.c < b || v.code.len() <= usize::from(back) {
        return Err(Fault::Code);
    }
    let mut next = v.at(back, s as u16);
    next.b = b;
    Ok(next)
}
