// Jumps: codes 20 to 22.
ghost use Rattle.machine.specs.View.{to_target, goes};
ghost use Rattle.machine.specs.Instruction.{jump, falsejump, casejump};
ghost use Rattle.engine.specs.Did.{OnRegs, OnOwn};

use crate::sight::{Own, Sight};
use machine::Regs;
use word::Fault;

// On at a taken target, with S; 7 at or past n.
#[tactic(auto, using(machine::proofs::Laws::cases))]
pub(crate) fn go_to(v: &Sight, t: u16, s: u16) -> Result<Regs, Fault>
    ensures { OnRegs result v.now (λ v. to_target v t (goes v t s)) }
{
    if v.code.len() <= usize::from(t) {
        return Err(Fault::Code);
    }
    Ok(v.at(t, s))
}

// 20 JUMP t.
#[tactic(auto, using(machine::proofs::Laws::cases), unfolding(machine::specs::Instruction::jump))]
pub(crate) fn jump(v: &Sight) -> Result<Regs, Fault>
    ensures { OnRegs result v.now jump }
{
    let [t] = v.arguments::<1>()?;
    go_to(v, t, v.regs.s)
}

// 21 FALSEJUMP t, where no stop is taken.
#[tactic(auto, using(machine::proofs::Laws::cases), unfolding(machine::specs::Instruction::falsejump))]
pub(crate) fn falsejump(v: &Sight, own: &Own) -> Result<Regs, Fault>
    ensures { OnOwn result v.now own.now own.now falsejump }
{
    let [t] = v.arguments::<1>()?;
    let [w] = v.words::<1>(own)?;
    let s = v.regs.s + 1;
    if w == 0 {
        go_to(v, t, s)
    } else {
        Ok(v.at(v.regs.address + 2, s))
    }
}

// 22 CASEJUMP min m t1..tm.
#[tactic(auto, using(machine::proofs::Laws::cases), unfolding(machine::specs::Instruction::casejump))]
pub(crate) fn casejump(v: &Sight, own: &Own) -> Result<Regs, Fault>
    ensures { OnOwn result v.now own.now own.now casejump }
{
    let [min, m] = v.arguments::<2>()?;
    let first = usize::from(v.regs.address) + 3;
    if v.code.len() < first + usize::from(m) {
        return Err(Fault::Code);
    }
    let [i] = v.words::<1>(own)?;
    let k = word::case_place(i, min, m)?;
    go_to(v, v.code[first + usize::from(k)], v.regs.s + 1)
}
