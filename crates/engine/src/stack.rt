// The instructions on the stack's words: codes 0, 1 and 4 to 19.
ghost use Rattle.std.specs.Prelude.{◌≡◌};
ghost use Rattle.word.specs.Word.{word};
ghost use Rattle.machine.specs.View.{pushes};
ghost use Rattle.machine.specs.Instruction.{newline, pushconst, localaddr, pop, index, range, unary, binary};
ghost use Rattle.engine.specs.Did.{OnRegs, OnOwn};

use crate::sight::{Own, Sight};
use machine::{Machine, Regs};
use word::Fault;

// A word is pushed, and the process goes on at an address.
#[tactic(auto, using(machine::proofs::Laws::cases))]
pub(crate) fn push(v: &Sight, address: u16, w: u16, own: &mut Own) -> Result<Regs, Fault>
    ensures { OnOwn result v.now own.old own.new (λ v. pushes v address (word w)) }
{
    if v.regs.s <= v.floor {
        return Err(Fault::StackLimit);
    }
    let s = v.regs.s - 1;
    own[usize::from(s - Machine::OWN)] = w;
    Ok(v.at(address, s))
}

// 0 NEWLINE n.
#[tactic(auto, using(machine::proofs::Laws::cases), unfolding(machine::specs::Instruction::newline))]
pub(crate) fn newline(v: &Sight) -> Result<Regs, Fault>
    ensures { OnRegs result v.now newline }
{
    let [line] = v.arguments::<1>()?;
    let mut next = v.at(v.regs.address + 2, v.regs.s);
    next.line = line;
    Ok(next)
}

// 1 PUSHCONST c.
#[tactic(auto, using(machine::proofs::Laws::cases), unfolding(machine::specs::Instruction::pushconst))]
pub(crate) fn pushconst(v: &Sight, own: &mut Own) -> Result<Regs, Fault>
    ensures { OnOwn result v.now own.old own.new pushconst }
{
    let [c] = v.arguments::<1>()?;
    push(v, v.regs.address + 2, c, own)
}

// 4 LOCALADDR d.
#[tactic(auto, using(machine::proofs::Laws::cases), unfolding(machine::specs::Instruction::localaddr))]
pub(crate) fn localaddr(v: &Sight, own: &mut Own) -> Result<Regs, Fault>
    ensures { OnOwn result v.now own.old own.new localaddr }
{
    let [d] = v.arguments::<1>()?;
    let a = word::local_addr(v.regs.b, d)?;
    push(v, v.regs.address + 2, a, own)
}

// 5 POP.
#[tactic(auto, using(machine::proofs::Laws::cases), unfolding(machine::specs::Instruction::pop))]
pub(crate) fn pop(v: &Sight) -> Result<Regs, Fault>
    ensures { OnRegs result v.now pop }
{
    if v.regs.b <= v.regs.s {
        return Err(Fault::Code);
    }
    Ok(v.at(v.regs.address + 1, v.regs.s + 1))
}

// 6 INDEX min max len.
#[tactic(auto, using(machine::proofs::Laws::cases), unfolding(machine::specs::Instruction::index))]
pub(crate) fn index(v: &Sight, own: &mut Own) -> Result<Regs, Fault>
    ensures { OnOwn result v.now own.old own.new index }
{
    let [min, max, len] = v.arguments::<3>()?;
    let [i, address] = v.words::<2>(own)?;
    let a = word::index(address, i, min, max, len)?;
    let s = v.regs.s + 1;
    own[usize::from(s - Machine::OWN)] = a;
    Ok(v.at(v.regs.address + 4, s))
}

// 7 RANGE min max.
#[tactic(auto, using(machine::proofs::Laws::cases), unfolding(machine::specs::Instruction::range))]
pub(crate) fn range(v: &Sight, own: &Own) -> Result<Regs, Fault>
    ensures { OnOwn result v.now own.now own.now range }
{
    let [min, max] = v.arguments::<2>()?;
    let [i] = v.words::<1>(own)?;
    word::range(i, min, max)?;
    Ok(v.at(v.regs.address + 3, v.regs.s))
}

// 8 NOT, 11 NEG.
#[tactic(auto, using(machine::proofs::Laws::cases), unfolding(machine::specs::Instruction::unary))]
pub(crate) fn unary(op: u16, v: &Sight, own: &mut Own) -> Result<Regs, Fault>
    ensures { OnOwn result v.now own.old own.new (λ v. unary v op) }
{
    let [a] = v.words::<1>(own)?;
    let w = word::unary(op, a)?;
    own[usize::from(v.regs.s - Machine::OWN)] = w;
    Ok(v.at(v.regs.address + 1, v.regs.s))
}

// 9 AND, 10 OR, 12 ADD to 19 GREATER.
#[tactic(auto, using(machine::proofs::Laws::cases), unfolding(machine::specs::Instruction::binary))]
pub(crate) fn binary(op: u16, v: &Sight, own: &mut Own) -> Result<Regs, Fault>
    ensures { OnOwn result v.now own.old own.new (λ v. binary v op) }
{
    let [b, a] = v.words::<2>(own)?;
    let w = word::binary(op, a, b)?;
    let s = v.regs.s + 1;
    own[usize::from(s - Machine::OWN)] = w;
    Ok(v.at(v.regs.address + 1, s))
}
