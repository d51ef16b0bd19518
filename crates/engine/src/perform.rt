// One instruction: its code's function, and the end of its job where a stop or a fault ends it.
ghost use Rattle.std.specs.Prelude.{◌≡◌, ◌&&◌, not, eqb, List, ℕ};
ghost use Rattle.machine.specs.Instruction.{perform, settled, instruct};
ghost use Rattle.engine.specs.Did.{did, went, sees};

use crate::sight::{Common, Own, Sight, Stop};
use crate::{flow, frame, job, place, stack};
use machine::Regs;
use word::Fault;

// The instruction of a code word: a number, since any other is fault 7. An arm for each of 8 to 19, so that its operation is
// known: with `8 | 11` and `9..=19`, of a code to be told apart once more, arithmetic took 1.1 times as long.
#[tactic(auto, using(machine::proofs::Laws::cases), unfolding(machine::specs::Instruction::perform))]
fn perform(op: u16, v: &Sight, common: &mut Common, own: &mut Own) -> Result<Regs, Stop>
    ensures { did result common.new own.new ≡ perform (sees v.now common.old own.old) op }
{
    let next = match op {
        0 => stack::newline(v),
        1 => stack::pushconst(v, own),
        2 => place::pushind(v, common, own),
        3 => place::copyword(v, common, own),
        4 => stack::localaddr(v, own),
        5 => stack::pop(v),
        6 => stack::index(v, own),
        7 => stack::range(v, own),
        8 => stack::unary(8, v, own),
        9 => stack::binary(9, v, own),
        10 => stack::binary(10, v, own),
        11 => stack::unary(11, v, own),
        12 => stack::binary(12, v, own),
        13 => stack::binary(13, v, own),
        14 => stack::binary(14, v, own),
        15 => stack::binary(15, v, own),
        16 => stack::binary(16, v, own),
        17 => stack::binary(17, v, own),
        18 => stack::binary(18, v, own),
        19 => stack::binary(19, v, own),
        20 => flow::jump(v),
        21 => flow::falsejump(v, own),
        22 => flow::casejump(v, own),
        23 => frame::call(v, own),
        24 => frame::enter(v, own),
        25 => frame::exit(v, own),
        26 => job::callprog(v),
        27 => job::exitprog(v, own),
        28 => return Err(Stop::Call(job::ktrap(v)?)),
        _ => Err(Fault::Code),
    };
    went(next)
}

// A fault in a job ends the job. This, `went`, `end_job` and `exitprog` are inlined first of all: else what a job's end writes
// keeps the registers of the burst's loop in memory, at 1.3 times the processor's instructions.
#[inline(always)]
fn settle(v: &Sight, out: Result<Regs, Stop>, own: &mut Own) -> Result<Regs, Stop>
    ensures { (c : List ℕ) → did result c own.new ≡ settled (sees v.now c own.old) (did out c own.old).out (did out c own.old) }
{
    match out {
        Err(Stop::Fault(f)) if v.regs.in_job => went(job::end_job(v, f.into(), own)),
        _ => out,
    }
}

// What an instruction that calls no kernel answers.
#[inline(always)]
fn went(next: Result<Regs, Fault>) -> Result<Regs, Stop>
    ensures { (c q : List ℕ) → did result c q ≡ went next c q }
{
    Ok(next?)
}

// A stop is taken at a FALSEJUMP, before its faults.
fn takes_stop(r: Regs, op: u16) -> bool
    ensures { result ≡ (r.in_job && not (eqb r.reason 0) && eqb op 21) }
{
    r.in_job && r.reason != 0 && op == 21
}

// One instruction of the process: a job may end at it, by a stop, by a fault or by EXITPROG.
pub(crate) fn instruct(v: &Sight, common: &mut Common, own: &mut Own) -> Result<Regs, Stop>
    ensures { did result common.new own.new ≡ instruct (sees v.now common.old own.old) }
{
    let at = usize::from(v.regs.address);
    if v.code.len() <= at {
        return settle(v, Err(Stop::Fault(Fault::Code)), own);
    }
    let op = v.code[at];
    if takes_stop(v.regs, op) {
        return went(job::end_job(v, v.regs.reason, own));
    }
    let out = perform(op, v, common, own);
    settle(v, out, own)
}
