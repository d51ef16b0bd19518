// Jobs: codes 26 and 27, KTRAP, and the end of a job.
ghost use Rattle.std.specs.Prelude.{◌≡◌, true, List, ℕ};
ghost use Rattle.machine.specs.Job.{end_job};
ghost use Rattle.machine.specs.Instruction.{callprog, exitprog, ktrap};
ghost use Rattle.engine.specs.Did.{sees, traps, OnRegs, OnOwn};

use crate::sight::{Own, Sight};
use machine::{Machine, Regs};
use word::Fault;

// The job's end: the marks as before the call, and the result pushed; 6 where there is no room.
#[inline(always)]
#[tactic(auto, using(machine::proofs::Laws::cases), unfolding(machine::specs::Job::end_job))]
pub(crate) fn end_job(v: &Sight, res: u16, own: &mut Own) -> Result<Regs, Fault>
    requires { v.now.regs.in_job ≡ true }
    ensures { OnOwn result v.now own.old own.new (λ v. end_job v res) }
{
    let r = v.regs;
    if r.saved_s <= v.floor {
        return Err(Fault::StackLimit);
    }
    let s = r.saved_s - 1;
    own[usize::from(s - Machine::OWN)] = res;
    Ok(Regs {
        address: r.saved_address,
        line: r.line,
        s,
        b: r.saved_b,
        c: Machine::CEILING,
        in_job: false,
        saved_s: 0,
        saved_b: 0,
        saved_address: 0,
        p: 0,
        reason: 0, // no stop is pending any more
    })
}

// 26 CALLPROG t p.
#[tactic(auto, using(machine::proofs::Laws::cases), unfolding(machine::specs::Instruction::callprog))]
pub(crate) fn callprog(v: &Sight) -> Result<Regs, Fault>
    ensures { OnRegs result v.now callprog }
{
    let [t, p] = v.arguments::<2>()?;
    let r = v.regs;
    if r.in_job || usize::from(r.b) < usize::from(r.s) + usize::from(p) {
        return Err(Fault::Code);
    }
    if v.holding {
        return Err(Fault::Gate);
    }
    if v.code.len() <= usize::from(t) {
        return Err(Fault::Code);
    }
    Ok(Regs {
        address: t,
        b: r.s,
        c: r.s,
        in_job: true,
        saved_s: r.s,
        saved_b: r.b,
        saved_address: r.address + 3,
        p,
        reason: 0,
        ..r
    })
}

// 27 EXITPROG.
#[inline(always)]
#[tactic(auto, using(machine::proofs::Laws::cases), unfolding(machine::specs::Instruction::exitprog))]
pub(crate) fn exitprog(v: &Sight, own: &mut Own) -> Result<Regs, Fault>
    ensures { OnOwn result v.now own.old own.new exitprog }
{
    if !v.regs.in_job {
        return Err(Fault::Code);
    }
    end_job(v, v.regs.reason, own)
}

// 28 KTRAP k.
#[tactic(auto, using(machine::proofs::Laws::cases), unfolding(machine::specs::Instruction::ktrap))]
pub(crate) fn ktrap(v: &Sight) -> Result<u16, Fault>
    ensures { (c q : List ℕ) → traps result c q ≡ ktrap (sees v.now c q) }
{
    let [k] = v.arguments::<1>()?;
    if v.regs.in_job || 11 < k {
        return Err(Fault::Code);
    }
    Ok(k)
}
