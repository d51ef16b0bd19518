// A caller that is fit for a call: its stack's words, and how it goes on.
ghost use Rattle.std.specs.Prelude.{◌≡◌, ◌+◌, ◌-◌, ◌<◌, ◌≤◌, set, MatchResult};
ghost use Rattle.word.specs.declared.Fault.TheVariants.{StackLimit, Code};
ghost use Rattle.machine.specs.Store.{own};
ghost use Rattle.kernel.specs.Did.{Able, gone, Words};

use crate::answer::{Act, Decision};
use crate::caller::{Caller, own};
use machine::Machine;
use word::Fault;

// A caller as a sound state has it.
#[derive(Clone, Copy)]
pub(crate) struct Fit {
    pub(crate) caller: Caller,
    ghost able: { Able caller },
}

impl Fit {
    // It goes past KTRAP, with S at s.
    pub(crate) fn goes(self, s: u16, act: Act) -> Decision
        ensures { result ≡ gone self.caller s act }
    {
        let mut process = self.caller.process;
        process.regs.address += 2;
        process.regs.s = s;
        Decision { process, act }
    }

    // Whether the stack has k words: S to B - 1 count.
    pub(crate) fn has_words(self, k: usize) -> Result<(), Fault>
        ensures { MatchResult result (λ _. self.caller.process.regs.s + k ≤ self.caller.process.regs.b) (λ f. (self.caller.process.regs.b < self.caller.process.regs.s + k) × (f ≡ Code)) }
    {
        let r = self.caller.process.regs;
        if usize::from(r.b - r.s) < k {
            return Err(Fault::Code);
        }
        Ok(())
    }

    // The K words that were pushed last, the last first.
    pub(crate) fn words<const K: usize>(
        self,
        private: &[u16; Machine::PRIVATE],
    ) -> Result<[u16; K], Fault>
        ensures { MatchResult result (λ l. Words self.caller K private.now l) (λ f. (self.caller.process.regs.b < self.caller.process.regs.s + K) × (f ≡ Code)) }
    {
        self.has_words(K)?;
        let at = own(self.caller.number, self.caller.process.regs.s);
        Ok(*private[at..at + K].as_array().unwrap())
    }

    // A word more on the stack, where it has room above the floor L: the new S.
    pub(crate) fn push(self, x: u16, private: &mut [u16; Machine::PRIVATE]) -> Result<u16, Fault>
        ensures { MatchResult result (λ s. (2048 + self.caller.process.variables + 1 ≤ self.caller.process.regs.s) × (s ≡ self.caller.process.regs.s - 1) × (private.new ≡ set private.old (own self.caller.number s) x)) (λ f. (self.caller.process.regs.s < 2048 + self.caller.process.variables + 1) × (f ≡ StackLimit) × (private.new ≡ private.old)) }
    {
        let least = Machine::OWN_AT + usize::from(self.caller.process.variables) + 1;
        if usize::from(self.caller.process.regs.s) < least {
            return Err(Fault::StackLimit);
        }
        let s = self.caller.process.regs.s - 1;
        private[own(self.caller.number, s)] = x;
        Ok(s)
    }
}
