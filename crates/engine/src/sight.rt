// What an instruction sees and answers.
ghost use Rattle.std.specs.Prelude.{◌≡◌, true, ◌+◌, ◌-◌, ◌≤◌, ◌<◌, ℕ, get_or, length, MatchResult};
ghost use Rattle.word.specs.declared.Fault.TheVariants as faults;
ghost use Rattle.machine.specs.View.{marks};
ghost use Rattle.engine.specs.declared.sight.Stop.TheVariants as stops;

use machine::{Machine, Regs};
use word::Fault;

// The common store, and a process's own part of the private store.
pub(crate) type Common = [u16; Machine::COMMON];

pub(crate) type Own = [u16; Machine::PART];

// Why a process does not go on: a fault, or KTRAP's call of the kernel.
#[derive(Clone, Copy)]
pub(crate) enum Stop {
    Fault(Fault),
    Call(u16),
}

impl From<Fault> for Stop {
    ghost from_gives = { λ f s. s ≡ stops.Fault f };

    #[inline(always)]
    fn from(f: Fault) -> Stop {
        Stop::Fault(f)
    }
}

// The code, the process's floor L, whether it holds a gate, and its registers, with their marks in order.
#[derive(Clone, Copy)]
pub(crate) struct Sight<'a> {
    pub(crate) code: &'a [u16],
    pub(crate) floor: u16,
    pub(crate) holding: bool,
    pub(crate) regs: Regs,
    ghost low: { 2048 ≤ floor },
    ghost floored: { floor ≤ regs.s },
    ghost framed: { regs.s ≤ regs.b },
    ghost topped: { regs.b ≤ regs.c },
    ghost high: { regs.c ≤ 4096 },
    ghost near: { regs.address ≤ 16256 },
    ghost saved: { regs.in_job ≡ true → regs.saved_s ≤ 4096 },
}

impl Sight<'_> {
    // The K words after the code word, or fault 7.
    pub(crate) fn arguments<const K: usize>(&self) -> Result<[u16; K], Fault>
        requires { K < 4 }
        ensures { MatchResult result
            (λ a. (self.now.regs.address + (K + 1) ≤ length self.now.code.now)
            × ((j : ℕ) → j < K → get_or a j 0 ≡ get_or self.now.code.now (self.now.regs.address + (1 + j)) 0))
            (λ f. (f ≡ faults.Code) × (length self.now.code.now < self.now.regs.address + (K + 1))) }
    {
        let at = usize::from(self.regs.address) + 1;
        if self.code.len() < at + K {
            return Err(Fault::Code);
        }
        Ok(*self.code[at..at + K].as_array().unwrap())
    }

    // The K words on top of the stack, the last pushed first, or fault 7.
    pub(crate) fn words<const K: usize>(&self, own: &Own) -> Result<[u16; K], Fault>
        requires { K < 4 }
        ensures { MatchResult result
            (λ w. (self.now.regs.s + K ≤ self.now.regs.b)
            × ((j : ℕ) → j < K → get_or w j 0 ≡ get_or own.now (self.now.regs.s + j - 2048) 0))
            (λ f. (f ≡ faults.Code) × (self.now.regs.b < self.now.regs.s + K)) }
    {
        let s = usize::from(self.regs.s);
        if usize::from(self.regs.b) < s + K {
            return Err(Fault::Code);
        }
        let at = s - Machine::OWN_AT;
        Ok(*own[at..at + K].as_array().unwrap())
    }

    // The registers at an address, with S.
    pub(crate) fn at(&self, address: u16, s: u16) -> Regs
        ensures { result ≡ marks self.now.regs address self.now.regs.line s self.now.regs.b }
    {
        // Not `Regs { .., ..self.regs }`: that copies field by field, and is slower.
        let mut next = self.regs;
        next.address = address;
        next.s = s;
        next
    }
}
