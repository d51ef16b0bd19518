// The clock and the bell: who waits for them, how they wake, and the slice.
ghost use Rattle.std.specs.Prelude.{◌≡◌, ◌+◌, leb};
ghost use Rattle.notation.specs.If.{if};
ghost use Rattle.machine.specs.declared.Machine.{Machine};
ghost use Rattle.machine.specs.State.{proc};
ghost use Rattle.machine.specs.Clock.{clock_wait, bell_wait, next_second, time_passes, fallen, yields, slice_passes, tick, bell};
ghost use Rattle.machine.specs.Parts.{woken, aged};

use crate::classes::{best_of, class_of, join};
use crate::{Machine, Process, Processes, Queue};

// Class 1 falls to 2.
#[tactic(auto, using(crate::proofs::Laws::cases))]
fn fallen(c: u8) -> u8
    ensures { result ≡ fallen c }
{
    if c == 1 { 2 } else { c }
}

impl Process {
    // Its slice grows by 10; at 200 it is 0 again, and the class falls. Whether it was so.
    #[tactic(auto, using(crate::proofs::Laws::reached, crate::proofs::Laws::not_reached))]
    fn age(&mut self) -> bool
        ensures over { result ≡ leb 200 (self.old.slice + 10) }
        ensures aged { self.new ≡ aged self.old }
    {
        let over = Machine::LAST_UNITS <= self.slice;
        if over {
            self.slice = 0;
            self.class = fallen(self.class);
        } else {
            self.slice += Machine::UNITS;
        }
        over
    }
}

// 32,767 goes to 0.
#[tactic(auto, using(crate::proofs::Laws::cases))]
fn next_second(s: u16) -> u16
    ensures { result ≡ next_second s }
{
    if s < Machine::LAST_SECOND { s + 1 } else { 0 }
}

// All waiters wake, in order; the loop ends with the queue.
#[tactic(auto, using(crate::proofs::Laws::woken_next, crate::proofs::Laws::woken_over), unfolding(crate::specs::Queue::rest, crate::specs::Parts::one_woken))]
fn wake_all(processes: &Processes, ready: &mut [Queue; 3], waiters: &mut Queue)
    ensures { woken waiters.old.len processes.now (record { ready = ready.old; waiters = waiters.old }) ≡ record { ready = ready.new; waiters = waiters.new } }
{
    while let Some(h) = waiters.pop() {
        join(ready, class_of(processes, h), h);
    }
}

impl Machine {
    // The running process waits for the next second.
    #[tactic(auto, unfolding(crate::specs::Clock::clock_wait, crate::specs::Classes::set_running))]
    pub fn clock_wait(mut self) -> Machine
        ensures { result ≡ clock_wait self }
    {
        self.clock.push(self.running);
        self.run_nobody();
        self
    }

    // The running process waits for the bell. Beside clock_wait: a field of the machine that is lent cannot be a parameter.
    #[tactic(auto, unfolding(crate::specs::Clock::bell_wait, crate::specs::Classes::set_running))]
    pub fn bell_wait(mut self) -> Machine
        ensures { result ≡ bell_wait self }
    {
        self.bell.push(self.running);
        self.run_nobody();
        self
    }

    // At 10,000 a second is over, and all who wait for the clock wake.
    #[tactic(auto, using(crate::proofs::Laws::not_reached), unfolding(crate::specs::Clock::time_passes))]
    fn time_passes(&mut self)
        ensures { self.new ≡ time_passes self.old }
    {
        if Machine::LAST_FRACTION <= self.fraction {
            self.seconds = next_second(self.seconds);
            self.fraction = 0;
            wake_all(&self.processes, &mut self.ready, &mut self.clock);
        } else {
            self.fraction += Machine::TICK;
        }
    }

    // At its slice's end, the process goes to the tail of its class if one of its class or better is ready.
    #[tactic(auto, using(crate::proofs::Laws::cases), unfolding(crate::specs::Clock::yields))]
    fn yields(&mut self, h: u8)
        ensures { self.new ≡ yields self.old h }
    {
        if best_of(self.ready) <= class_of(&self.processes, h) {
            self.run_nobody();
            self.wake(h);
        }
    }

    // The slice of who ran grows by 10; at 200 it is 0 again, class 1 falls to 2, a mark ends, and the process may have to yield.
    #[tactic(auto, using(crate::proofs::Laws::cases), unfolding(crate::specs::Clock::slice_passes, crate::specs::State::with_process))]
    fn slice_passes(&mut self, h: u8)
        ensures { self.new ≡ if (leb 10 h) self.old (slice_passes self.old h) }
    {
        if h < Machine::PROCESSES && self.processes[usize::from(h)].age() {
            self.mark = false;
            self.yields(h);
        }
    }

    // 10 units of 1/10,000 s, and the selection after it.
    #[tactic(auto, unfolding(crate::specs::Clock::tick))]
    pub fn tick(mut self) -> Machine
        ensures { result ≡ tick self }
    {
        let i = self.running;
        self.time_passes();
        self.slice_passes(i);
        self.choose_next();
        self
    }

    // The bell: all its waiters wake in order.
    pub fn ring(mut self) -> Machine
        ensures { result ≡ bell self }
    {
        wake_all(&self.processes, &mut self.ready, &mut self.bell);
        self.choose_next();
        self
    }
}
