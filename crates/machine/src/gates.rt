// Gates: enter, leave, delay, continue, new gate.
ghost use Rattle.std.specs.Prelude.{◌≡◌, leb, get_or, set};
ghost use Rattle.notation.specs.If.{if};
ghost use Rattle.machine.specs.State.{more, no_gate};
ghost use Rattle.machine.specs.Gate.{entered, given, grant, give_up, sit, pass, hand_on, enter, leave, delay, continue, make_gate};

use crate::{Gate, Gates, Machine, Process, Queue};

// Giving up the last gate held makes the class 2. Beside `fallen`: another test, other classes.
#[tactic(auto, using(crate::proofs::Laws::cases))]
fn class_without(holds: u8) -> u8
    ensures { result ≡ if (leb holds 1) 2 0 }
{
    if holds <= 1 { 2 } else { 0 }
}

impl Process {
    // g is the latest gate entered, for which a sound state has room.
    #[tactic(auto, using(crate::proofs::Laws::cases), unfolding(crate::specs::Gate::entered))]
    fn enter(&mut self, g: u8)
        ensures { self.new ≡ entered self.old g }
    {
        if self.holds < Machine::HELD {
            self.held[usize::from(self.holds)] = g;
            self.holds += 1;
            self.class = 0;
        }
    }

    // The latest gate entered is given up.
    #[tactic(auto, unfolding(crate::specs::Gate::given))]
    fn give_up(&mut self)
        ensures { self.new ≡ given self.old }
    {
        self.class = class_without(self.holds);
        self.holds = self.holds.saturating_sub(1);
    }
}

impl Gate {
    pub(crate) const OPEN: Gate = Gate {
        holder: Machine::NOBODY,
        queue: Queue::EMPTY,
        cells: [Machine::NOBODY; Machine::CELLS as usize],
    };

    // Who sits in cell c; in one that is not there, 0.
    #[tactic(auto, using(crate::proofs::Laws::past))]
    pub fn cell(self, c: u8) -> u8
        ensures { result ≡ get_or self.cells c 0 }
    {
        if c <= Machine::LAST_CELL {
            self.cells[usize::from(c)]
        } else {
            0
        }
    }

    // A guarded write, as of a device or of a process's end in moves: one generic `set` for them would have to be public.
    #[tactic(auto, using(crate::proofs::Laws::past))]
    fn seat(&mut self, c: u8, x: u8)
        ensures { self.new ≡ record { holder = self.old.holder; queue = self.old.queue; cells = set self.old.cells c x } }
    {
        if c < Machine::CELLS {
            self.cells[usize::from(c)] = x;
        }
    }
}

// Who sits in cell c of g; in what is not there, 0.
fn cell_of(gates: &Gates, g: u8, c: u8) -> u8
    ensures { result ≡ get_or (get_or gates.now g no_gate).cells c 0 }
{
    gates.get(usize::from(g)).map_or(0, |w| w.cell(c))
}

impl Machine {
    // ---- in place: a function that is given the machine by value, and indexes it, keeps a copy of it
    // h becomes holder of g.
    #[tactic(auto, using(crate::proofs::Laws::past), unfolding(crate::specs::Gate::grant, crate::specs::State::with_process))]
    fn grant(&mut self, g: u8, h: u8)
        ensures { self.new ≡ grant self.old g h }
    {
        if h < Machine::PROCESSES {
            self.processes[usize::from(h)].enter(g);
        }
        if g < Machine::GATES {
            self.gates[usize::from(g)].holder = h;
        }
    }

    // h gives g up, which nobody holds. Beside grant: each is one definition, and a shared one would be told the holder and the change.
    #[tactic(auto, using(crate::proofs::Laws::past), unfolding(crate::specs::Gate::give_up, crate::specs::State::with_process))]
    fn give_up(&mut self, g: u8, h: u8)
        ensures { self.new ≡ give_up self.old g h }
    {
        if h < Machine::PROCESSES {
            self.processes[usize::from(h)].give_up();
        }
        if g < Machine::GATES {
            self.gates[usize::from(g)].holder = Machine::NOBODY;
        }
    }

    // x sits in cell c of g.
    #[tactic(auto, using(crate::proofs::Laws::past), unfolding(crate::specs::Gate::sit))]
    fn sit(&mut self, g: u8, c: u8, x: u8)
        ensures { self.new ≡ sit self.old g c x }
    {
        if g < Machine::GATES {
            self.gates[usize::from(g)].seat(c, x);
        }
    }

    // A process that waited or sat holds g, and is ready.
    #[tactic(auto, unfolding(crate::specs::Gate::pass))]
    fn pass(&mut self, g: u8, h: u8)
        ensures { self.new ≡ pass self.old g h }
    {
        self.grant(g, h);
        self.wake(h);
    }

    // The first waiter holds, else the gate, given up before, is open.
    #[tactic(auto, using(crate::proofs::Laws::cases, crate::proofs::Laws::past), unfolding(crate::specs::Gate::hand_on, crate::specs::Gate::advance))]
    fn hand_on(&mut self, g: u8)
        ensures { self.new ≡ hand_on self.old g }
    {
        if g < Machine::GATES
            && let Some(h) = self.gates[usize::from(g)].queue.pop()
        {
            self.pass(g, h);
        }
    }

    // ---- the operations of the running process, where no fault forbids them
    // Open, the caller holds it; shut, the caller waits last.
    #[tactic(auto, using(crate::proofs::Laws::cases, crate::proofs::Laws::past), unfolding(crate::specs::Gate::enter, crate::specs::Gate::join, crate::specs::Classes::set_running))]
    pub fn enter(mut self, g: u8) -> Machine
        ensures { result ≡ enter self g }
    {
        let i = self.running;
        if g < Machine::GATES {
            let w = &mut self.gates[usize::from(g)];
            if Machine::NOBODY <= w.holder {
                self.grant(g, i);
                return self;
            }
            w.queue.push(i);
        }
        // a gate that is not there has a holder, 0: the caller waits
        self.run_nobody();
        self
    }

    // The first waiter holds, else the gate opens.
    #[tactic(auto, unfolding(crate::specs::Gate::leave))]
    pub fn leave(mut self, g: u8) -> Machine
        ensures { result ≡ leave self g }
    {
        let i = self.running;
        self.give_up(g, i);
        self.hand_on(g);
        self
    }

    // The caller sits in the cell, and the gate is given up as in leave.
    #[tactic(auto, unfolding(crate::specs::Gate::delay, crate::specs::Classes::set_running))]
    pub fn delay(mut self, g: u8, c: u8) -> Machine
        ensures { result ≡ delay self g c }
    {
        let i = self.running;
        self.run_nobody();
        self.give_up(g, i);
        self.sit(g, c, i);
        self.hand_on(g);
        self
    }

    // The caller is out; the process in the cell holds, before all that wait, or if the cell is empty, as in leave.
    pub fn continue_cell(mut self, g: u8, c: u8) -> Machine
        ensures { result ≡ continue self g c }
    {
        let h = cell_of(&self.gates, g, c);
        if Machine::NOBODY <= h {
            return self.leave(g);
        }
        let i = self.running;
        self.give_up(g, i);
        self.sit(g, c, Machine::NOBODY);
        self.pass(g, h);
        self
    }

    // A new gate, shut and held by the caller.
    #[tactic(auto, unfolding(crate::specs::Gate::make_gate))]
    pub fn make_gate(mut self) -> Machine
        ensures { result ≡ make_gate self }
    {
        let g = self.made;
        let i = self.running;
        self.made = one_more(g, Machine::GATES);
        self.grant(g, i);
        self
    }
}

// One more of what there are at most k of.
#[tactic(auto, using(crate::proofs::Laws::cases))]
pub(crate) fn one_more(x: u8, k: u8) -> u8
    ensures { result ≡ more x k }
{
    if x < k { x + 1 } else { x }
}
