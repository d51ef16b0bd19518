// Ready processes by their classes, and the selection.
ghost use Rattle.std.specs.Prelude.{◌≡◌, ◌&&◌, ◌<◌, eqb, leb, ltb, get_or, position, set};
ghost use Rattle.notation.specs.If.{if};
ghost use Rattle.machine.specs.declared.Machine.{Machine};
ghost use Rattle.machine.specs.State.{more, no_process, no_queue, proc};
ghost use Rattle.machine.specs.Queue.{first, rest};
ghost use Rattle.machine.specs.Classes.{joined, best, selection, select, set_running, wake};
ghost use Rattle.machine.specs.Parts.{afterwards};

use crate::gates::one_more;
use crate::{Machine, Processes, Queue};

// ---- the ready queues alone: they are 33 bytes, and where they are indexed no machine is copied
// h joins the tail of class c.
#[tactic(auto, using(crate::proofs::Laws::past))]
pub(crate) fn join(ready: &mut [Queue; 3], c: u8, h: u8)
    ensures { ready.new ≡ joined ready.old c h }
{
    if c < 3 {
        ready[usize::from(c)].push(h);
    }
}

// The same by value.
pub fn joined(mut ready: [Queue; 3], c: u8, h: u8) -> [Queue; 3]
    ensures { result ≡ joined ready c h }
{
    join(&mut ready, c, h);
    ready
}

// What a selection changes: the ready queues, who runs, the count and the mark. Theorems name its fields (exact/specs/Same).
#[derive(Clone, Copy)]
pub struct Selection {
    pub ready: [Queue; 3],
    pub running: u8,
    pub count: u8,
    pub mark: bool,
}

// The head of class c, which has somebody, is taken off; a class that is not there has 0.
#[tactic(auto, using(crate::proofs::Laws::cases, crate::proofs::Laws::past))]
fn take_head(ready: &mut [Queue; 3], c: u8) -> u8
    requires { c < 3 → 0 < (get_or ready.now c no_queue).len }
    ensures head { result ≡ first (get_or ready.old c no_queue) }
    ensures less { ready.new ≡ set ready.old c (rest (get_or ready.old c no_queue)) }
{
    if c < 3 {
        ready[usize::from(c)].pop().unwrap_or(0)
    } else {
        0
    }
}

// Whether the next selection comes from class 2 by the count.
fn is_due(third: u8, count: u8) -> bool
    ensures { result ≡ (leb 8 count && ltb 0 third) }
{
    Machine::MOST_COUNT <= count && 0 < third
}

// The count after a selection from class c, where so many stand in class 2.
#[tactic(auto, using(crate::proofs::Laws::cases))]
fn count_from(third: u8, count: u8, c: u8) -> u8
    ensures { result ≡ if (eqb c 2) 0 (if (ltb 0 third) (more count 8) count) }
{
    if c == 2 {
        return 0;
    }
    if 0 < third {
        return one_more(count, Machine::MOST_COUNT);
    }
    count
}

// A selection, where nobody runs.
#[tactic(auto, unfolding(crate::specs::Classes::selection, crate::specs::Classes::start, crate::specs::Classes::pull, crate::specs::Classes::set_running, crate::specs::Classes::source, crate::specs::Classes::due, crate::specs::Classes::count_from))]
fn choose(mut ready: [Queue; 3], count: u8) -> Selection
    ensures { (m : Machine) → m.ready ≡ ready → m.count ≡ count → afterwards m result ≡ selection m }
{
    let third = ready[2].len;
    let mark = is_due(third, count);
    let c = if mark { 2 } else { best_of(ready) };
    let running = take_head(&mut ready, c);
    Selection {
        ready,
        running,
        count: count_from(third, count, c),
        mark,
    }
}

// What a ready class is compared with, where process i runs, of this class: 3 is nobody's, and no class comes before a mark.
#[tactic(auto, using(crate::proofs::Laws::cases))]
fn class_over(i: u8, class: u8, mark: bool) -> u8
    ensures { result ≡ if (ltb i 10) (if mark 0 class) 3 }
{
    if i < Machine::NOBODY {
        if mark { 0 } else { class }
    } else {
        3
    }
}

// A running process goes to the tail of its own class.
#[tactic(auto, using(crate::proofs::Laws::cases))]
fn aside(ready: [Queue; 3], i: u8, class: u8) -> [Queue; 3]
    ensures { result ≡ if (ltb i 10) (joined ready class i) ready }
{
    if i < Machine::NOBODY {
        joined(ready, class, i)
    } else {
        ready
    }
}

// What the selection makes of them where process i runs, of this class; where nobody runs, the class says nothing.
pub fn selected(ready: [Queue; 3], i: u8, class: u8, count: u8, mark: bool) -> Selection
    ensures { (m : Machine) → m.ready ≡ ready → m.running ≡ i → (i < 10 → (proc m i).class ≡ class) → m.count ≡ count → m.mark ≡ mark → afterwards m result ≡ select m }
{
    if is_better_ready(ready, class_over(i, class, mark)) {
        return choose(aside(ready, i, class), count);
    }
    Selection {
        ready,
        running: i,
        count,
        mark,
    }
}

// The class of process i; one that is not there has class 0.
pub fn class_of(processes: &Processes, i: u8) -> u8
    ensures { result ≡ (get_or processes.now i no_process).class }
{
    processes.get(usize::from(i)).map_or(0, |p| p.class)
}

impl Machine {
    // Nobody runs; no mark outlives who ran.
    #[tactic(auto, unfolding(crate::specs::Classes::set_running))]
    pub(crate) fn run_nobody(&mut self)
        ensures { self.new ≡ set_running self.old 10 }
    {
        self.running = Machine::NOBODY;
        self.mark = false;
    }

    // Woken processes and new holders join the tail of their class.
    #[tactic(auto, unfolding(crate::specs::Classes::wake, crate::specs::Classes::push))]
    pub(crate) fn wake(&mut self, h: u8)
        ensures { self.new ≡ wake self.old h }
    {
        join(&mut self.ready, class_of(&self.processes, h), h);
    }

    // The selection by value, as document 01 asks for it.
    pub fn select(mut self) -> Machine
        ensures { result ≡ select self }
    {
        self.choose_next();
        self
    }

    // A strictly better class that is ready displaces the running process.
    pub(crate) fn choose_next(&mut self)
        ensures { self.new ≡ select self.old }
    {
        let class = class_of(&self.processes, self.running);
        let Selection {
            ready,
            running,
            count,
            mark,
        } = selected(self.ready, self.running, class, self.count, self.mark);
        self.ready = ready;
        self.running = running;
        self.count = count;
        self.mark = mark;
    }
}

// The best class that is ready.
fn first_ready(queues: &[Queue]) -> Option<usize>
    ensures { result ≡ position (λ q. ltb 0 q.len) queues.now }
{
    queues.iter().position(|q| 0 < q.len)
}

// Its number, or 3: the definitions compare any class with it, where a slice ends too.
pub(crate) fn best_of(queues: [Queue; 3]) -> u8
    ensures best { (m : Machine) → m.ready ≡ queues → result ≡ best m }
    ensures has { result < 3 → 0 < (get_or queues result no_queue).len }
{
    first_ready(&queues).unwrap_or(3) as u8
}

// Whether a class that comes before this one is ready; 3 is nobody's.
pub fn is_better_ready(ready: [Queue; 3], class: u8) -> bool
    ensures { (m : Machine) → m.ready ≡ ready → result ≡ (ltb (best m) class && ltb (best m) 3) }
{
    let best = best_of(ready);
    best < class && best < 3
}
