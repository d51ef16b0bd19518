// A queue of processes: one more last, the first taken off.
ghost use Rattle.std.specs.Prelude.{◌≡◌, None, Some, eqb};
ghost use Rattle.notation.specs.If.{if};
ghost use Rattle.machine.specs.Queue.{first, pushed, rest};

use crate::{Machine, Queue};

impl Queue {
    pub(crate) const EMPTY: Queue = Queue {
        len: 0,
        at: [0; Machine::PROCESSES as usize],
    };

    // x joins the tail, where a tenth has room.
    #[tactic(auto, using(crate::proofs::Laws::cases), unfolding(crate::specs::Queue::pushed))]
    pub(crate) fn push(&mut self, x: u8)
        ensures { self.new ≡ pushed self.old x }
    {
        if self.len < Machine::PROCESSES {
            self.at[usize::from(self.len)] = x;
            self.len += 1;
        }
    }

    // The first is out, and each stands one place further on; of a queue that has nobody nothing changes.
    #[tactic(auto, using(crate::proofs::Laws::cases), unfolding(crate::specs::Queue::rest))]
    pub(crate) fn pop(&mut self) -> Option<u8>
        ensures first { result ≡ if (eqb self.old.len 0) None (Some (first self.old)) }
        ensures rest { self.new ≡ if (eqb self.old.len 0) self.old (rest self.old) }
    {
        if self.len == 0 {
            return None;
        }
        let head = self.at[0];
        self.at.copy_within(1.., 0);
        self.at[usize::from(Machine::PROCESSES) - 1] = 0;
        self.len -= 1;
        Some(head)
    }
}
