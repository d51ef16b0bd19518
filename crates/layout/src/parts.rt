// The words of each part.
ghost use Rattle.std.specs.Prelude.{◌≡◌, true, [], ◌∷◌, ◌<◌};
ghost use Rattle.machine.specs.declared.Queue.{Queue};
ghost use Rattle.machine.specs.declared.Gate.{Gate};
ghost use Rattle.machine.specs.declared.Regs.{Regs};
ghost use Rattle.machine.specs.declared.Process.{Process};
ghost use Rattle.machine.specs.declared.Device.{Device};
ghost use Rattle.layout.specs.Layout.{bytes, process_fits, queue_words, gate_words, regs_words, process_words, device_words, queue_of, gate_of, regs_of, process_of, device_of};

use crate::WORDS;
use crate::part::{Part, get_all, put_all};
use machine::{Device, Gate, Machine, Process, Queue, Regs};

impl Part for u16 {
    const WIDTH: usize = 1;

    ghost WIDTH = { 1 };

    ghost words_of = { λ x. x ∷ [] };

    ghost fits = { λ _. Unit {0} };

    ghost part_of = { λ w. w 0 };

    fn put(self, to: &mut [u16; WORDS], at: usize) {
        to[at] = self;
    }

    fn get(words: &[u16; WORDS], at: usize) -> u16 {
        words[at]
    }
}

impl Part for u8 {
    const WIDTH: usize = 1;

    ghost WIDTH = { 1 };

    ghost words_of = { λ x. x ∷ [] };

    ghost fits = { λ w. w 0 < 256 };

    ghost part_of = { λ w. w 0 };

    fn put(self, to: &mut [u16; WORDS], at: usize) {
        to[at] = self.into();
    }

    fn get(words: &[u16; WORDS], at: usize) -> u8 {
        words[at] as u8
    }
}

impl Part for Queue {
    const WIDTH: usize = 11;

    ghost WIDTH = { 11 };

    ghost words_of = { queue_words };

    ghost fits = { λ w. bytes w 11 ≡ true };

    ghost part_of = { queue_of };

    fn put(self, to: &mut [u16; WORDS], at: usize) {
        self.len.put(to, at);
        put_all(to, at + 1, &self.at);
    }

    #[tactic(auto, using(crate::proofs::InOrder::reads))]
    fn get(words: &[u16; WORDS], at: usize) -> Queue {
        Queue {
            len: u8::get(words, at),
            at: get_all(words, at + 1),
        }
    }
}

impl Part for Gate {
    const WIDTH: usize = 20;

    ghost WIDTH = { 20 };

    ghost words_of = { gate_words };

    ghost fits = { λ w. bytes w 20 ≡ true };

    ghost part_of = { gate_of };

    fn put(self, to: &mut [u16; WORDS], at: usize) {
        self.holder.put(to, at);
        self.queue.put(to, at + 1);
        put_all(to, at + 12, &self.cells);
    }

    #[tactic(auto, using(crate::proofs::InOrder::reads))]
    fn get(words: &[u16; WORDS], at: usize) -> Gate {
        Gate {
            holder: u8::get(words, at),
            queue: Queue::get(words, at + 1),
            cells: get_all(words, at + 12),
        }
    }
}

impl Part for Regs {
    const WIDTH: usize = 11;

    ghost WIDTH = { 11 };

    ghost words_of = { regs_words };

    ghost fits = { λ _. Unit {0} };

    ghost part_of = { regs_of };

    fn put(self, to: &mut [u16; WORDS], at: usize) {
        let all = [
            self.address,
            self.line,
            self.s,
            self.b,
            self.c,
            self.in_job.into(),
            self.saved_s,
            self.saved_b,
            self.saved_address,
            self.p,
            self.reason,
        ];
        put_all(to, at, &all);
    }

    fn get(words: &[u16; WORDS], at: usize) -> Regs {
        Regs {
            address: words[at],
            line: words[at + 1],
            s: words[at + 2],
            b: words[at + 3],
            c: words[at + 4],
            in_job: words[at + 5] == 1,
            saved_s: words[at + 6],
            saved_b: words[at + 7],
            saved_address: words[at + 8],
            p: words[at + 9],
            reason: words[at + 10],
        }
    }
}

impl Part for Process {
    const WIDTH: usize = 24;

    ghost WIDTH = { 24 };

    ghost words_of = { process_words };

    ghost fits = { λ w. process_fits w ≡ true };

    ghost part_of = { process_of };

    fn put(self, to: &mut [u16; WORDS], at: usize) {
        let counts = [
            self.variables,
            self.slice.into(),
            self.class.into(),
            self.holds.into(),
        ];
        self.regs.put(to, at);
        put_all(to, at + 11, &counts);
        put_all(to, at + 15, &self.held);
        to[at + 23] = self.ended.into();
    }

    #[tactic(auto, using(crate::proofs::InOrder::reads))]
    fn get(words: &[u16; WORDS], at: usize) -> Process {
        Process {
            regs: Regs::get(words, at),
            variables: words[at + 11],
            slice: u8::get(words, at + 12),
            class: u8::get(words, at + 13),
            holds: u8::get(words, at + 14),
            held: get_all(words, at + 15),
            ended: words[at + 23] == 1,
        }
    }
}

impl Part for Device {
    const WIDTH: usize = 3;

    ghost WIDTH = { 3 };

    ghost words_of = { device_words };

    ghost fits = { λ w. bytes w 2 ≡ true };

    ghost part_of = { device_of };

    fn put(self, to: &mut [u16; WORDS], at: usize) {
        let all = [self.process.into(), self.operation.into(), self.address];
        put_all(to, at, &all);
    }

    #[tactic(auto, using(crate::proofs::InOrder::reads))]
    fn get(words: &[u16; WORDS], at: usize) -> Device {
        Device {
            process: u8::get(words, at),
            operation: u8::get(words, at + 1),
            address: words[at + 2],
        }
    }
}
