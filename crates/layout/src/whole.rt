// All parts of the state, each at its place.
ghost use Rattle.std.specs.Prelude.{◌≡◌};
ghost use Rattle.layout.specs.Layout.{packed, unpacked, number_words, state_words};
ghost use Rattle.layout.specs.Read.{Fitting};
ghost use Rattle.layout.specs.Write.{Put};

use crate::WORDS;
use crate::part::{Part, get_all, put_all};
use machine::{Machine, Queue};

// Where each part begins; the processes stand first.
pub(crate) const GATES: usize = 240;

pub(crate) const READY: usize = 740;

pub(crate) const CLOCK: usize = 773;

pub(crate) const BELL: usize = 784;

pub(crate) const DEVICES: usize = 795;

pub(crate) const NUMBERS: usize = 810;

fn put_numbers(m: Machine, to: &mut [u16; WORDS])
    ensures { Put to.old 810 (number_words m) 12 to.new }
{
    let all = [
        m.running.into(),
        m.created.into(),
        m.made.into(),
        m.stop.into(),
        m.line,
        m.seconds,
        m.fraction,
        m.edition,
        m.length,
        m.present,
        m.count.into(),
        m.mark.into(),
    ];
    put_all(to, NUMBERS, &all);
}

pub(crate) fn put(m: Machine, to: &mut [u16; WORDS])
    ensures { Put to.old 0 (packed m) state_words to.new }
{
    put_all(to, 0, &m.processes);
    put_all(to, GATES, &m.gates);
    put_all(to, READY, &m.ready);
    m.clock.put(to, CLOCK);
    m.bell.put(to, BELL);
    put_all(to, DEVICES, &m.devices);
    put_numbers(m, to);
}

#[tactic(auto, using(crate::proofs::InOrder::reads), unfolding(crate::specs::Layout::unpacked))]
pub(crate) fn get(words: &[u16; WORDS]) -> Machine
    requires { Fitting words.now }
    ensures { result ≡ unpacked words.now }
{
    Machine {
        processes: get_all(words, 0),
        gates: get_all(words, GATES),
        ready: get_all(words, READY),
        clock: Queue::get(words, CLOCK),
        bell: Queue::get(words, BELL),
        devices: get_all(words, DEVICES),
        running: u8::get(words, NUMBERS),
        created: u8::get(words, NUMBERS + 1),
        made: u8::get(words, NUMBERS + 2),
        stop: u8::get(words, NUMBERS + 3),
        line: words[NUMBERS + 4],
        seconds: words[NUMBERS + 5],
        fraction: words[NUMBERS + 6],
        edition: words[NUMBERS + 7],
        length: words[NUMBERS + 8],
        present: words[NUMBERS + 9],
        count: u8::get(words, NUMBERS + 10),
        mark: words[NUMBERS + 11] == 1,
    }
}
