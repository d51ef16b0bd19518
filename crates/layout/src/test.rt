// Whether words are a machine's.
ghost use Rattle.std.specs.Prelude.{◌≡◌, ◌+◌, ◌*◌, ◌≤◌};
ghost use Rattle.notation.specs.Upto.{all_to};
ghost use Rattle.layout.specs.Layout.{from, bytes, process_fits, fits, state_words};

use crate::WORDS;
use crate::part::Part;
use crate::whole::{DEVICES, GATES, NUMBERS};
use machine::{Device, Machine, Process};

// So many words are bytes. No `all`: that stops early, and so tests one word at a time, where this form tests many at once. With `all` unpack
// and pack together took 0.7 microseconds in place of 0.5.
fn are_bytes(words: &[u16; WORDS], at: usize, n: usize) -> bool
    requires { at + n ≤ state_words }
    ensures { result ≡ bytes (from words.now at) n }
{
    words[at..at + n].iter().fold(true, |ok, &w| ok & (w < 256))
}

#[tactic(auto, using(crate::proofs::Laws::bytes_shifted), unfolding(crate::specs::Layout::process_fits))]
fn process_fits(words: &[u16; WORDS], at: usize) -> bool
    requires { at + 24 ≤ state_words }
    ensures { result ≡ process_fits (from words.now at) }
{
    words[at + 5] < 2 && are_bytes(words, at + 12, 11) && words[at + 23] < 2
}

fn processes_fit(words: &[u16; WORDS]) -> bool
    ensures { result ≡ all_to (λ i. process_fits (from words.now (24 * i))) 10 }
{
    (0..Machine::PROCESSES as usize).all(|i| process_fits(words, Process::WIDTH * i))
}

// Of a device all but the address are bytes.
fn devices_fit(words: &[u16; WORDS]) -> bool
    ensures { result ≡ all_to (λ d. bytes (from words.now (795 + 3 * d)) 2) 5 }
{
    (0..5).all(|d| are_bytes(words, DEVICES + Device::WIDTH * d, 2))
}

// The gates and the queues stand before the devices, and are bytes throughout.
#[tactic(auto, unfolding(crate::specs::Layout::fits))]
pub(crate) fn fit(words: &[u16; WORDS]) -> bool
    ensures { result ≡ fits words.now }
{
    processes_fit(words)
        && are_bytes(words, GATES, DEVICES - GATES)
        && devices_fit(words)
        && are_bytes(words, NUMBERS, 4)
        && are_bytes(words, NUMBERS + 10, 1)
        && words[NUMBERS + 11] < 2
}
