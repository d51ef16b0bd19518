// The machine's numbers.
ghost use Rattle.std.specs.Prelude.{◌≡◌, ◌&&◌, ◌||◌, ◌%◌, leb, eqb, get_or};
ghost use Rattle.image.specs.Header.{good_header};
ghost use Rattle.notation.specs.Upto.{all_to};
ghost use Rattle.machine.specs.State.{going, no_queue};
ghost use Rattle.machine.specs.Sound.{numbers_ok};

use image::Header;
use machine::{Machine, Queue};

// "edition, n and devices as in a header"; with no variables it has few enough.
fn fit_a_header(edition: u16, length: u16, devices: u16) -> bool
    ensures { result ≡ good_header (record { edition = edition; length = length; devices = devices; variables = 0 }) }
{
    edition == Header::EDITION
        && 1 <= length
        && length <= Header::MOST_LENGTH
        && devices <= Header::ALL_DEVICES
}

// "the fraction 0 to 9,990, (..) multiples of 10; seconds 0 to 32,767, a stop's number 0 to 9".
fn fit_the_clock(fraction: u16, seconds: u16, stop: u8) -> bool
    ensures { result ≡ leb fraction 9990 && eqb (fraction % 10) 0 && leb seconds 32767 && (eqb stop going || leb stop 9) }
{
    fraction <= Machine::LAST_FRACTION
        && fraction % Machine::TICK == 0
        && seconds <= Machine::LAST_SECOND
        && (stop == Machine::GOING || stop <= 9)
}

// "Ready is empty".
#[tactic(auto, unfolding(notation::specs::Upto::all_to))]
fn is_empty(ready: &[Queue; 3]) -> bool
    ensures { result ≡ all_to (λ c. eqb (get_or ready.now c no_queue).len 0) 3 }
{
    ready.iter().all(|q| q.len == 0)
}

// "Created processes and gates have the lowest numbers, process 0 among them"; "at most one runs"; "Ready is empty when nobody runs".
#[tactic(auto, unfolding(machine::specs::Sound::numbers_ok))]
pub(crate) fn are_ok(m: &Machine) -> bool
    ensures { result ≡ numbers_ok m.now }
{
    1 <= m.created
        && m.created <= Machine::PROCESSES
        && m.made <= Machine::GATES
        && fit_a_header(m.edition, m.length, m.present)
        && fit_the_clock(m.fraction, m.seconds, m.stop)
        && (m.running == Machine::NOBODY || m.running < m.created)
        && (m.running < Machine::NOBODY || is_empty(&m.ready))
        && m.count <= Machine::MOST_COUNT
        && (m.running < Machine::NOBODY || !m.mark)
}
