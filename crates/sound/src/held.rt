// The lists of held gates.
ghost use Rattle.std.specs.Prelude.{◌≡◌, ◌&&◌, true, ◌<◌, ℕ, ltb, eqb, get_or};
ghost use Rattle.std.specs.List.{list_all, fold, zip};
ghost use Rattle.word.specs.Word.{bit};
ghost use Rattle.machine.specs.State.{no_gate};
ghost use Rattle.sound.specs.Test.{list_in};

use crate::queue::are_below;
use crate::tally;
use machine::{Gate, Machine};

// The holder of each gate.
pub(crate) fn holders_of(gates: &[Gate; Machine::GATES as usize]) -> [u8; Machine::GATES as usize]
    ensures { (g : ℕ) → g < 25 → get_or result g 0 ≡ (get_or gates.now g no_gate).holder }
{
    gates.map(|w| w.holder)
}

// Each gate is counted once where q holds it, and else not. With no end before the last it is compared many at a time: by `all` the whole
// test of a sound state takes 1.4 times the instructions.
fn agree(
    counts: &[u16; Machine::GATES as usize],
    holders: &[u8; Machine::GATES as usize],
    q: u8,
) -> bool
    ensures { result ≡ fold (λ ok p. ok && eqb p.0 (bit (eqb p.1 q))) true (zip counts.now holders.now) }
{
    counts
        .iter()
        .zip(holders)
        .fold(true, |ok, (&n, &h)| ok & (n == u16::from(h == q)))
}

// "the lists of held gates agree with the holders and repeat none".
#[tactic(auto, using(crate::proofs::Parts::listed))]
pub(crate) fn is_ok(
    holders: &[u8; Machine::GATES as usize],
    q: u8,
    held: &[u8; Machine::HELD as usize],
    holds: u8,
) -> bool
    ensures { result ≡ list_in holders.now q held.now holds }
{
    if Machine::HELD < holds {
        return false;
    }
    let gates = &held[..usize::from(holds)];
    let mut counts = [0; Machine::GATES as usize];
    tally::count(&mut counts, gates);
    are_below(gates, Machine::GATES) && agree(&counts, holders, q)
}
