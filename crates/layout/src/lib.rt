// The machine's state as a slice of words. The layout is in specs/Layout.antt.
#![tactic(auto)]

ghost use Rattle.std.specs.Prelude.{◌≡◌, length, eqb};
ghost use Rattle.notation.specs.If.{if};
ghost use Rattle.layout.specs.Layout.{packed, unpacked_if, state_words};

use machine::Machine;

mod part;
mod parts;
mod test;
mod whole;

// How many there are. A request that adds to the state appends its words, and raises the layout's version (docs/ABI.md).
pub const WORDS: usize = 822;

// The machine's words, where there are so many; else false, and no word is changed.
pub fn pack(m: Machine, words: &mut [u16]) -> bool
    ensures { (result ≡ eqb (length words.old) state_words) × (words.new ≡ if (eqb (length words.old) state_words) (packed m) words.old) }
{
    let Some(words) = words.as_mut_array() else {
        return false;
    };
    whole::put(m, words);
    true
}

// The machine that the words say; none where they are no machine's.
#[tactic(auto, using(crate::proofs::Laws::fitting), unfolding(crate::specs::Layout::unpacked_if))]
pub fn unpack(words: &[u16]) -> Option<Machine>
    ensures { result ≡ unpacked_if words.now }
{
    let words = words.as_array()?;
    // Not by `then`: each function that the machine is handed through copies it once more.
    if test::fit(words) {
        Some(whole::get(words))
    } else {
        None
    }
}
