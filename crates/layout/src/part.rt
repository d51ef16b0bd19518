// A part of the state: so many words from a place on.
ghost use Rattle.std.specs.Prelude.{◌≡◌, List, ℕ, ◌+◌, ◌*◌, ◌<◌, ◌≤◌, length};
ghost use Rattle.std.specs.List.{flat_map};
ghost use Rattle.notation.specs.Upto.{list_to};
ghost use Rattle.layout.specs.Layout.{from, state_words};
ghost use Rattle.layout.specs.Write.{Put};

use crate::WORDS;
use std::array;

// The words and the place stay two parameters: `put` lends the words to change and `get` to read, and a struct for each would be no shorter.
pub(crate) trait Part: Copy {
    // How many words.
    const WIDTH: usize;

    ghost WIDTH: { ℕ };

    // Its words; which words are some part's, the word at place k of them given by k; and the part that they say.
    ghost words_of: { Self → List ℕ };

    ghost fits: { (ℕ → ℕ) → Type 0 };

    ghost part_of: { (ℕ → ℕ) → Self };

    fn put(self, to: &mut [u16; WORDS], at: usize)
        requires { at + WIDTH ≤ state_words }
        ensures { Put to.old at (words_of self) WIDTH to.new };

    fn get(words: &[u16; WORDS], at: usize) -> Self
        requires { (at + WIDTH ≤ state_words) × fits (from words.now at) }
        ensures { result ≡ part_of (from words.now at) };
}

// Parts, one after the other from a place on.
pub(crate) fn put_all<P: Part>(to: &mut [u16; WORDS], at: usize, all: &[P])
    requires { at + P.WIDTH * length all.now ≤ state_words }
    ensures { Put to.old at (flat_map P.words_of all.now) (P.WIDTH * length all.now) to.new }
{
    for (i, part) in all.iter().enumerate() {
        part.put(to, at + P::WIDTH * i);
    }
}

pub(crate) fn get_all<P: Part, const N: usize>(words: &[u16; WORDS], at: usize) -> [P; N]
    requires { (at + P.WIDTH * N ≤ state_words) × ((i : ℕ) → i < N → P.fits (from words.now (at + P.WIDTH * i))) }
    ensures { result ≡ list_to (λ i. P.part_of (from words.now (at + P.WIDTH * i))) N }
{
    array::from_fn(
        |i: usize| -> P
            requires { (at + P.WIDTH * i + P.WIDTH ≤ state_words) × P.fits (from words.now (at + P.WIDTH * i)) }
            ensures { result ≡ P.part_of (from words.entry.now (at + P.WIDTH * i)) }
        { P::get(words, at + P::WIDTH * i) },
    )
}
