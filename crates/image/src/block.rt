// One block: 512 bytes, 256 little-endian words.
ghost use Rattle.std.specs.Prelude.{◌≡◌, ◌+◌, ◌*◌, ◌/◌, ◌%◌, ◌<◌, ◌==◌, length, slice_set};
ghost use Rattle.std.specs.List.{list_all};
ghost use Rattle.notation.specs.Upto.{sum_to};
ghost use Rattle.image.specs.Block.{word_at, good_block};

// A block in bytes and in words; how many of its words are content, and the place of the word that makes the sum right.
pub(crate) const BYTES: usize = 512;

pub(crate) const WORDS: usize = 256;

pub(crate) const CONTENT: usize = 254;

pub(crate) const CHECK: usize = 255;

// What the words of a block sum to, as they wrap.
pub(crate) const SUM: u16 = 65535;

// A block is eight strips of so many words.
const STRIP: usize = WORDS / 8;

// Word k of the bytes.
pub(crate) fn word(bytes: &[u8], k: usize) -> u16
    requires { 2 * k + 1 < length bytes.now }
    ensures { result ≡ word_at bytes.now k }
{
    u16::from_le_bytes([bytes[2 * k], bytes[2 * k + 1]])
}

// Word k of the bytes becomes w.
pub(crate) fn put_word(bytes: &mut [u8], k: usize, w: u16)
    requires { 2 * k + 1 < length bytes.old }
    ensures { bytes.new ≡ slice_set (slice_set bytes.old (2 * k) (w % 256)) (2 * k + 1) (w / 256) }
{
    let [low, high] = w.to_le_bytes();
    bytes[2 * k] = low;
    bytes[2 * k + 1] = high;
}

// All of the bytes are zero: none has a bit. Tried with `all`, which the compiler makes no vectors of: a check of an image then took 1.2
// times the instructions.
pub(crate) fn are_zero(bytes: &[u8]) -> bool
    ensures { result ≡ list_all (λ b. b == 0) bytes.now }
{
    bytes.iter().fold(0, |bits, b| bits | b) == 0
}

// Word k of each of the eight strips, added to s as it wraps. Written out so that the turns become vectors: docs/PERFORMANCE.md, "Images".
fn add_eight(s: u16, block: &[u8; BYTES], k: usize) -> u16
    requires { k < 32 }
    ensures { result ≡ (s + sum_to (λ j. word_at block.now (32 * j + k)) 8) % 65536 }
{
    s.wrapping_add(word(block, k))
        .wrapping_add(word(block, STRIP + k))
        .wrapping_add(word(block, 2 * STRIP + k))
        .wrapping_add(word(block, 3 * STRIP + k))
        .wrapping_add(word(block, 4 * STRIP + k))
        .wrapping_add(word(block, 5 * STRIP + k))
        .wrapping_add(word(block, 6 * STRIP + k))
        .wrapping_add(word(block, 7 * STRIP + k))
}

// The wrapping sum of a block's words, eight a turn: by strips, so that the compiler can make vectors of the turns; k is the place
// in each strip.
#[tactic(auto, using(crate::proofs::Laws::sum_more, notation::proofs::Upto::sum_strips), unfolding(notation::specs::Upto::sum_to))]
pub(crate) fn sum(block: &[u8; BYTES]) -> u16
    ensures { result ≡ sum_to (word_at block.now) 256 % 65536 }
{
    let mut s = 0;
    for k in 0..STRIP {
        s = add_eight(s, block, k);
    }
    s
}

// The check of one block that should have this number.
#[tactic(auto, using(crate::proofs::Laws::cases), unfolding(crate::specs::Block::good_block))]
pub(crate) fn is_good(block: &[u8; BYTES], number: usize) -> bool
    ensures { result ≡ good_block block.now number }
{
    sum(block) == SUM && usize::from(word(block, 0)) == number
}
